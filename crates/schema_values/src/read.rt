ghost use Rattle.std.specs.Prelude.{◌≡◌, ◌≤◌, Err, IfOk, IfErr, IsOkUnless, IsUtf8};
ghost use Rattle.serde_json.specs.Errors.{IsMemory};
ghost use Rattle.schema_values.specs.Ascending.{IsAscending};
ghost use Rattle.schema_values.specs.Depth.{depth};
ghost use Rattle.schema_values.specs.Reading.{Reads};
ghost use Rattle.schema_values.specs.Sound.{IsSound};
ghost use Rattle.schema_values.specs.declared.json_value.Json.{Json as JsonValue};

use crate::json_value::Json;
use crate::one_pass::{OnePassError, read_text};
use crate::value::ValueError;
use json::Scratch;
use serde_json::Value;
use std::alloc::Global;
use std::str;
use thiserror::Error;

/// Why bytes were not read as a JSON value.
#[derive(Clone, Copy, Debug, PartialEq, Eq, Error)]
pub enum ReadError {
    /// The bytes are no JSON text, nest more than 127 deep, or hold a number that is no integer of 64 bits. A
    /// member that a later one of its name replaces is not held.
    #[error("not a JSON value over 64-bit integers")]
    Unreadable,
    /// There was not enough memory.
    #[error("out of memory")]
    OutOfMemory,
}

impl Json {
    /// The value that the whole of the bytes is, by RFC 8259, with the members of each object in ascending
    /// order of names. Of a repeated name the last value counts.
    ///
    /// `Unreadable` exactly where there is no such value with integers of 64 bits and at most 127 levels.
    /// Bytes that are no UTF-8 are told so before memory is asked for.
    pub fn read(alloc: Global, bytes: &[u8]) -> Result<Json, ReadError>
        ensures ok { IfOk result (λ json. Reads bytes.now json) }
        ensures sound { IfOk result (λ json. IsSound json) }
        ensures ascending { IfOk result (λ json. IsAscending json) }
        ensures nested { IfOk result (λ json. depth json ≤ 127) }
        ensures complete { (json : JsonValue) → Reads bytes.now json
            → IsOkUnless result ReadError.OutOfMemory }
        ensures unreadable { IfErr result (λ e. e ≡ ReadError.Unreadable → (json : JsonValue)
            → Reads bytes.now json → ⊥) }
        ensures no_text { (IsUtf8 bytes.now → ⊥) → result ≡ Err ReadError.Unreadable }
    {
        let mut scratch = Scratch::new(alloc);
        Json::read_with(alloc, &mut scratch, bytes)
    }

    /// The same as `read`, in room that a caller keeps from one text to the next.
    pub fn read_with(alloc: Global, scratch: &mut Scratch, bytes: &[u8]) -> Result<Json, ReadError>
        ensures ok { IfOk result (λ json. Reads bytes.now json) }
        ensures sound { IfOk result (λ json. IsSound json) }
        ensures ascending { IfOk result (λ json. IsAscending json) }
        ensures nested { IfOk result (λ json. depth json ≤ 127) }
        ensures complete { (json : JsonValue) → Reads bytes.now json
            → IsOkUnless result ReadError.OutOfMemory }
        ensures unreadable { IfErr result (λ e. e ≡ ReadError.Unreadable → (json : JsonValue)
            → Reads bytes.now json → ⊥) }
        ensures no_text { (IsUtf8 bytes.now → ⊥) → result ≡ Err ReadError.Unreadable }
    {
        read_bytes(alloc, scratch, bytes)
    }
}

fn read_bytes(alloc: Global, scratch: &mut Scratch, bytes: &[u8]) -> Result<Json, ReadError>
    ensures ok { IfOk result (λ json. Reads bytes.now json) }
    ensures unreadable { IfErr result (λ e. e ≡ ReadError.Unreadable → (json : JsonValue)
        → Reads bytes.now json → ⊥) }
    ensures no_text { (IsUtf8 bytes.now → ⊥) → result ≡ Err ReadError.Unreadable }
{
    let Ok(text) = str::from_utf8(bytes) else {
        return Err(ReadError::Unreadable);
    };
    match read_text(alloc, scratch, text) {
        Ok(json) => Ok(json),
        Err(OnePassError::Invalid) => Err(ReadError::Unreadable),
        Err(OnePassError::OutOfMemory) => Err(ReadError::OutOfMemory),
        Err(OnePassError::NotInOnePass) => read_through_value(alloc, bytes),
    }
}

// The value by way of one of `serde_json`, which takes any text.
fn read_through_value(alloc: Global, bytes: &[u8]) -> Result<Json, ReadError>
    ensures ok { IfOk result (λ json. Reads bytes.now json) }
    ensures unreadable { IfErr result (λ e. e ≡ ReadError.Unreadable → (json : JsonValue)
        → Reads bytes.now json → ⊥) }
{
    let value = match Value::from_slice(alloc, bytes) {
        Ok(value) => value,
        Err(error) => return Err(read_error(&error)),
    };
    match Json::from_value(alloc, value) {
        Ok(json) => Ok(json),
        Err(ValueError::HoldsFloat) => Err(ReadError::Unreadable),
        Err(ValueError::OutOfMemory) => Err(ReadError::OutOfMemory),
    }
}

fn read_error(error: &serde_json::Error) -> ReadError
    ensures unreadable { result ≡ ReadError.Unreadable → ¬ IsMemory error.now }
    ensures told { result ≡ ReadError.OutOfMemory → IsMemory error.now }
{
    if error.is_memory() {
        ReadError::OutOfMemory
    } else {
        ReadError::Unreadable
    }
}
