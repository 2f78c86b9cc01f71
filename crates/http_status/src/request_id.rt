//! Ids of requests.
ghost use Rattle.std.specs.Prelude.{◌≡◌, ◌↔◌, IfOk, IsErrOf, IsTrue};
ghost use Rattle.std.specs.Str.{chars, encode_utf8_all};
ghost use Rattle.http_header.specs.FieldValue.{IsFieldValue, plain_value};
ghost use Rattle.http_header.specs.Token.{is_value_byte};

use http_header::{HeaderValue, HeaderValueError};
use schema_values::Text;
use std::alloc::{AllocError, Global};
use std::fmt;
use std::marker::Model;
use thiserror::Error;

/// The id of a request: a text that a header field may hold. Contracts see its characters.
#[derive(Debug, Drop)]
pub struct RequestId {
    text: Text,
}

impl Model for RequestId {
    ghost use Rattle.std.specs.Prelude.{ℕ, List};
    ghost use Rattle.std.specs.Str.{encode_utf8_all};
    ghost use Rattle.http_header.specs.FieldValue.{IsFieldValue};

    ghost Value = { List ℕ };

    ghost view = { λ id. id.text };

    ghost invariant = { λ id. IsFieldValue (encode_utf8_all id.text) };
}

/// Why a text is no request id.
#[derive(Clone, Copy, Debug, PartialEq, Eq, Error)]
pub enum RequestIdError {
    /// A byte of it is neither a tab nor at least 0x20 and not 0x7F (RFC 9110, section 5.5).
    BadRequestId,
    /// There was not enough memory.
    OutOfMemory,
}

/// Writes what is wrong with the id.
impl fmt::Display for RequestIdError {
    ghost use Rattle.std.specs.Prelude.{Some};
    ghost use Rattle.http_status.specs.Texts.{request_id_error_text};

    ghost output = { λ error. Some (request_id_error_text error) };

    fn fmt<W: fmt::Write>(&self, f: &mut fmt::Formatter<W>) -> fmt::Result {
        f.write_str(match self {
            RequestIdError::BadRequestId => "invalid request id",
            RequestIdError::OutOfMemory => "out of memory",
        })
    }
}

impl From<AllocError> for RequestIdError {
    ghost use Rattle.std.specs.Prelude.{◌≡◌};
    ghost use Rattle.http_status.specs.declared.request_id.RequestIdError.TheVariants.{OutOfMemory};

    ghost from_gives = { λ _ error. error ≡ OutOfMemory };

    fn from(_: AllocError) -> RequestIdError {
        RequestIdError::OutOfMemory
    }
}

impl RequestId {
    /// The id of a text. `BadRequestId` exactly where a header field may not hold the text, and before
    /// memory is asked for.
    pub fn new(alloc: Global, text: &str) -> Result<RequestId, RequestIdError>
        ensures ok { IfOk result (λ id. id ≡ chars text.now) }
        ensures valid { ¬ IsErrOf result RequestIdError.BadRequestId → IsFieldValue text.now }
        ensures bad { IsErrOf result RequestIdError.BadRequestId ↔ ¬ (IsFieldValue text.now) }
    {
        if !is_field_value(text.as_bytes()) {
            return Err(RequestIdError::BadRequestId);
        }
        let text = Text::from_str(alloc, text)?;
        Ok(RequestId { text })
    }

    /// The text that it was made of.
    pub fn text(&self) -> &str
        ensures text { result.now ≡ encode_utf8_all self.now }
        ensures characters { self.now ≡ chars result.now }
    {
        self.text.as_str()
    }

    /// The id as the value of a header field. Fails only for want of memory.
    pub fn to_value(&self, alloc: Global) -> Result<HeaderValue, AllocError>
        ensures { IfOk result (λ value. value ≡ plain_value (encode_utf8_all self.now)) }
    {
        match HeaderValue::from_str(alloc, self.text.as_str()) {
            Ok(value) => Ok(value),
            // The text of an id is the value of a header field.
            Err(HeaderValueError::Invalid) => unreachable!(),
            Err(HeaderValueError::OutOfMemory) => Err(AllocError),
        }
    }

    /// An id equal to this one. Fails only for want of memory.
    pub fn copy(&self, alloc: Global) -> Result<RequestId, AllocError>
        ensures { IfOk result (λ copy. copy ≡ self.now) }
    {
        Ok(RequestId {
            text: self.text.copy(alloc)?,
        })
    }
}

// Whether the value of a header field may hold some bytes (RFC 9110, section 5.5).
fn is_field_value(bytes: &[u8]) -> bool
    ensures { IsTrue result ↔ IsFieldValue bytes.now }
{
    for byte in bytes {
        if !is_value_byte(*byte) {
            return false;
        }
    }
    true
}

fn is_value_byte(byte: u8) -> bool
    ensures { result ≡ is_value_byte byte }
{
    byte == b'\t' || (byte >= 0x20 && byte != 0x7f)
}
