ghost use Rattle.std.specs.Prelude.{◌≡◌, ◌≢◌, ◌≤◌, length, IsOk, Ok};
ghost use Rattle.std.specs.declared.result.Result.TheVariants.{Err};
ghost use Rattle.schema_values.specs.declared.json_value.Json.{out-Json};
ghost use Rattle.typed_values.specs.Answer.{Tells};
ghost use Rattle.typed_values.specs.Denotes.{nought, truth, character, number, words, one_of_names};

use crate::bounds::{character_count, is_length_within, is_number_of};
use crate::fault::{FaultKind, Stop};
use crate::order::find_named;
use crate::wrapped::variant;
use descriptors::{IntKind, Named, Tree};
use schema_values::Json;
use std::alloc::Global;

pub(crate) fn decode_any(alloc: Global, json: &Json) -> Result<Tree, Stop>
    ensures { Tells result (Ok (Tree.Any json.now)) }
{
    Ok(Tree::Any(json.copy(alloc)?))
}

pub(crate) fn decode_null(alloc: Global, json: &Json) -> Result<Tree, Stop>
    ensures told { Tells result (nought (out-Json json.now)) }
    ensures memory { result ≢ Err Stop.OutOfMemory }
{
    match json {
        Json::Null => Ok(Tree::Unit),
        _ => Err(Stop::refused(alloc, FaultKind::WrongKind)),
    }
}

pub(crate) fn decode_char(alloc: Global, json: &Json) -> Result<Tree, Stop>
    ensures told { Tells result (character (out-Json json.now)) }
    ensures memory { result ≡ Err Stop.OutOfMemory → IsOk (character (out-Json json.now)) }
{
    match json {
        Json::Text(text) if character_count(text) == 1 => Ok(Tree::Text(text.copy(alloc)?)),
        Json::Text(_) => Err(Stop::refused(alloc, FaultKind::BadLength)),
        _ => Err(Stop::refused(alloc, FaultKind::WrongKind)),
    }
}

pub(crate) fn decode_name(alloc: Global, names: &[Named], json: &Json) -> Result<Tree, Stop>
    requires few { length names.now ≤ 4294967296 }
    ensures told { Tells result (one_of_names names.now (out-Json json.now)) }
    ensures memory { result ≡ Err Stop.OutOfMemory → IsOk (one_of_names names.now (out-Json json.now)) }
{
    match json {
        Json::Text(text) => match find_named(names, text) {
            Some((place, _)) => variant(alloc, place, Tree::Unit),
            None => Err(Stop::refused(alloc, FaultKind::NotListed)),
        },
        _ => Err(Stop::refused(alloc, FaultKind::WrongKind)),
    }
}

pub(crate) fn decode_bool(alloc: Global, json: &Json) -> Result<Tree, Stop>
    ensures told { Tells result (truth (out-Json json.now)) }
    ensures memory { result ≢ Err Stop.OutOfMemory }
{
    match json {
        Json::Bool(truth) => Ok(Tree::Bool(*truth)),
        _ => Err(Stop::refused(alloc, FaultKind::WrongKind)),
    }
}

pub(crate) fn decode_int(
    alloc: Global,
    kind: IntKind,
    min: Option<i128>,
    max: Option<i128>,
    json: &Json,
) -> Result<Tree, Stop>
    ensures told { Tells result (number kind min max (out-Json json.now)) }
    ensures memory { result ≢ Err Stop.OutOfMemory }
{
    match json {
        Json::Int(number) if is_number_of(kind, min, max, *number) => Ok(Tree::Int(*number)),
        Json::Int(_) => Err(Stop::refused(alloc, FaultKind::OutOfRange)),
        _ => Err(Stop::refused(alloc, FaultKind::WrongKind)),
    }
}

pub(crate) fn decode_text(
    alloc: Global,
    min: Option<u32>,
    max: Option<u32>,
    json: &Json,
) -> Result<Tree, Stop>
    ensures told { Tells result (words min max (out-Json json.now)) }
    ensures memory { result ≡ Err Stop.OutOfMemory → IsOk (words min max (out-Json json.now)) }
{
    match json {
        Json::Text(text) if is_length_within(min, max, character_count(text)) => {
            Ok(Tree::Text(text.copy(alloc)?))
        }
        Json::Text(_) => Err(Stop::refused(alloc, FaultKind::BadLength)),
        _ => Err(Stop::refused(alloc, FaultKind::WrongKind)),
    }
}
