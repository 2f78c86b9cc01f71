//! The texts of faults. A kind is noted as a list: its name, and then its texts.
use case_notation::{CaseError, given_items, text_told};
use schema_values::{Json, Text};
use std::alloc::Global;
use typed_values::{DecodeError, Fault, FaultKind, Place, Stop};

/// The text of a fault of the kind of a case, below its places: names, and places of items, the
/// outermost first.
pub fn fault_text(alloc: Global, case: &Json) -> Result<Json, CaseError> {
    let kind = given_items(case, "kind")?;
    let places = given_items(case, "places")?;
    match below_all(alloc, stop_of(alloc, kind)?, places)?.into_error(alloc) {
        DecodeError::Fault(fault) => copy_told(alloc, &fault),
        DecodeError::OutOfMemory => Err(CaseError::OutOfMemory),
    }
}

fn copy_told(alloc: Global, fault: &Fault) -> Result<Json, CaseError> {
    text_told(fault.copy(alloc)?.text(alloc))
}

fn below_all(alloc: Global, mut stop: Stop, places: &[Json]) -> Result<Stop, CaseError> {
    for place in places.iter().rev() {
        stop = below(alloc, stop, place)?;
    }
    Ok(stop)
}

fn below(alloc: Global, stop: Stop, place: &Json) -> Result<Stop, CaseError> {
    match place {
        Json::Text(name) => Ok(stop.below_name(alloc, name)),
        Json::Int(item) => match usize::try_from(*item) {
            Ok(item) => Ok(stop.below(Place::Item(item))),
            Err(_) => Err(CaseError::Expected("the place of an item")),
        },
        _ => Err(CaseError::Expected("a name or the place of an item")),
    }
}

fn stop_of(alloc: Global, noted: &[Json]) -> Result<Stop, CaseError> {
    match noted {
        [Json::Text(name)] => Ok(Stop::refused(alloc, kind_of(name.as_str())?)),
        [Json::Text(name), Json::Text(text)] => stop_with(alloc, name.as_str(), text),
        [Json::Text(name), Json::Text(first), Json::Text(second)] => Ok(Stop::refused(
            alloc,
            kind_with(alloc, name.as_str(), first, second)?,
        )),
        _ => Err(CaseError::Expected("a kind of fault")),
    }
}

fn kind_of(name: &str) -> Result<FaultKind, CaseError> {
    match name {
        "wrong_kind" => Ok(FaultKind::WrongKind),
        "out_of_range" => Ok(FaultKind::OutOfRange),
        "bad_length" => Ok(FaultKind::BadLength),
        "not_listed" => Ok(FaultKind::NotListed),
        "no_alternative" => Ok(FaultKind::NoAlternative),
        "not_json" => Ok(FaultKind::NotJson),
        "header_bytes" => Ok(FaultKind::HeaderBytes),
        "bad_limit" => Ok(FaultKind::BadLimit),
        "token_too_large" => Ok(FaultKind::TokenTooLarge),
        "token_not_base64" => Ok(FaultKind::TokenNotBase64),
        "token_corrupted" => Ok(FaultKind::TokenCorrupted),
        "content_type_bytes" => Ok(FaultKind::ContentTypeBytes),
        _ => Err(CaseError::Expected("a kind of fault without texts")),
    }
}

fn stop_with(alloc: Global, name: &str, text: &Text) -> Result<Stop, CaseError> {
    match name {
        "missing" => Ok(Stop::missing(alloc, text)),
        "doubled" => Ok(Stop::doubled(alloc, text)),
        "unknown" => Ok(Stop::unknown(alloc, text)),
        "bad_u8" => Ok(Stop::bad_text(alloc, text, "u8")),
        "content_type_unsupported" => Ok(Stop::refused(
            alloc,
            FaultKind::ContentTypeUnsupported(text.copy(alloc)?),
        )),
        _ => Err(CaseError::Expected("a kind of fault with a text")),
    }
}

fn kind_with(
    alloc: Global,
    name: &str,
    first: &Text,
    second: &Text,
) -> Result<FaultKind, CaseError> {
    let (first, second) = (first.copy(alloc)?, second.copy(alloc)?);
    match name {
        "bad_text" => Ok(FaultKind::BadText(first, second)),
        "content_type_mismatch" => Ok(FaultKind::ContentTypeMismatch(first, second)),
        _ => Err(CaseError::Expected("a kind of fault with two texts")),
    }
}
