//! The value of a case.
use case_notation::{CaseError, given, made_of, text_of};
use schema_values::{Json, ReadError};
use std::alloc::Global;

/// The value of a case: read from the characters of `text`, or made as `made` says, or else as it
/// stands under `json`. There is none where a text is no JSON.
pub fn value_of(alloc: Global, case: &Json) -> Result<Option<Json>, CaseError> {
    if let Some(text) = case.get("text") {
        return read(alloc, text_of(text)?.as_bytes());
    }
    match case.get("made") {
        Some(made) => Ok(Some(made_of(alloc, made)?)),
        None => Ok(Some(given(case, "json")?.copy(alloc)?)),
    }
}

/// The value that bytes are read as.
pub fn read(alloc: Global, bytes: &[u8]) -> Result<Option<Json>, CaseError> {
    match Json::read(alloc, bytes) {
        Ok(json) => Ok(Some(json)),
        Err(ReadError::Unreadable) => Ok(None),
        Err(error) => Err(CaseError::from(error)),
    }
}
