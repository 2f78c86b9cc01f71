//! Contents of bodies, whole.
use body_reading::{BodyError, read_whole};
use case_notation::CaseError;
use endpoint_notation::{bytes_noted, content_of};
use http_bodies::Body;
use schema_values::{Json, List};
use std::alloc::Global;

/// The content of a case, an empty one where it is left out.
pub fn content_at(alloc: Global, case: &Json) -> Result<List<u8>, CaseError> {
    match case.get("content") {
        Some(content) => content_of(alloc, content),
        None => Ok(List::new(alloc)),
    }
}

/// What all frames of a body hold together.
pub fn content_told(alloc: Global, body: &mut Body) -> Result<Json, CaseError> {
    match read_whole(alloc, body, 65_536, 1_000) {
        Ok(content) => bytes_noted(alloc, content.as_slice()),
        Err(BodyError::OutOfMemory) => Err(CaseError::OutOfMemory),
        Err(_) => Err(CaseError::Expected("the body of a response")),
    }
}
