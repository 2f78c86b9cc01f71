//! Responses as cases tell them: as a reply line of the tool does.
use body_reading::{BodyError, read_whole};
use case_notation::{CaseError, Record, Row, both, say};
use endpoint_notation::bytes_noted;
use http_status::{Body, HeaderList, Response};
use schema_values::Json;
use std::alloc::Global;

/// What is told, with the response behind it.
pub fn with_response(alloc: Global, told: Record, mut response: Response) -> Record {
    told.number("status", response.status.as_u16().into())
        .put("headers", lines_told(alloc, &response.headers))
        .put("body", content_told(alloc, &mut response.body))
}

fn lines_told(alloc: Global, lines: &HeaderList) -> Result<Json, CaseError> {
    let mut told = Row::new(alloc);
    for (name, value) in lines.lines() {
        let name = say(alloc, name.as_str());
        told.push(both(alloc, name, bytes_noted(alloc, value.as_bytes())));
    }
    told.done()
}

fn content_told(alloc: Global, body: &mut Body) -> Result<Json, CaseError> {
    match read_whole(alloc, body, 65_536, 1_000) {
        Ok(content) => bytes_noted(alloc, content.as_slice()),
        Err(BodyError::OutOfMemory) => Err(CaseError::OutOfMemory),
        Err(_) => Err(CaseError::Expected("the body of a response")),
    }
}
