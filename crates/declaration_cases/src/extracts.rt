//! What requests denote as arguments of slots.
use api_extract::{ExtractError, extract};
use case_notation::{CaseError, Record};
use endpoint_notation::{
    are_served, args_told, body_of, error_told, parts_of, reading_of, request_at, slots_at,
    table_at,
};
use handler_shapes::ArgList;
use http_bodies::{Body, FrameError};
use request_parts::RequestParts;
use schema_values::{Json, Scratch};
use std::alloc::{AllocError, Global};

/// What comes of the request of a case for its slots, and how many frames its body then has left.
pub fn extracted(alloc: Global, case: &Json) -> Result<Json, CaseError> {
    let noted = request_at(case)?;
    let mut body = body_of(alloc, noted)?;
    extracted_from(alloc, case, noted, &mut body)
}

fn extracted_from(
    alloc: Global,
    case: &Json,
    noted: &Json,
    body: &mut Body,
) -> Result<Json, CaseError> {
    let told = outcome_of(alloc, case, noted, body)?;
    let left = frames_left(alloc, body)?;
    told.number("left", left.into()).done()
}

fn outcome_of(
    alloc: Global,
    case: &Json,
    noted: &Json,
    body: &mut Body,
) -> Result<Record, CaseError> {
    let request = Box::new(alloc, parts_of(alloc, case, noted)?)?;
    served(alloc, case, &request, body)
}

fn served(
    alloc: Global,
    case: &Json,
    request: &RequestParts,
    body: &mut Body,
) -> Result<Record, CaseError> {
    let reading = reading_of(alloc, case)?;
    let table = table_at(alloc, case)?;
    let slots = slots_at(alloc, case)?;
    if !are_served(&table, slots.as_slice()) {
        return Err(CaseError::Expected("slots that can be served"));
    }
    let outcome = extract(
        alloc,
        &mut Scratch::new(alloc),
        &slots,
        &table,
        request,
        reading.kind,
        body,
        reading.limit,
        reading.budget,
    );
    outcome_told(alloc, outcome, reading.calls)
}

fn outcome_told(
    alloc: Global,
    outcome: Result<ArgList, ExtractError>,
    calls: u64,
) -> Result<Record, CaseError> {
    match outcome {
        Ok(args) => Ok(
            Record::new(alloc)
                .text("outcome", "denoted")
                .put("args", args_told(alloc, args, calls)),
        ),
        Err(error) => error_told(alloc, &error),
    }
}

// How many frames a body gives, of at most a hundred calls.
fn frames_left(alloc: Global, body: &mut Body) -> Result<u32, AllocError> {
    let mut left = 0_u32;
    for _ in 0..100 {
        match body.next_frame(alloc) {
            Ok(Some(_)) => left = left.saturating_add(1),
            Ok(None) => break,
            Err(FrameError::Failed) => {}
            Err(FrameError::OutOfMemory) => return Err(AllocError),
        }
    }
    Ok(left)
}
