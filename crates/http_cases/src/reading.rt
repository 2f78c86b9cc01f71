//! Calls that read a body under a limit on its content and a budget of frames.
use crate::bodies::{body_at, content_told, count_at, frames_told};
use crate::lines::bytes_noted;
use body_reading::{BodyError, StreamRefusal, StreamingBody, gather_frames, read_whole};
use case_notation::{CaseError, Record, Row, given_number, labelled, say, text_of};
use http_status::{Body, HttpError};
use schema_values::{Json, List};
use std::alloc::Global;

/// What reading the body of a case whole gives, within the limit and the budget of the case.
pub fn whole_told(alloc: Global, case: &Json) -> Result<Json, CaseError> {
    let limit = count_at(case, "limit")?;
    let budget = count_at(case, "budget")?;
    let mut body = body_at(alloc, case)?;
    read_told(alloc, &mut body, limit, budget)
}

fn read_told(alloc: Global, body: &mut Body, limit: u32, budget: u32) -> Result<Json, CaseError> {
    match read_whole(alloc, body, u64::from(limit), u64::from(budget)) {
        Ok(content) => content_told(alloc, content.as_slice()),
        Err(error) => error_told(alloc, error),
    }
}

fn error_told(alloc: Global, error: BodyError) -> Result<Json, CaseError> {
    match error {
        BodyError::BodyFault => say(alloc, "fault"),
        BodyError::BodyTooLarge(sum) => Record::new(alloc).number("too large", sum.into()).done(),
        BodyError::FrameBudget(count) => Record::new(alloc).number("frames", count.into()).done(),
        BodyError::OutOfMemory => Err(CaseError::OutOfMemory),
    }
}

/// What each of so many calls of a body that is gathered of the body of a case gives.
pub fn gathered_told(alloc: Global, case: &Json) -> Result<Json, CaseError> {
    let calls = given_number(case, "calls")?;
    let budget = count_at(case, "budget")?;
    let mut source = body_at(alloc, case)?;
    gathered_from(alloc, &mut source, budget, calls)
}

fn gathered_from(
    alloc: Global,
    source: &mut Body,
    budget: u32,
    calls: i128,
) -> Result<Json, CaseError> {
    let mut body = gather_frames(alloc, source, u64::from(budget))?;
    frames_told(alloc, &mut body, calls)
}

/// What each of so many calls of a reader gives: of the bytes of a case, or of its body under the
/// limit and the budget of the case.
pub fn stream_told(alloc: Global, case: &Json) -> Result<Json, CaseError> {
    let calls = given_number(case, "calls")?;
    let mut stream = Box::new(alloc, stream_of(alloc, case)?)?;
    contents_told(alloc, &mut stream, calls)
}

fn contents_told(
    alloc: Global,
    stream: &mut StreamingBody,
    calls: i128,
) -> Result<Json, CaseError> {
    let mut answers = Row::new(alloc);
    for _ in 0..calls {
        answers.push(data_told(alloc, stream.next_data(alloc)));
    }
    answers.done()
}

fn stream_of(alloc: Global, case: &Json) -> Result<StreamingBody, CaseError> {
    if let Some(content) = case.get("bytes") {
        let content = List::from_bytes(alloc, text_of(content)?.as_bytes())?;
        return Ok(StreamingBody::from_bytes(content));
    }
    let cap = count_at(case, "limit")?;
    let budget = count_at(case, "budget")?;
    let body = body_at(alloc, case)?;
    Ok(StreamingBody::new(body, u64::from(cap), u64::from(budget)))
}

fn data_told(
    alloc: Global,
    answer: Result<Option<List<u8>>, StreamRefusal>,
) -> Result<Json, CaseError> {
    match answer {
        Ok(Some(bytes)) => bytes_noted(alloc, bytes.as_slice()),
        Ok(None) => say(alloc, "end"),
        Err(refusal) => refusal_told(alloc, &refusal),
    }
}

fn refusal_told(alloc: Global, refusal: &StreamRefusal) -> Result<Json, CaseError> {
    match refusal {
        StreamRefusal::Fault(error) => message_told(alloc, "fault", error),
        StreamRefusal::TooLarge(error) => message_told(alloc, "too large", error),
        StreamRefusal::FrameBudget(error) => message_told(alloc, "frames", error),
        StreamRefusal::Closed => say(alloc, "closed"),
        StreamRefusal::OutOfMemory => Err(CaseError::OutOfMemory),
    }
}

fn message_told(alloc: Global, kind: &str, error: &HttpError) -> Result<Json, CaseError> {
    labelled(alloc, kind, say(alloc, error.external_message.as_str()))
}
