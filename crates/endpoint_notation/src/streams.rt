//! What calls on bodies that are read content by content give, as cases note it.
use body_reading::{StreamRefusal, StreamingBody};
use case_notation::{CaseError, Row, labelled, say, string_told};
use http_status::HttpError;
use schema_values::{Json, List};
use std::alloc::Global;
use std::str;

/// What each of so many calls gives: data, the end, or why there is none.
pub fn data_told(alloc: Global, stream: &mut StreamingBody, calls: u64) -> Result<Json, CaseError> {
    let mut answers = Row::new(alloc);
    for _ in 0..calls {
        answers.push(answer_told(alloc, stream.next_data(alloc)));
    }
    answers.done()
}

fn answer_told(
    alloc: Global,
    answer: Result<Option<List<u8>>, StreamRefusal>,
) -> Result<Json, CaseError> {
    match answer {
        Ok(Some(data)) => content_told(alloc, data.as_slice()),
        Ok(None) => say(alloc, "end"),
        Err(refusal) => refusal_told(alloc, &refusal),
    }
}

fn content_told(alloc: Global, content: &[u8]) -> Result<Json, CaseError> {
    labelled(alloc, "data", bytes_noted(alloc, content))
}

fn refusal_told(alloc: Global, refusal: &StreamRefusal) -> Result<Json, CaseError> {
    match refusal {
        StreamRefusal::Fault(error) => message_told(alloc, "fault", error),
        StreamRefusal::TooLarge(error) => message_told(alloc, "too_large", error),
        StreamRefusal::FrameBudget(error) => message_told(alloc, "frame_budget", error),
        StreamRefusal::Closed => say(alloc, "closed"),
        StreamRefusal::OutOfMemory => Err(CaseError::OutOfMemory),
    }
}

fn message_told(alloc: Global, name: &str, error: &HttpError) -> Result<Json, CaseError> {
    labelled(alloc, name, say(alloc, error.external_message.as_str()))
}

/// Bytes as a text, or by their digits where they are none.
pub fn bytes_noted(alloc: Global, bytes: &[u8]) -> Result<Json, CaseError> {
    match str::from_utf8(bytes) {
        Ok(text) => say(alloc, text),
        Err(_) => labelled(alloc, "hex", string_told(hex::encode(alloc, bytes))),
    }
}
