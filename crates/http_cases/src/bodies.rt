//! Calls on bodies. A body is `"empty"`, `{"content": TEXT}`, or `{"frames": [F..]}`, with
//! `"failing"`, the numbers of the calls that fail, where some do. A frame is a text, or
//! `{"trailers": LINES}`.
use crate::lines::{bytes_noted, lines_noted, lines_of};
use case_notation::{
    CaseError, Reader, Row, count_of, given, given_items, given_number, labelled, number_of, say,
};
use http_status::{
    Body, DumpError, Frame, FrameError, HeaderList, MemoryFrames, SafeFrames, http_dump_body,
};
use schema_values::{Json, List, Text};
use std::alloc::Global;

/// What each of so many calls of the body of a case gives.
pub fn body_told(alloc: Global, case: &Json) -> Result<Json, CaseError> {
    let calls = given_number(case, "calls")?;
    let mut body = body_at(alloc, case)?;
    frames_told(alloc, &mut body, calls)
}

/// What each of so many calls of a body gives.
pub fn frames_told(alloc: Global, body: &mut Body, calls: i128) -> Result<Json, CaseError> {
    let mut answers = Row::new(alloc);
    for _ in 0..calls {
        answers.push(frame_told(alloc, body.next_frame(alloc)));
    }
    answers.done()
}

/// What dropping the body of a case within the budget of the case tells.
pub fn dump_told(alloc: Global, case: &Json) -> Result<Json, CaseError> {
    let budget = count_at(case, "budget")?;
    let mut body = body_at(alloc, case)?;
    dropped_told(alloc, &mut body, budget)
}

fn dropped_told(alloc: Global, body: &mut Body, budget: u32) -> Result<Json, CaseError> {
    match http_dump_body(alloc, body, u64::from(budget)) {
        Ok(count) => Ok(Json::Int(count.into())),
        Err(DumpError::Failed) => say(alloc, "failed"),
        Err(DumpError::FrameBudget) => say(alloc, "frame budget"),
        Err(DumpError::OutOfMemory) => Err(CaseError::OutOfMemory),
    }
}

/// The count of 32 bits under a name.
pub fn count_at(case: &Json, name: &'static str) -> Result<u32, CaseError> {
    count_of(given(case, name)?)
}

// What a call for the next frame gives.
fn frame_told(alloc: Global, answer: Result<Option<Frame>, FrameError>) -> Result<Json, CaseError> {
    match answer {
        Ok(Some(frame)) => frame_noted(alloc, &frame),
        Ok(None) => say(alloc, "end"),
        Err(FrameError::Failed) => say(alloc, "failed"),
        Err(FrameError::OutOfMemory) => Err(CaseError::OutOfMemory),
    }
}

fn frame_noted(alloc: Global, frame: &Frame) -> Result<Json, CaseError> {
    match frame {
        Frame::Bytes(bytes) => content_told(alloc, bytes.as_slice()),
        Frame::Trailers(lines) => labelled(alloc, "trailers", lines_noted(alloc, lines)),
    }
}

/// The text of content.
pub fn content_told(alloc: Global, content: &[u8]) -> Result<Json, CaseError> {
    labelled(alloc, "bytes", bytes_noted(alloc, content))
}

/// The body of a case.
pub fn body_at(alloc: Global, case: &Json) -> Result<Body, CaseError> {
    let noted = given(case, "body")?;
    let mut reader = Reader::new(alloc);
    let body = read_body(&mut reader, noted);
    reader.finish(body)
}

fn read_body(reader: &mut Reader, noted: &Json) -> Body {
    match noted {
        Json::Text(word) if word.equals_str("empty") => return Body::empty(),
        noted => reader.check_names(noted, &["content", "frames", "failing"]),
    }
    match noted.get("content") {
        Some(content) => {
            let content = reader.text(content);
            Body::with_content(read_bytes(reader, &content))
        }
        None => read_frames_body(reader, noted),
    }
}

fn read_frames_body(reader: &mut Reader, noted: &Json) -> Body {
    let frames = read_frames(reader, noted);
    match noted.get("failing") {
        Some(calls) => Body::with_faults(MemoryFrames::new(frames, read_calls(reader, calls))),
        None => Body::with_frames(SafeFrames::new(frames)),
    }
}

fn read_frames(reader: &mut Reader, noted: &Json) -> List<Frame> {
    let mut frames = List::new(reader.alloc());
    match noted.get("frames") {
        Some(noted) => add_frames(reader, noted, &mut frames),
        None => reader.expected("frames"),
    }
    frames
}

fn add_frames(reader: &mut Reader, noted: &Json, frames: &mut List<Frame>) {
    for frame in reader.items(noted) {
        let frame = read_frame(reader, frame);
        reader.push(frames, frame);
    }
}

fn read_frame(reader: &mut Reader, noted: &Json) -> Frame {
    match noted {
        Json::Text(text) => Frame::Bytes(read_bytes(reader, text)),
        _ => Frame::Trailers(read_trailers(reader, noted)),
    }
}

fn read_bytes(reader: &mut Reader, text: &Text) -> List<u8> {
    let alloc = reader.alloc();
    reader.or(List::from_bytes(alloc, text.as_bytes()), List::new(alloc))
}

fn read_trailers(reader: &mut Reader, noted: &Json) -> HeaderList {
    let alloc = reader.alloc();
    reader.or(trailers_of(alloc, noted), HeaderList::new(alloc))
}

fn trailers_of(alloc: Global, noted: &Json) -> Result<HeaderList, CaseError> {
    lines_of(alloc, given_items(noted, "trailers")?)
}

fn read_calls(reader: &mut Reader, noted: &Json) -> List<u64> {
    let mut calls = List::new(reader.alloc());
    for call in reader.items(noted) {
        let call = reader.or(call_of(call), 0);
        reader.push(&mut calls, call);
    }
    calls
}

fn call_of(noted: &Json) -> Result<u64, CaseError> {
    u64::try_from(number_of(noted)?)
        .ok()
        .ok_or(CaseError::Expected("the number of a call"))
}
