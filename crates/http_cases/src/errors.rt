//! Calls on errors, their responses, and the ids of requests.
use crate::lines::{bytes_noted, lines_noted};
use body_reading::{BodyError, read_whole};
use case_notation::{
    CaseError, Record, Row, given_items, given_text, items_of, labelled, maybe_text, say,
    string_told, text_or_null,
};
use http_status::{
    Body, CONTENT_TYPE_JSON, CONTENT_TYPE_MULTIPART_FORM_DATA, CONTENT_TYPE_NDJSON,
    CONTENT_TYPE_OCTET_STREAM, CONTENT_TYPE_URL_ENCODED, ClientErrorStatusCode, HEADER_REQUEST_ID,
    HeaderError, HeaderList, HttpError, RequestId, RequestIdError, Response,
};
use schema_values::{Json, Text};
use std::alloc::Global;

/// An error that is made as the case says, its text and its response to the request of an id.
pub fn error_told(alloc: Global, case: &Json) -> Result<Json, CaseError> {
    let steps = given_items(case, "steps")?;
    let noted = given_items(case, "made")?;
    let id = request_id_of(alloc, given_text(case, "id")?)?;
    let mut error = Box::new(alloc, made(alloc, noted)?)?;
    changed_told(alloc, &mut error, steps, &id)
}

// What is told of an error after some steps: what the first that is refused is refused as, if one is.
fn changed_told(
    alloc: Global,
    error: &mut HttpError,
    steps: &[Json],
    id: &RequestId,
) -> Result<Json, CaseError> {
    for step in steps {
        if let Some(refusal) = refusal_of(alloc, error, items_of(step)?)? {
            return say(alloc, refusal);
        }
    }
    whole_told(alloc, error, id)
}

fn whole_told(alloc: Global, error: &HttpError, id: &RequestId) -> Result<Json, CaseError> {
    Record::new(alloc)
        .put("error", error_noted(alloc, error))
        .put("text", string_told(error.to_string(alloc)))
        .put("response", response_told(alloc, error, id))
        .done()
}

fn made(alloc: Global, noted: &[Json]) -> Result<HttpError, CaseError> {
    match noted {
        [Json::Text(kind), code, Json::Text(message)] => {
            let code = maybe_text(alloc, Some(code))?;
            made_with(alloc, kind.as_str(), code, message.copy(alloc)?)
        }
        [
            Json::Text(kind),
            code,
            Json::Int(status),
            Json::Text(message),
        ] if kind.equals_str("client") => { client_error(alloc, code, *status, message) }
        [Json::Text(kind), code, Json::Int(status)] if kind.equals_str("client_with_status") => {
            client_error_with_status(alloc, code, *status)
        }
        _ => Err(CaseError::Expected("how an error is made")),
    }
}

fn client_error(
    alloc: Global,
    code: &Json,
    status: i128,
    message: &Text,
) -> Result<HttpError, CaseError> {
    let code = maybe_text(alloc, Some(code))?;
    match client_status(status) {
        Some(status) => Ok(HttpError::for_client_error(alloc, code, status, message.copy(alloc)?)?),
        None => Err(CaseError::Expected("a status from 400 to 499")),
    }
}

fn client_error_with_status(
    alloc: Global,
    code: &Json,
    status: i128,
) -> Result<HttpError, CaseError> {
    let code = maybe_text(alloc, Some(code))?;
    match client_status(status) {
        Some(status) => Ok(HttpError::for_client_error_with_status(alloc, code, status)?),
        None => Err(CaseError::Expected("a status from 400 to 499")),
    }
}

fn made_with(
    alloc: Global,
    kind: &str,
    code: Option<Text>,
    message: Text,
) -> Result<HttpError, CaseError> {
    let made = match kind {
        "not_found" => HttpError::for_not_found(alloc, code, message),
        "bad_request" => HttpError::for_bad_request(alloc, code, message),
        "internal" => HttpError::for_internal_error(alloc, message),
        "unavail" => HttpError::for_unavail(alloc, code, message),
        _ => return Err(CaseError::Expected("a kind of error")),
    };
    Ok(made?)
}

fn client_status(number: i128) -> Option<ClientErrorStatusCode> {
    let number = u16::try_from(number).ok()?;
    ClientErrorStatusCode::from_u16(number).ok()
}

// Changes an error by one step, or tells what the step is refused as.
fn refusal_of(
    alloc: Global,
    error: &mut HttpError,
    step: &[Json],
) -> Result<Option<&'static str>, CaseError> {
    match step {
        [Json::Text(step)] if step.equals_str("headers_mut") => {
            error.headers_mut(alloc);
            Ok(None)
        }
        [Json::Text(step), Json::Text(name), Json::Text(value)] => {
            add(alloc, error, step.as_str(), name, value)
        }
        _ => Err(CaseError::Expected("a step that changes an error")),
    }
}

fn add(
    alloc: Global,
    error: &mut HttpError,
    step: &str,
    name: &Text,
    value: &Text,
) -> Result<Option<&'static str>, CaseError> {
    match step {
        "add_header" => match error.add_header(alloc, name.as_str(), value.as_bytes()) {
            Ok(_) => Ok(None),
            Err(refusal) => refused(refusal),
        },
        "with_header" => put_copy(alloc, error, name, value),
        _ => Err(CaseError::Expected("a step that changes an error")),
    }
}

// Puts a copy of the error that has one line more in its place.
fn put_copy(
    alloc: Global,
    error: &mut HttpError,
    name: &Text,
    value: &Text,
) -> Result<Option<&'static str>, CaseError> {
    let copy = error.copy(alloc)?;
    match copy.with_header(alloc, name.as_str(), value.as_bytes()) {
        Ok(changed) => {
            *error = changed;
            Ok(None)
        }
        Err(refusal) => refused(refusal),
    }
}

fn refused(refusal: HeaderError) -> Result<Option<&'static str>, CaseError> {
    match refusal {
        HeaderError::BadName => Ok(Some("bad header name")),
        HeaderError::BadValue => Ok(Some("bad header value")),
        HeaderError::OutOfMemory => Err(CaseError::OutOfMemory),
    }
}

/// How an error is noted: its parts.
pub fn error_noted(alloc: Global, error: &HttpError) -> Result<Json, CaseError> {
    Record::new(alloc)
        .number("status", error.status_code.as_u16().into())
        .put("code", text_or_null(alloc, &error.error_code))
        .text("external", error.external_message.as_str())
        .text("internal", error.internal_message.as_str())
        .put("headers", own_lines(alloc, &error.headers))
        .done()
}

fn own_lines(alloc: Global, lines: &Option<HeaderList>) -> Result<Json, CaseError> {
    match lines {
        Some(lines) => lines_noted(alloc, lines),
        None => Ok(Json::Null),
    }
}

// The response of a copy of an error to the request of an id.
fn response_told(alloc: Global, error: &HttpError, id: &RequestId) -> Result<Json, CaseError> {
    let response = error.copy(alloc)?.into_response(alloc, id)?;
    let mut response = Box::new(alloc, response)?;
    response_noted(alloc, &mut response)
}

fn response_noted(alloc: Global, response: &mut Response) -> Result<Json, CaseError> {
    Record::new(alloc)
        .number("status", response.status.as_u16().into())
        .put("headers", lines_noted(alloc, &response.headers))
        .put("body", only_frame(alloc, &mut response.body))
        .done()
}

// The text of a body of one frame.
fn only_frame(alloc: Global, body: &mut Body) -> Result<Json, CaseError> {
    match read_whole(alloc, body, 65_536, 1) {
        Ok(content) => bytes_noted(alloc, content.as_slice()),
        Err(BodyError::OutOfMemory) => Err(CaseError::OutOfMemory),
        Err(_) => Err(CaseError::Expected("a body of one frame")),
    }
}

fn request_id_of(alloc: Global, text: &Text) -> Result<RequestId, CaseError> {
    match RequestId::new(alloc, text.as_str()) {
        Ok(id) => Ok(id),
        Err(RequestIdError::BadRequestId) => Err(CaseError::Expected("the id of a request")),
        Err(RequestIdError::OutOfMemory) => Err(CaseError::OutOfMemory),
    }
}

/// The text of the id of a case, or that it is none.
pub fn request_id_told(alloc: Global, case: &Json) -> Result<Json, CaseError> {
    let text = given_text(case, "id")?;
    match RequestId::new(alloc, text.as_str()) {
        Ok(id) => labelled(alloc, "id", say(alloc, id.text())),
        Err(RequestIdError::BadRequestId) => say(alloc, "bad request id"),
        Err(RequestIdError::OutOfMemory) => Err(CaseError::OutOfMemory),
    }
}

const CONSTANTS: [&str; 6] = [
    HEADER_REQUEST_ID,
    CONTENT_TYPE_OCTET_STREAM,
    CONTENT_TYPE_JSON,
    CONTENT_TYPE_NDJSON,
    CONTENT_TYPE_URL_ENCODED,
    CONTENT_TYPE_MULTIPART_FORM_DATA,
];

/// The name of the header that holds the id of a request, and the media types of bodies.
pub fn constants_told(alloc: Global) -> Result<Json, CaseError> {
    let mut told = Row::new(alloc);
    for &text in &CONSTANTS {
        told.push(say(alloc, text));
    }
    told.done()
}
