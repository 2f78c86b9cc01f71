//! Reads requests as cases note them: by the members of a request line of the tool, `"method"`,
//! `"template"`, `"request_id"`, `"uri"`, `"variables"`, `"headers"` and `"frames"`, each of which
//! may be left out. A frame is a text, `{"hex":DIGITS}` or `{"trailers":LINES}`; `"failing"` are
//! the numbers of the calls on the body that fail.
use crate::members::{items_at, read_text_or, str_or, u64_of};
use case_notation::{CaseError, Reader, check_names, given, given_text, items_of, read_variable};
use header_lists::HeaderList;
use hex::FromHexError;
use http::Method;
use http::method::MethodError;
use http_bodies::{Body, Frame, MemoryFrames, SafeFrames};
use http_header::{HeaderName, HeaderValue};
use http_status::{RequestId, RequestIdError};
use http_uri::Uri;
use request_parts::{RequestInfo, RequestParts};
use schema_values::{Json, List, Text, VariableSet};
use semver::Version;
use std::alloc::Global;
use std::collections::BTreeMap;

const MEMBERS: [&str; 8] = [
    "method",
    "template",
    "request_id",
    "uri",
    "variables",
    "headers",
    "frames",
    "failing",
];

/// The request of a case.
pub fn request_at(case: &Json) -> Result<&Json, CaseError> {
    let noted = given(case, "request")?;
    check_names(noted, &MEMBERS)?;
    Ok(noted)
}

/// The head of a request. Its version of the API stands in the case, 1.0.0 where it is left out.
pub fn parts_of(alloc: Global, case: &Json, noted: &Json) -> Result<RequestParts, CaseError> {
    let version = version_at(alloc, case)?;
    parts_with(alloc, noted, version, info_of(alloc, noted)?)
}

fn parts_with(
    alloc: Global,
    noted: &Json,
    version: Version,
    info: RequestInfo,
) -> Result<RequestParts, CaseError> {
    let mut reader = Reader::new(alloc);
    let parts = RequestParts {
        template: read_text_or(&mut reader, noted, "template", "/a"),
        request_id: read_text_or(&mut reader, noted, "request_id", "123"),
        version,
        variables: read_variables(&mut reader, noted),
        info,
    };
    reader.finish(parts)
}

/// What a request is without its body.
pub fn info_of(alloc: Global, noted: &Json) -> Result<RequestInfo, CaseError> {
    let headers = lines_of(alloc, items_at(noted, "headers")?)?;
    let method = method_at(alloc, noted, "GET")?;
    let uri = uri_at(alloc, noted)?;
    Ok(RequestInfo::new(
        method,
        uri,
        http::Version::HTTP_11,
        headers,
        Text::new(alloc),
    ))
}

/// The method under `method`, or another where it is left out.
pub fn method_at(alloc: Global, noted: &Json, other: &str) -> Result<Method, CaseError> {
    match Method::from_bytes(alloc, str_or(noted, "method", other)?.as_bytes()) {
        Ok(method) => Ok(method),
        Err(MethodError::Invalid) => Err(CaseError::Expected("a method")),
        Err(MethodError::OutOfMemory) => Err(CaseError::OutOfMemory),
    }
}

fn uri_at(alloc: Global, noted: &Json) -> Result<Uri, CaseError> {
    Uri::from_bytes(alloc, str_or(noted, "uri", "/")?.as_bytes())
        .ok()
        .ok_or(CaseError::Expected("the target of a request"))
}

/// The version of a case.
pub fn version_at(alloc: Global, case: &Json) -> Result<Version, CaseError> {
    version_of(alloc, str_or(case, "version", "1.0.0")?)
}

/// The version that is noted.
pub fn version_of(alloc: Global, noted: &str) -> Result<Version, CaseError> {
    Version::parse(alloc, noted)
        .ok()
        .ok_or(CaseError::Expected("a version"))
}

/// The id of a request.
pub fn request_id_of(alloc: Global, text: &str) -> Result<RequestId, CaseError> {
    match RequestId::new(alloc, text) {
        Ok(id) => Ok(id),
        Err(RequestIdError::BadRequestId) => Err(CaseError::Expected("the id of a request")),
        Err(RequestIdError::OutOfMemory) => Err(CaseError::OutOfMemory),
    }
}

/// The variables under `variables`, none where they are left out.
pub fn variables_at(alloc: Global, noted: &Json) -> Result<VariableSet, CaseError> {
    let mut reader = Reader::new(alloc);
    let variables = read_variables(&mut reader, noted);
    reader.finish(variables)
}

fn read_variables(reader: &mut Reader, noted: &Json) -> VariableSet {
    let mut variables = BTreeMap::new(reader.alloc());
    if let Some(noted) = noted.get("variables") {
        for member in reader.members(noted) {
            read_variable(reader, &member.name, &member.value, &mut variables);
        }
    }
    variables
}

/// The header lines that are noted, each a pair of a name and a text.
pub fn lines_of(alloc: Global, noted: &[Json]) -> Result<HeaderList, CaseError> {
    let mut lines = HeaderList::new(alloc);
    for line in noted {
        append(alloc, &mut lines, line)?;
    }
    Ok(lines)
}

fn append(alloc: Global, lines: &mut HeaderList, line: &Json) -> Result<(), CaseError> {
    let [Json::Text(name), Json::Text(value)] = items_of(line)? else {
        return Err(CaseError::Expected("a name and a value"));
    };
    let name = name_of(alloc, name)?;
    lines.append(name, value_of(alloc, value)?)?;
    Ok(())
}

fn name_of(alloc: Global, text: &Text) -> Result<HeaderName, CaseError> {
    HeaderName::from_bytes(alloc, text.as_bytes())
        .ok()
        .ok_or(CaseError::Expected("the name of a header"))
}

fn value_of(alloc: Global, text: &Text) -> Result<HeaderValue, CaseError> {
    HeaderValue::from_bytes(alloc, text.as_bytes())
        .ok()
        .ok_or(CaseError::Expected("the value of a header"))
}

/// The body that is noted by `frames` and `failing`.
pub fn body_of(alloc: Global, noted: &Json) -> Result<Body, CaseError> {
    let failing = failing_of(alloc, items_at(noted, "failing")?)?;
    let frames = frames_of(alloc, items_at(noted, "frames")?)?;
    if failing.is_empty() {
        Ok(Body::with_frames(SafeFrames::new(frames)))
    } else {
        Ok(Body::with_faults(MemoryFrames::new(frames, failing)))
    }
}

fn failing_of(alloc: Global, noted: &[Json]) -> Result<List<u64>, CaseError> {
    let mut reader = Reader::new(alloc);
    let mut calls = List::new(alloc);
    for call in noted {
        let call = reader.or(u64_of(call), 0);
        reader.push(&mut calls, call);
    }
    reader.finish(calls)
}

fn frames_of(alloc: Global, noted: &[Json]) -> Result<List<Frame>, CaseError> {
    let mut reader = Reader::new(alloc);
    let mut frames = List::new(alloc);
    for frame in noted {
        let frame = read_frame(&mut reader, frame);
        reader.push(&mut frames, frame);
    }
    reader.finish(frames)
}

fn read_frame(reader: &mut Reader, noted: &Json) -> Frame {
    let alloc = reader.alloc();
    match noted.get("trailers") {
        Some(lines) => {
            reader.check_names(noted, &["trailers"]);
            Frame::Trailers(reader.or(trailers_of(alloc, lines), HeaderList::new(alloc)))
        }
        None => Frame::Bytes(reader.or(content_of(alloc, noted), List::new(alloc))),
    }
}

fn trailers_of(alloc: Global, lines: &Json) -> Result<HeaderList, CaseError> {
    lines_of(alloc, items_of(lines)?)
}

/// A content: a text, or `{"hex":DIGITS}`.
pub fn content_of(alloc: Global, noted: &Json) -> Result<List<u8>, CaseError> {
    if let Json::Text(text) = noted {
        return Ok(List::from_bytes(alloc, text.as_bytes())?);
    }
    check_names(noted, &["hex"])?;
    bytes_of(alloc, given_text(noted, "hex")?)
}

fn bytes_of(alloc: Global, digits: &Text) -> Result<List<u8>, CaseError> {
    match hex::decode(alloc, digits.as_str()) {
        Ok(bytes) => Ok(List::from_bytes(alloc, bytes.as_slice())?),
        Err(FromHexError::OutOfMemory) => Err(CaseError::OutOfMemory),
        Err(_) => Err(CaseError::Expected("hexadecimal digits")),
    }
}
