//! Reads requests as cases note them: `"variables": {NAME: VALUE..}`, `"query": TEXT`,
//! `"headers": [[NAME, BYTES]..]` and `"body": BYTES`, of which each may be left out.
//!
//! BYTES is a text, which stands for its UTF-8, or the list of the bytes. VALUE is a text, or the
//! list of the components that are left of the path.
use case_notation::{CaseError, Reader, number_of, read_variable};
use openapi_values::{HeaderLine, WireRequest};
use schema_values::{Json, List, Text, VariableSet};
use std::alloc::Global;
use std::collections::BTreeMap;

/// The request that is noted.
pub fn request_of(alloc: Global, noted: &Json) -> Result<WireRequest, CaseError> {
    let mut reader = Reader::new(alloc);
    let request = WireRequest {
        query: read_query(&mut reader, noted),
        body: read_body(&mut reader, noted),
        headers: read_headers(&mut reader, noted),
        variables: read_variables(&mut reader, noted),
    };
    reader.finish(request)
}

fn read_query(reader: &mut Reader, noted: &Json) -> Text {
    match noted.get("query") {
        Some(query) => reader.text(query),
        None => Text::new(reader.alloc()),
    }
}

fn read_body(reader: &mut Reader, noted: &Json) -> List<u8> {
    match noted.get("body") {
        Some(body) => read_bytes(reader, body),
        None => List::new(reader.alloc()),
    }
}

/// The bytes that are noted under a name.
pub fn bytes_at(alloc: Global, case: &Json, name: &'static str) -> Result<List<u8>, CaseError> {
    match case.get(name) {
        Some(noted) => bytes_of(alloc, noted),
        None => Err(CaseError::Expected(name)),
    }
}

fn bytes_of(alloc: Global, noted: &Json) -> Result<List<u8>, CaseError> {
    let mut reader = Reader::new(alloc);
    let bytes = read_bytes(&mut reader, noted);
    reader.finish(bytes)
}

fn read_bytes(reader: &mut Reader, noted: &Json) -> List<u8> {
    let alloc = reader.alloc();
    match noted {
        Json::Text(text) => {
            reader.or(List::from_bytes(alloc, text.as_bytes()), List::new(alloc))
        }
        noted => read_listed_bytes(reader, noted),
    }
}

fn read_listed_bytes(reader: &mut Reader, noted: &Json) -> List<u8> {
    let mut bytes = List::new(reader.alloc());
    for item in reader.items(noted) {
        let byte = reader.or(byte_of(item), 0);
        reader.push(&mut bytes, byte);
    }
    bytes
}

fn byte_of(noted: &Json) -> Result<u8, CaseError> {
    match u8::try_from(number_of(noted)?) {
        Ok(byte) => Ok(byte),
        Err(_) => Err(CaseError::Expected("a byte")),
    }
}

fn read_headers(reader: &mut Reader, noted: &Json) -> List<HeaderLine> {
    let mut lines = List::new(reader.alloc());
    if let Some(headers) = noted.get("headers") {
        for line in reader.items(headers) {
            read_line(reader, line, &mut lines);
        }
    }
    lines
}

fn read_line(reader: &mut Reader, noted: &Json, lines: &mut List<HeaderLine>) {
    match reader.items(noted) {
        [Json::Text(name), value] => {
            let line = HeaderLine {
                name: reader.copy(name),
                value: read_bytes(reader, value),
            };
            reader.push(lines, line);
        }
        _ => reader.expected("a name and its bytes"),
    }
}

fn read_variables(reader: &mut Reader, noted: &Json) -> VariableSet {
    let mut variables = BTreeMap::new(reader.alloc());
    if let Some(noted) = noted.get("variables") {
        for member in reader.members(noted) {
            read_variable(reader, &member.name, &member.value, &mut variables);
        }
    }
    variables
}
