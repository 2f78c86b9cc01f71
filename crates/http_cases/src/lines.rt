//! Header lines as cases note them: a list of pairs of a name and the text of a value.
use case_notation::{CaseError, Row, both, items_of, say};
use http_header::{HeaderName, HeaderValue};
use http_status::HeaderList;
use schema_values::{Json, Text};
use std::alloc::Global;
use std::str;

/// The lines that are noted, in order.
pub fn lines_of(alloc: Global, noted: &[Json]) -> Result<HeaderList, CaseError> {
    let mut lines = HeaderList::new(alloc);
    for line in noted {
        append(alloc, &mut lines, line)?;
    }
    Ok(lines)
}

fn append(alloc: Global, lines: &mut HeaderList, line: &Json) -> Result<(), CaseError> {
    let [Json::Text(name), Json::Text(value)] = items_of(line)? else {
        return Err(CaseError::Expected("a name and a value"));
    };
    let name = name_of(alloc, name)?;
    lines.append(name, value_of(alloc, value)?)?;
    Ok(())
}

/// The name of a line.
pub fn name_of(alloc: Global, text: &Text) -> Result<HeaderName, CaseError> {
    HeaderName::from_bytes(alloc, text.as_bytes())
        .ok()
        .ok_or(CaseError::Expected("the name of a header"))
}

/// The value of a line.
pub fn value_of(alloc: Global, text: &Text) -> Result<HeaderValue, CaseError> {
    HeaderValue::from_bytes(alloc, text.as_bytes())
        .ok()
        .ok_or(CaseError::Expected("the value of a header"))
}

/// How lines are noted.
pub fn lines_noted(alloc: Global, lines: &HeaderList) -> Result<Json, CaseError> {
    let mut noted = Row::new(alloc);
    for (name, value) in lines.lines() {
        let name = say(alloc, name.as_str());
        noted.push(both(alloc, name, bytes_noted(alloc, value.as_bytes())));
    }
    noted.done()
}

/// The text of bytes.
pub fn bytes_noted(alloc: Global, bytes: &[u8]) -> Result<Json, CaseError> {
    match str::from_utf8(bytes) {
        Ok(text) => say(alloc, text),
        Err(_) => Err(CaseError::Expected("bytes of a text")),
    }
}
