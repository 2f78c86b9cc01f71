//! The input and the output of runs. `"lines"` is the input, with a newline between each two lines; a line is a text,
//! or `{"hex":DIGITS}` where it is no UTF-8. `"failing_reads"` and `"failing_writes"` are the numbers, from 0, of the
//! calls that fail. What was written is told as lines too, `"document"` in place of those of the document, and what
//! stands behind the last newline as `{"cut":TEXT}`.
use crate::members::read_numbers;
use case_notation::{CaseError, Reader, Row, labelled, say};
use endpoint_notation::content_of;
use line_session::{MemorySink, MemorySource};
use schema_values::{Json, List};
use std::alloc::Global;
use std::str;

/// Reads the source of the lines of a case.
pub fn read_source(reader: &mut Reader, case: &Json) -> MemorySource {
    let failing = read_numbers(reader, case, "failing_reads");
    MemorySource::new(read_content(reader, case), failing)
}

/// Reads the sink of a case.
pub fn read_sink(reader: &mut Reader, case: &Json) -> MemorySink {
    let failing = read_numbers(reader, case, "failing_writes");
    MemorySink::new(reader.alloc(), failing)
}

fn read_content(reader: &mut Reader, case: &Json) -> List<u8> {
    let mut content = Vec::new(reader.alloc());
    if let Some(lines) = case.get("lines") {
        for (at, line) in reader.items(lines).iter().enumerate() {
            if at > 0 {
                add_bytes(reader, &mut content, b"\n");
            }
            add_line(reader, &mut content, line);
        }
    }
    List::from_vec(content)
}

fn add_line(reader: &mut Reader, content: &mut Vec<u8>, line: &Json) {
    let bytes = content_of(reader.alloc(), line);
    let bytes = reader.or(bytes, List::new(reader.alloc()));
    add_bytes(reader, content, bytes.as_slice());
}

fn add_bytes(reader: &mut Reader, content: &mut Vec<u8>, bytes: &[u8]) {
    reader.or(content.extend_from_slice(bytes), ())
}

/// What was written, before which the text of a document may stand.
pub fn written_told(alloc: Global, written: &[u8], document: &str) -> Result<Json, CaseError> {
    match str::from_utf8(written) {
        Ok(text) => lines_told(alloc, text, document),
        Err(_) => Err(CaseError::Expected("lines of text")),
    }
}

fn lines_told(alloc: Global, written: &str, document: &str) -> Result<Json, CaseError> {
    let mut told = Row::new(alloc);
    let mut lines = written;
    if let Some(behind) = written.strip_prefix(document) {
        if !document.is_empty() {
            told.push(say(alloc, "document"));
            lines = behind;
        }
    }
    for line in lines.split_inclusive('\n') {
        told.push(line_told(alloc, line));
    }
    told.done()
}

fn line_told(alloc: Global, line: &str) -> Result<Json, CaseError> {
    match line.strip_suffix('\n') {
        Some(line) => say(alloc, line),
        None => labelled(alloc, "cut", say(alloc, line)),
    }
}
