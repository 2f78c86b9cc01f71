//! Calls on values, and how answers are printed over lines.
use crate::case::{read, value_of};
use case_notation::{CaseError, Reader, Row, items_of, number_of, say};
use schema_values::{Json, List, Text};
use std::alloc::Global;

/// The value of a case.
pub fn value(alloc: Global, case: &Json) -> Result<Json, CaseError> {
    value_of(alloc, case)?.ok_or(CaseError::Expected("JSON"))
}

/// What the pretty text of the value of a case is read as.
pub fn printed_and_read(alloc: Global, case: &Json) -> Result<Json, CaseError> {
    let text = value(alloc, case)?.pretty(alloc)?;
    read(alloc, text.as_bytes())?.ok_or(CaseError::Expected("JSON"))
}

/// The lines of the pretty text of an answer, counted from 0: the first place is that of the first
/// line that is told, the second that of the first behind them.
pub fn lines_printed(alloc: Global, answer: &Json, places: &Json) -> Result<Json, CaseError> {
    let [first, end] = items_of(places)? else {
        return Err(CaseError::Expected("two places of lines"));
    };
    let (first, end) = (number_of(first)?, number_of(end)?);
    let text = answer.pretty(alloc)?;
    let lines = lines_of(alloc, text.as_str())?;
    between(alloc, lines.as_slice(), first, end)
}

fn lines_of(alloc: Global, text: &str) -> Result<List<Text>, CaseError> {
    let mut reader = Reader::new(alloc);
    let mut lines = List::new(alloc);
    let mut line = Text::new(alloc);
    for character in text.chars() {
        if character == '\n' {
            reader.push(&mut lines, line);
            line = Text::new(alloc);
        } else {
            reader.or(line.push(character), ());
        }
    }
    reader.push(&mut lines, line);
    reader.finish(lines)
}

fn between(alloc: Global, lines: &[Text], first: i128, end: i128) -> Result<Json, CaseError> {
    let mut told = Row::new(alloc);
    for (place, line) in lines.iter().enumerate() {
        if first <= place as i128 && (place as i128) < end {
            told.push(say(alloc, line.as_str()));
        }
    }
    told.done()
}
