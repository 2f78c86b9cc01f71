//! Members of cases that may be left out.
use case_notation::{CaseError, Reader, items_of, number_of, text_of, truth_of};
use schema_values::{Json, Text};
use std::alloc::Global;

/// The text under a name, or another where there is none, lent.
pub fn str_or<'a>(noted: &'a Json, name: &str, other: &'a str) -> Result<&'a str, CaseError> {
    match noted.get(name) {
        Some(text) => Ok(text_of(text)?.as_str()),
        None => Ok(other),
    }
}

/// The text under a name, or another where there is none.
pub fn text_or(alloc: Global, noted: &Json, name: &str, other: &str) -> Result<Text, CaseError> {
    Ok(Text::from_str(alloc, str_or(noted, name, other)?)?)
}

/// Reads the text under a name, or another where there is none.
pub fn read_text_or(reader: &mut Reader, noted: &Json, name: &str, other: &str) -> Text {
    match noted.get(name) {
        Some(text) => reader.text(text),
        None => reader.text_from(other),
    }
}

/// The truth value under a name, or another where there is none.
pub fn truth_or(noted: &Json, name: &str, other: bool) -> Result<bool, CaseError> {
    match noted.get(name) {
        Some(truth) => truth_of(truth),
        None => Ok(other),
    }
}

/// The number of 64 bits under a name, or another where there is none.
pub fn number_or(noted: &Json, name: &str, other: u64) -> Result<u64, CaseError> {
    match noted.get(name) {
        Some(number) => u64_of(number),
        None => Ok(other),
    }
}

/// A number of 64 bits.
pub fn u64_of(noted: &Json) -> Result<u64, CaseError> {
    match u64::try_from(number_of(noted)?) {
        Ok(number) => Ok(number),
        Err(_) => Err(CaseError::Expected("a number of 64 bits")),
    }
}

/// The items of the list under a name, none where it is left out.
pub fn items_at<'a>(noted: &'a Json, name: &str) -> Result<&'a [Json], CaseError> {
    match noted.get(name) {
        Some(items) => items_of(items),
        None => Ok(&[]),
    }
}
