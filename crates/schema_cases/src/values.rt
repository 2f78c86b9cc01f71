//! Calls on values.
use crate::answers::error_told;
use crate::request_notation::bytes_at;
use case_notation::{
    CaseError, Reader, Row, both, given, given_items, given_text, labelled, made_of, string_told,
    text_of, text_told,
};
use schema_values::{
    Json, ReadError, Scratch, Text, ValueError, write_member, write_number_member,
    write_text_member,
};
use serde_json::Value;
use std::alloc::Global;

/// The value of a case: under `json` as it is read, or under `made`.
pub fn noted_value(alloc: Global, case: &Json) -> Result<Json, CaseError> {
    match case.get("json") {
        Some(json) => Ok(json.copy(alloc)?),
        None => made_of(alloc, given(case, "made")?),
    }
}

/// What the text of a case is read as, `{"json": VALUE}`, or why it is not read.
pub fn read(alloc: Global, case: &Json) -> Result<Json, CaseError> {
    let bytes = bytes_at(alloc, case, "text")?;
    read_told(alloc, bytes.as_slice())
}

/// What each text of a list is read as, in one room that is kept.
pub fn read_in_turn(alloc: Global, case: &Json) -> Result<Json, CaseError> {
    let texts = given_items(case, "json")?;
    let mut scratch = Scratch::new(alloc);
    let mut told = Row::new(alloc);
    for text in texts {
        told.push(read_in(alloc, &mut scratch, text));
    }
    told.done()
}

fn read_in(alloc: Global, scratch: &mut Scratch, text: &Json) -> Result<Json, CaseError> {
    let bytes = text_of(text)?.as_bytes();
    reading_told(alloc, Json::read_with(alloc, scratch, bytes))
}

fn json_told(alloc: Global, json: Json) -> Result<Json, CaseError> {
    labelled::<CaseError>(alloc, "json", Ok(json))
}

fn read_told(alloc: Global, bytes: &[u8]) -> Result<Json, CaseError> {
    reading_told(alloc, Json::read(alloc, bytes))
}

fn reading_told(alloc: Global, reading: Result<Json, ReadError>) -> Result<Json, CaseError> {
    match reading {
        Ok(json) => json_told(alloc, json),
        Err(ReadError::OutOfMemory) => Err(CaseError::OutOfMemory),
        Err(error) => error_told(alloc, format!(in alloc; "{error}")),
    }
}

/// The value's compact text.
pub fn compact(alloc: Global, case: &Json) -> Result<Json, CaseError> {
    text_told(noted_value(alloc, case)?.compact(alloc))
}

/// The compact text of an object with the text and the value of the case, and with how many characters
/// the text has, written member by member.
pub fn written(alloc: Global, case: &Json) -> Result<Json, CaseError> {
    members_written(alloc, given_text(case, "text")?, given(case, "json")?)
}

fn members_written(alloc: Global, text: &Text, json: &Json) -> Result<Json, CaseError> {
    let mut reader = Reader::new(alloc);
    let mut out = Text::new(alloc);
    reader.or(out.push('{'), ());
    reader.or(write_text_member(0, "text", text.as_str(), &mut out), ());
    reader.or(
        write_number_member(alloc, 1, "count", count_of(text), &mut out),
        (),
    );
    reader.or(write_member(alloc, 2, "json", json, &mut out), ());
    reader.or(out.push('}'), ());
    reader.finish(Json::Text(out))
}

/// The value's text in lines.
pub fn pretty(alloc: Global, case: &Json) -> Result<Json, CaseError> {
    text_told(noted_value(alloc, case)?.pretty(alloc))
}

/// What the compact text is read as.
pub fn read_compact(alloc: Global, case: &Json) -> Result<Json, CaseError> {
    let text = noted_value(alloc, case)?.compact(alloc)?;
    read_told(alloc, text.as_bytes())
}

/// What the text in lines is read as.
pub fn read_pretty(alloc: Global, case: &Json) -> Result<Json, CaseError> {
    let text = noted_value(alloc, case)?.pretty(alloc)?;
    read_told(alloc, text.as_bytes())
}

/// How many characters a text has.
pub fn chars_count(case: &Json) -> Result<Json, CaseError> {
    Ok(Json::Int(count_of(given_text(case, "text")?)))
}

fn count_of(text: &Text) -> i128 {
    text.chars_count() as i128
}

/// The value's member of a name, `{"json": MEMBER}`, or null.
pub fn get(alloc: Global, case: &Json) -> Result<Json, CaseError> {
    let name = given_text(case, "name")?;
    match given(case, "json")?.get(name.as_str()) {
        Some(member) => labelled(alloc, "json", member.copy(alloc)),
        None => Ok(Json::Null),
    }
}

/// Whether the value is sound.
pub fn sound(alloc: Global, case: &Json) -> Result<Json, CaseError> {
    Ok(Json::Bool(noted_value(alloc, case)?.sound()))
}

/// Whether the value is equal to the one under `other`, which is noted as one that is made.
pub fn equals(alloc: Global, case: &Json) -> Result<Json, CaseError> {
    let noted = given(case, "other")?;
    let value = noted_value(alloc, case)?;
    let other = made_of(alloc, noted)?;
    Ok(Json::Bool(value.equals(&other)))
}

/// The text of the value as `serde_json` has it, and what comes back: `[TEXT, {"json": VALUE}]`.
pub fn to_value(alloc: Global, case: &Json) -> Result<Json, CaseError> {
    let value = handed_over(alloc, case)?;
    both(
        alloc,
        string_told(value.to_string(alloc)),
        taken_over(alloc, &value),
    )
}

fn handed_over(alloc: Global, case: &Json) -> Result<Value, CaseError> {
    let json = noted_value(alloc, case)?;
    if json.sound() {
        Ok(json.to_value(alloc)?)
    } else {
        Err(CaseError::Expected("a sound value"))
    }
}

/// What the value that `serde_json` reads a text as is here, or why it is none.
pub fn of_value(alloc: Global, case: &Json) -> Result<Json, CaseError> {
    match Value::from_str(alloc, given_text(case, "text")?.as_str()) {
        Ok(value) => taken_over(alloc, &value),
        Err(error) if error.is_memory() => Err(CaseError::OutOfMemory),
        Err(_) => Err(CaseError::Expected("a value of serde_json")),
    }
}

fn taken_over(alloc: Global, value: &Value) -> Result<Json, CaseError> {
    match Json::of_value(alloc, value) {
        Ok(json) => json_told(alloc, json),
        Err(ValueError::OutOfMemory) => Err(CaseError::OutOfMemory),
        Err(error) => error_told(alloc, format!(in alloc; "{error}")),
    }
}
