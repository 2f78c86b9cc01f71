//! Reads maps of texts as cases note them: a list of names, each with a text or a list of texts.
use crate::error::CaseError;
use crate::reader::Reader;
use schema_values::{Json, List, Text, VariableValue};
use std::alloc::Global;
use std::collections::BTreeMap;

/// The map that is noted; of entries of one name the last counts.
pub fn map_of(alloc: Global, noted: &Json) -> Result<BTreeMap<Text, VariableValue>, CaseError> {
    let mut reader = Reader::new(alloc);
    let mut map = BTreeMap::new(alloc);
    for entry in reader.items(noted) {
        read_entry(&mut reader, entry, &mut map);
    }
    reader.finish(map)
}

fn read_entry(reader: &mut Reader, noted: &Json, map: &mut BTreeMap<Text, VariableValue>) {
    match reader.items(noted) {
        [Json::Text(name), value] => read_variable(reader, name, value, map),
        _ => reader.expected("a name and what stands with it"),
    }
}

/// Reads what stands with a name into a map: a text, or a list of texts.
pub fn read_variable(
    reader: &mut Reader,
    name: &Text,
    value: &Json,
    map: &mut BTreeMap<Text, VariableValue>,
) {
    let name = reader.copy(name);
    let value = match value {
        Json::Text(text) => VariableValue::String(reader.copy(text)),
        texts => VariableValue::Components(reader.texts(texts)),
    };
    put_variable(reader, name, value, map);
}

fn put_variable(
    reader: &mut Reader,
    name: Text,
    value: VariableValue,
    map: &mut BTreeMap<Text, VariableValue>,
) {
    match map.insert(name, value) {
        Ok(_) => {}
        Err(error) => reader.keep(CaseError::from(error)),
    }
}

/// The texts in a list.
pub fn texts_of(alloc: Global, noted: &Json) -> Result<List<Text>, CaseError> {
    let mut reader = Reader::new(alloc);
    let texts = reader.texts(noted);
    reader.finish(texts)
}
