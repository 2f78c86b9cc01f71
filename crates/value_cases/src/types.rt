//! Calls on the types that a document describes.
ghost use Rattle.api_types.specs.Types.{IsTableOf};

use api_types::{AnyValue, ApiType, Flaw, TypeError, table_of};
use case_notation::{
    CaseError, Record, given, given_text, labelled, string_told, text_told, tree_noted,
};
use own_types::{Color, Folder, Label, Pin, Point, Span};
use schema_values::{Json, List, Text};
use std::alloc::Global;
use std::collections::BTreeMap;
use type_wire::{json_value, value_json};
use typed_values::{DecodeError, DescTable, Fault};

/// What is told of the JSON of a case as a value of the type of this name.
pub fn type_told(alloc: Global, case: &Json) -> Result<Json, CaseError> {
    let json = given(case, "json")?;
    match given_text(case, "type")?.as_str() {
        "Boolean" => told_of::<bool>(alloc, json),
        "Character" => told_of::<char>(alloc, json),
        "String" => told_of::<Text>(alloc, json),
        "int8" => told_of::<i8>(alloc, json),
        "int16" => told_of::<i16>(alloc, json),
        "int32" => told_of::<i32>(alloc, json),
        "int64" => told_of::<i64>(alloc, json),
        "uint8" => told_of::<u8>(alloc, json),
        "uint16" => told_of::<u16>(alloc, json),
        "uint32" => told_of::<u32>(alloc, json),
        "uint64" => told_of::<u64>(alloc, json),
        "Nullable_Boolean" => told_of::<Option<bool>>(alloc, json),
        "Nullable_Nullable_Boolean" => told_of::<Option<Option<bool>>>(alloc, json),
        "Array_of_uint8" => told_of::<List<u8>>(alloc, json),
        "Map_of_Boolean" => told_of::<BTreeMap<Text, bool>>(alloc, json),
        "AnyValue" => told_of::<AnyValue>(alloc, json),
        "Label" => told_of::<Label>(alloc, json),
        "Color" => told_of::<Color>(alloc, json),
        "Point" => told_of::<Point>(alloc, json),
        "Span" => told_of::<Span>(alloc, json),
        "Pin" => told_of::<Pin>(alloc, json),
        "Folder" => told_of::<Folder>(alloc, json),
        _ => Err(CaseError::Expected("the name of a type")),
    }
}

fn told_of<T: ApiType>(alloc: Global, json: &Json) -> Result<Json, CaseError> {
    match table_of::<T>(alloc) {
        Ok(table) => value_told::<T>(alloc, &table, json),
        Err(error) => no_table(alloc, error),
    }
}

/// The name of a type, and of the value that JSON denotes the tree and what it is written as, or the
/// fault.
fn value_told<T: ApiType>(alloc: Global, table: &DescTable, json: &Json) -> Result<Json, CaseError>
    requires { IsTableOf T.definitions_of T.desc_of table.now }
{
    if !json.sound() {
        return Err(CaseError::Expected("a sound value"));
    }
    match json_value::<T>(alloc, table, json) {
        Ok(value) => tree_and_json(alloc, table, &value),
        Err(DecodeError::Fault(fault)) => fault_told::<T>(alloc, &fault),
        Err(DecodeError::OutOfMemory) => Err(CaseError::OutOfMemory),
    }
}

fn tree_and_json<T: ApiType>(alloc: Global, table: &DescTable, value: &T) -> Result<Json, CaseError>
    requires { IsTableOf T.definitions_of T.desc_of table.now }
{
    name_told::<T>(alloc)
        .put("tree", tree_told(alloc, value))
        .put("json", value_json(alloc, table, value))
        .done()
}

fn name_told<T: ApiType>(alloc: Global) -> Record {
    Record::new(alloc).put("name", text_told(T::type_name(alloc)))
}

fn tree_told<T: ApiType>(alloc: Global, value: &T) -> Result<Json, CaseError> {
    tree_noted(alloc, &value.to_tree(alloc)?)
}

fn fault_told<T: ApiType>(alloc: Global, fault: &Fault) -> Result<Json, CaseError> {
    name_told::<T>(alloc)
        .put("fault", text_told(fault.text(alloc)))
        .done()
}

/// Why a type has no table.
fn no_table(alloc: Global, error: TypeError) -> Result<Json, CaseError> {
    match error {
        TypeError::Clash(name) => labelled(alloc, "clash", text_told(Ok(name))),
        TypeError::Table(flaw) => labelled(alloc, "table", flaw_told(alloc, &flaw)),
        TypeError::Descriptor(flaw) => labelled(alloc, "desc", flaw_told(alloc, &flaw)),
        TypeError::OutOfMemory => Err(CaseError::OutOfMemory),
    }
}

fn flaw_told(alloc: Global, flaw: &Flaw) -> Result<Json, CaseError> {
    string_told(format!(in alloc; "{flaw:?}"))
}
