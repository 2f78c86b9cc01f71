//! Calls that read values of types from maps of texts, and write them as such.
ghost use Rattle.typed_values.specs.Checks.{TablePasses, DescPasses};

use crate::field_names::{B, HeaderA};
use crate::named_types::{Names, Texts};
use crate::sample::Sample;
use crate::single::Single;
use api_types::{ApiType, table_of};
use case_notation::{
    CaseError, Row, Scope, both, given, given_text, labelled, map_of, say, scope_of, text_told,
    tree_noted, tree_of,
};
use flat_maps::{MapError, from_map, from_map_insensitive, to_map, to_map_tree};
use own_types::{Folder, Pin, Point};
use schema_values::{Json, List, Text, VariableValue};
use std::alloc::Global;
use std::collections::BTreeMap;
use type_wire::json_value;
use typed_values::{Tree, fits};

/// The tree of the value that the map of a case is read as, of the type of the case, or what it is
/// refused as. Without case, the names of fields are compared in lower case, in which those of the
/// map are.
pub fn map_read(alloc: Global, case: &Json, without_case: bool) -> Result<Json, CaseError> {
    let name = given_text(case, "type")?;
    let map = map_of(alloc, given(case, "map")?)?;
    match name.as_str() {
        "Sample" => read_as::<Sample>(alloc, &map, without_case),
        "Names" => read_as::<Names>(alloc, &map, without_case),
        "Marked" => read_as::<Single<HeaderA, Text>>(alloc, &map, without_case),
        "Holder" => read_as::<Single<B, Point>>(alloc, &map, without_case),
        "Point" => read_as::<Point>(alloc, &map, without_case),
        "Pin" => read_as::<Pin>(alloc, &map, without_case),
        "Folder" => read_as::<Folder>(alloc, &map, without_case),
        "String" => read_as::<Text>(alloc, &map, without_case),
        "Array_of_String" => { read_as::<List<Text>>(alloc, &map, without_case) }
        _ => Err(CaseError::Expected("the name of a type")),
    }
}

fn read_as<T: ApiType>(
    alloc: Global,
    map: &BTreeMap<Text, VariableValue>,
    without_case: bool,
) -> Result<Json, CaseError> {
    match table_of::<T>(alloc) {
        Ok(_) if without_case => {
            read_told(alloc, from_map_insensitive::<T, VariableValue>(alloc, map))
        }
        Ok(_) => read_told(alloc, from_map::<T, VariableValue>(alloc, map)),
        Err(_) => Err(CaseError::Expected("a type that passes its checks")),
    }
}

fn read_told<T: ApiType>(alloc: Global, answer: Result<T, MapError>) -> Result<Json, CaseError> {
    match answer {
        Ok(value) => tree_told(alloc, &value.to_tree(alloc)?),
        Err(error) => refused(alloc, error),
    }
}

/// A tree that is told.
pub fn tree_told(alloc: Global, tree: &Tree) -> Result<Json, CaseError> {
    labelled(alloc, "tree", tree_noted(alloc, tree))
}

fn refused(alloc: Global, error: MapError) -> Result<Json, CaseError> {
    match error {
        MapError::Refused(text) => labelled(alloc, "refused", text_told(Ok(text))),
        MapError::OutOfMemory => Err(CaseError::OutOfMemory),
    }
}

/// The map of the value that the JSON of a case denotes, of the type of the case, or what it is
/// refused as.
pub fn map_written(alloc: Global, case: &Json) -> Result<Json, CaseError> {
    let json = given(case, "json")?;
    match given_text(case, "type")?.as_str() {
        "Texts" => written::<Texts>(alloc, json),
        "Names" => written::<Names>(alloc, json),
        "Sample" => written::<Sample>(alloc, json),
        "Array_of_String" => written::<List<Text>>(alloc, json),
        "String" => written::<Text>(alloc, json),
        _ => Err(CaseError::Expected("the name of a type")),
    }
}

fn written<T: ApiType>(alloc: Global, json: &Json) -> Result<Json, CaseError> {
    if !json.sound() {
        return Err(CaseError::Expected("a sound value"));
    }
    let Ok(table) = table_of::<T>(alloc) else {
        return Err(CaseError::Expected("a type that passes its checks"));
    };
    match json_value::<T>(alloc, &table, json) {
        Ok(value) => map_told(alloc, to_map(alloc, &value)),
        Err(_) => Err(CaseError::Expected("a value of the type")),
    }
}

/// The map of the tree of a case, under its descriptor, or what it is refused as.
pub fn tree_map_written(alloc: Global, case: &Json) -> Result<Json, CaseError> {
    let tree = given(case, "tree")?;
    tree_written(alloc, &scope_of(alloc, case)?, tree)
}

fn tree_written(alloc: Global, scope: &Scope, noted: &Json) -> Result<Json, CaseError>
    requires table { TablePasses scope.now.table }
    requires desc { DescPasses scope.now.table scope.now.desc }
{
    let tree = tree_of(alloc, noted)?;
    if !fits(&scope.table, &scope.desc, &tree) {
        return Err(CaseError::Expected("a tree that fits"));
    }
    map_told(alloc, to_map_tree(alloc, &scope.table, &scope.desc, &tree))
}

fn map_told(
    alloc: Global,
    answer: Result<BTreeMap<Text, Text>, MapError>,
) -> Result<Json, CaseError> {
    match answer {
        Ok(map) => labelled(alloc, "map", entries_noted(alloc, &map)),
        Err(error) => refused(alloc, error),
    }
}

fn entries_noted(alloc: Global, map: &BTreeMap<Text, Text>) -> Result<Json, CaseError> {
    let mut noted = Row::new(alloc);
    for (name, text) in map.iter() {
        noted.push(both(alloc, say(alloc, name.as_str()), say(alloc, text.as_str())));
    }
    noted.done()
}
