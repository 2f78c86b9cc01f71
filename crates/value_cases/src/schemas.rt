//! Calls that write schemas, and what schemas admit.
ghost use Rattle.typed_values.specs.Checks.{TablePasses};

use crate::case::value_of;
use case_notation::{CaseError, Record, Row, checked_table, given_text, labelled, noted_desc};
use openapi_values::{J2oasError, j2oas_schema, json_admits};
use schema_values::{Json, Schema, Text};
use std::alloc::{AllocError, Global};
use typed_values::{Definition, Desc, DescTable, SchemaPlace, schema_of, schema_of_definition};
use written_schemas::{definition_schema, titled_schema};

/// The schema of the descriptor of a case at its place, `plain`, `header` or `query`.
pub fn schema(alloc: Global, case: &Json) -> Result<Json, CaseError> {
    schema_at(alloc, case, place_of(case)?)
}

fn schema_at(alloc: Global, case: &Json, place: SchemaPlace) -> Result<Json, CaseError> {
    schema_in(alloc, &checked_table(alloc, case)?, case, place)
}

fn schema_in(
    alloc: Global,
    table: &DescTable,
    case: &Json,
    place: SchemaPlace,
) -> Result<Json, CaseError>
    requires { TablePasses table.now }
{
    desc_written(alloc, table, &noted_desc(alloc, case)?, place)
}

fn desc_written(
    alloc: Global,
    table: &DescTable,
    desc: &Desc,
    place: SchemaPlace,
) -> Result<Json, CaseError>
    requires { TablePasses table.now }
{
    written(alloc, &schema_of(alloc, table, desc, place)?)
}

fn place_of(case: &Json) -> Result<SchemaPlace, CaseError> {
    match given_text(case, "place")?.as_str() {
        "plain" => Ok(SchemaPlace::Plain),
        "header" => Ok(SchemaPlace::Header),
        "query" => Ok(SchemaPlace::Query),
        _ => Err(CaseError::Expected("plain, header or query")),
    }
}

fn written(alloc: Global, schema: &Schema) -> Result<Json, CaseError> {
    match j2oas_schema(alloc, None, schema) {
        Ok(json) => Ok(json),
        Err(J2oasError::OutOfMemory) => Err(CaseError::OutOfMemory),
        Err(_) => Err(CaseError::Expected("a schema that can be written")),
    }
}

/// The schema of the descriptor of a case under its title.
pub fn titled(alloc: Global, case: &Json) -> Result<Json, CaseError> {
    let title = given_text(case, "title")?;
    titled_in(alloc, &checked_table(alloc, case)?, case, title)
}

fn titled_in(alloc: Global, table: &DescTable, case: &Json, title: &Text) -> Result<Json, CaseError>
    requires { TablePasses table.now }
{
    let desc = noted_desc(alloc, case)?;
    json_told(titled_schema(alloc, table, &desc, title))
}

fn json_told(json: Result<Json, AllocError>) -> Result<Json, CaseError> {
    Ok(json?)
}

/// The schema of the definition of a name.
pub fn definition(alloc: Global, case: &Json) -> Result<Json, CaseError> {
    let name = given_text(case, "name")?;
    definition_in(alloc, &checked_table(alloc, case)?, name)
}

fn definition_in(alloc: Global, table: &DescTable, name: &Text) -> Result<Json, CaseError>
    requires { TablePasses table.now }
{
    match table.entry_named(name.as_str()) {
        Some(definition) => json_told(definition_schema(alloc, table, definition)),
        None => Err(CaseError::Expected("the name of a definition")),
    }
}

/// For each definition of a case whether its schema and a copy of that are written alike.
pub fn copied_schemas(alloc: Global, case: &Json) -> Result<Json, CaseError> {
    schemas_told(alloc, &checked_table(alloc, case)?)
}

fn schemas_told(alloc: Global, table: &DescTable) -> Result<Json, CaseError>
    requires { TablePasses table.now }
{
    let mut answers = Row::new(alloc);
    for definition in table.definitions() {
        answers.push(definition_told(alloc, table, definition));
    }
    answers.done()
}

fn definition_told(
    alloc: Global,
    table: &DescTable,
    definition: &Definition,
) -> Result<Json, CaseError>
    requires { TablePasses table.now }
{
    let schema = schema_of_definition(alloc, table, definition)?;
    labelled(alloc, definition.name.as_str(), alike(alloc, &schema))
}

/// Whether a schema and its copy are written alike.
fn alike(alloc: Global, schema: &Schema) -> Result<Json, CaseError> {
    let json = written(alloc, schema)?;
    is_copy_written_as(alloc, schema, &json)
}

fn is_copy_written_as(alloc: Global, schema: &Schema, json: &Json) -> Result<Json, CaseError> {
    let again = copy_written(alloc, schema)?;
    Ok(Json::Bool(json.equals(&again)))
}

fn copy_written(alloc: Global, schema: &Schema) -> Result<Json, CaseError> {
    written(alloc, &schema.copy(alloc)?)
}

/// Whether a document of the definitions of a case admits its value under the schema of its
/// descriptor. What is no JSON is not admitted.
pub fn admits(alloc: Global, case: &Json) -> Result<Json, CaseError> {
    match value_of(alloc, case)? {
        Some(json) => admitted(alloc, case, &json),
        None => Ok(Json::Bool(false)),
    }
}

fn admitted(alloc: Global, case: &Json, json: &Json) -> Result<Json, CaseError> {
    let schema = schema_at(alloc, case, SchemaPlace::Plain)?;
    let document = document_of(alloc, case)?;
    Ok(Json::Bool(json_admits(&document, &schema, json)))
}

/// A document of the schemas of the definitions of a case.
fn document_of(alloc: Global, case: &Json) -> Result<Json, CaseError> {
    let table = checked_table(alloc, case)?;
    let schemas = labelled(alloc, "schemas", schemas_of(alloc, &table));
    labelled(alloc, "components", schemas)
}

fn schemas_of(alloc: Global, table: &DescTable) -> Result<Json, CaseError>
    requires { TablePasses table.now }
{
    let mut schemas = Record::new(alloc);
    for definition in table.definitions() {
        let schema = definition_schema(alloc, table, definition);
        schemas.add(definition.name.as_str(), schema);
    }
    schemas.done()
}
