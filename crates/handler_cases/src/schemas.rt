//! Schemas of parameters, as a document shows them.
use case_notation::{CaseError, Record, Row, say};
use endpoint_metadata::ApiSchemaGenerator;
use openapi_values::{J2oasError, j2oas_schema};
use schema_values::{Definitions, Json, Schema};
use std::alloc::Global;

/// What is told, with a schema under `schema`: with the name of its type as the title, or with the
/// names of the definitions beside it under `definitions`.
pub fn with_schema(alloc: Global, told: Record, schema: &ApiSchemaGenerator) -> Record {
    match schema {
        ApiSchemaGenerator::Gen { name, schema } => {
            told.put("schema", written(alloc, Some(name.as_str()), schema))
        }
        ApiSchemaGenerator::Static {
            schema,
            dependencies,
        } => told
            .put("schema", written(alloc, None, schema))
            .put("definitions", names_of(alloc, dependencies)),
    }
}

fn written(alloc: Global, title: Option<&str>, schema: &Schema) -> Result<Json, CaseError> {
    match j2oas_schema(alloc, title, schema) {
        Ok(json) => Ok(json),
        Err(J2oasError::OutOfMemory) => Err(CaseError::OutOfMemory),
        Err(_) => Err(CaseError::Expected("a schema that a document can show")),
    }
}

fn names_of(alloc: Global, definitions: &Definitions) -> Result<Json, CaseError> {
    let mut names = Row::new(alloc);
    for (name, _) in definitions {
        names.push(say(alloc, name.as_str()));
    }
    names.done()
}
