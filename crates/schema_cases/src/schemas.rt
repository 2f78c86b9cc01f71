//! Calls on schemas. A schema is told as it is written.
use crate::answers::error_told;
use crate::schema_notation::{definitions_of, noted_schema, types_told};
use case_notation::{CaseError, Record, Row, given, say, text_of, text_or_null, truth_of};
use openapi_values::J2oasError;
use schema_util::{ResolveError, ScalarError, Schema2StructError, StructMember};
use schema_values::{Definitions, InstanceTypes, Json, List, Member, Schema, Text};
use std::alloc::Global;

/// What a copy of the schema is written as, with the title under `title` where one stands, or why
/// it is not written.
pub fn j2oas_schema(alloc: Global, case: &Json) -> Result<Json, CaseError> {
    let title = title_of(case)?;
    let schema = noted_schema(alloc, case)?.copy(alloc)?;
    written(alloc, title, &schema)
}

fn title_of(case: &Json) -> Result<Option<&str>, CaseError> {
    match case.get("title") {
        Some(title) => Ok(Some(text_of(title)?.as_str())),
        None => Ok(None),
    }
}

fn written(alloc: Global, title: Option<&str>, schema: &Schema) -> Result<Json, CaseError> {
    match openapi_values::j2oas_schema(alloc, title, schema) {
        Ok(json) => Ok(json),
        Err(J2oasError::OutOfMemory) => Err(CaseError::OutOfMemory),
        Err(error) => error_told(alloc, format!(in alloc; "{error}")),
    }
}

/// The schema that references lead to, or why they lead to none. Where it has a reference itself,
/// `{"written": SCHEMA, "type": TYPES}`, since the type beside a reference is not written.
pub fn resolve(alloc: Global, case: &Json) -> Result<Json, CaseError> {
    let scope = scope_of(alloc, case)?;
    found_told(
        alloc,
        schema_util::resolve(&scope.schema, &scope.definitions),
    )
}

/// A schema, and the definitions that its references lead to.
#[derive(Drop)]
struct Scope {
    definitions: Definitions,
    schema: Schema,
}

fn scope_of(alloc: Global, case: &Json) -> Result<Scope, CaseError> {
    Ok(Scope {
        definitions: definitions_of(alloc, case)?,
        schema: noted_schema(alloc, case)?,
    })
}

fn found_told(
    alloc: Global,
    outcome: Result<&Schema, ResolveError<'_>>,
) -> Result<Json, CaseError> {
    match outcome {
        Ok(found) => found_written(alloc, found),
        Err(error) => error_told(alloc, format!(in alloc; "{error}")),
    }
}

fn found_written(alloc: Global, found: &Schema) -> Result<Json, CaseError> {
    let json = written(alloc, None, found);
    match found {
        Schema::Object(object) if object.get().reference.is_some() => {
            with_types(alloc, json, &object.get().instance_type)
        }
        _ => json,
    }
}

fn with_types(
    alloc: Global,
    written: Result<Json, CaseError>,
    types: &Option<InstanceTypes>,
) -> Result<Json, CaseError> {
    Record::new(alloc)
        .put("written", written)
        .put("type", types_told(alloc, types))
        .done()
}

/// Whether the schema is empty.
pub fn is_empty(alloc: Global, case: &Json) -> Result<Json, CaseError> {
    Ok(Json::Bool(schema_util::is_empty(&noted_schema(alloc, case)?)))
}

/// The schema's extensions as an object, or null.
pub fn extensions(alloc: Global, case: &Json) -> Result<Json, CaseError> {
    let schema = noted_schema(alloc, case)?;
    match schema_util::schema_extensions(&schema) {
        Some(extensions) => object_of(alloc, extensions.as_slice()),
        None => Ok(Json::Null),
    }
}

fn object_of(alloc: Global, members: &[Member]) -> Result<Json, CaseError> {
    let mut copies = Record::new(alloc);
    for Member { name, value } in members {
        copies.add(name.as_str(), value.copy(alloc));
    }
    copies.done()
}

/// The schema's description or null, and the rest: `{"description": TEXT, "schema": SCHEMA}`.
pub fn extracted(alloc: Global, case: &Json) -> Result<Json, CaseError> {
    let schema = noted_schema(alloc, case)?;
    let (description, rest) = schema_util::schema_extract_description(alloc, &schema)?;
    description_told(alloc, &description, &rest)
}

fn description_told(
    alloc: Global,
    description: &Option<Text>,
    rest: &Schema,
) -> Result<Json, CaseError> {
    Record::new(alloc)
        .put("description", text_or_null(alloc, description))
        .put("schema", written(alloc, None, rest))
        .done()
}

/// Whether the schema is that of scalar values, as `"fits"`, or why not.
pub fn scalar(alloc: Global, case: &Json) -> Result<Json, CaseError> {
    let scope = scope_of(alloc, case)?;
    told(
        alloc,
        schema_util::type_is_scalar(&scope.schema, &scope.definitions),
    )
}

/// Whether the schema is that of texts, as `"fits"`, or why not.
pub fn string(alloc: Global, case: &Json) -> Result<Json, CaseError> {
    let scope = scope_of(alloc, case)?;
    told(
        alloc,
        schema_util::type_is_string(&scope.schema, &scope.definitions),
    )
}

/// Whether the schema is that of lists of texts, as `"fits"`, or why not.
pub fn string_enum(alloc: Global, case: &Json) -> Result<Json, CaseError> {
    let scope = scope_of(alloc, case)?;
    told(
        alloc,
        schema_util::type_is_string_enum(&scope.schema, &scope.definitions),
    )
}

fn told(alloc: Global, outcome: Result<(), ScalarError<'_>>) -> Result<Json, CaseError> {
    match outcome {
        Ok(()) => say(alloc, "fits"),
        Err(error) => error_told(alloc, format!(in alloc; "{error}")),
    }
}

/// The members of the schema's struct, or why it is that of no struct. They may be required where
/// `required` is true.
pub fn members(alloc: Global, case: &Json) -> Result<Json, CaseError> {
    let required = truth_of(given(case, "required")?)?;
    let scope = scope_of(alloc, case)?;
    struct_told(
        alloc,
        schema_util::schema2struct(alloc, &scope.schema, &scope.definitions, required),
    )
}

fn struct_told(
    alloc: Global,
    outcome: Result<List<StructMember>, Schema2StructError>,
) -> Result<Json, CaseError> {
    match outcome {
        Ok(members) => members_told(alloc, members.as_slice()),
        Err(Schema2StructError::OutOfMemory) => Err(CaseError::OutOfMemory),
        Err(error) => copy_told(alloc, &error),
    }
}

fn copy_told(alloc: Global, error: &Schema2StructError) -> Result<Json, CaseError> {
    let copy = error.copy(alloc)?;
    error_told(alloc, format!(in alloc; "{copy}"))
}

fn members_told(alloc: Global, members: &[StructMember]) -> Result<Json, CaseError> {
    let mut told = Row::new(alloc);
    for member in members {
        told.push(copied_member_told(alloc, member));
    }
    told.done()
}

fn copied_member_told(alloc: Global, member: &StructMember) -> Result<Json, CaseError> {
    let copy = member.copy(alloc)?;
    member_told(alloc, &copy)
}

fn member_told(alloc: Global, member: &StructMember) -> Result<Json, CaseError> {
    Record::new(alloc)
        .text("name", member.name.as_str())
        .put("description", text_or_null(alloc, &member.description))
        .put("schema", written(alloc, None, &member.schema))
        .truth("required", member.required)
        .done()
}
