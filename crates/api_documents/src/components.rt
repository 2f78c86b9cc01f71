// The responses and schemas that operations refer to.
ghost use Rattle.std.specs.Prelude.{◌≡◌, All, IfOk, OnOk, fold, map};
ghost use Rattle.std.specs.List.{flat_map};
ghost use Rattle.semver.specs.Identifiers.{parts_of};
ghost use Rattle.typed_values.specs.Checks.{TablePasses};
ghost use Rattle.handler_shapes.specs.ShapeChecks.{ShapePasses};
ghost use Rattle.api_documents.specs.Components.{components_of, error_entry, error_object};
ghost use Rattle.api_documents.specs.Components.{schema_entries, schema_entry};
ghost use Rattle.api_documents.specs.Listed.{listed};
ghost use Rattle.api_documents.specs.Ordered.{by_name, with_entry};

use crate::bodies::content;
use crate::error_names::NamedError;
use crate::reached::reached;
use api_declarations::Declaration;
use openapi_values::{Components, ResponseObject};
use schema_values::{Json, List, Text};
use semver::Version;
use std::alloc::{AllocError, Global};
use std::collections::BTreeMap;
use typed_values::{Definition, DescTable};
use written_schemas::definition_schema;

/// The responses of errors, and the definitions that the listed endpoints refer to, in the order of
/// names.
pub(crate) fn components(
    alloc: Global,
    named: &[NamedError<'_>],
    declarations: &[Declaration<'_>],
    version: &Version,
) -> Result<Components, AllocError>
    requires { All (λ d. ShapePasses d.shape) declarations.now }
    ensures { IfOk result (λ components. components
        ≡ components_of named.now (listed (parts_of version.now) declarations.now)) }
{
    Ok(Components {
        responses: in_order(alloc, responses(alloc, named)?)?,
        schemas: in_order(alloc, schemas(alloc, declarations, version)?)?,
    })
}

fn responses(
    alloc: Global,
    named: &[NamedError<'_>],
) -> Result<BTreeMap<Text, ResponseObject>, AllocError>
    ensures { IfOk result (λ responses. responses.entries ≡ by_name (map error_entry named.now)) }
{
    let mut responses = BTreeMap::new(alloc);
    for error in named {
        add_response(alloc, &mut responses, error)?;
    }
    Ok(responses)
}

fn add_response(
    alloc: Global,
    responses: &mut BTreeMap<Text, ResponseObject>,
    error: &NamedError<'_>,
) -> Result<(), AllocError>
    ensures { OnOk result (responses.new.entries
        ≡ with_entry responses.old.entries (error_entry error.now)) }
{
    if !responses.contains_key(&error.name) {
        let response = error_object(alloc, error)?;
        responses.insert(error.name.copy(alloc)?, response)?;
    }
    Ok(())
}

fn error_object(alloc: Global, error: &NamedError<'_>) -> Result<ResponseObject, AllocError>
    ensures { IfOk result (λ object. object ≡ error_object error.now) }
{
    let description = Some(error.name.copy(alloc)?);
    let shape = error.error;
    let content = content(
        alloc,
        "application/json",
        error.table,
        &shape.desc,
        &shape.name,
    )?;
    Ok(ResponseObject {
        description,
        headers: List::new(alloc),
        content,
        reference: None,
    })
}

fn schemas(
    alloc: Global,
    declarations: &[Declaration<'_>],
    version: &Version,
) -> Result<BTreeMap<Text, Json>, AllocError>
    requires { All (λ d. ShapePasses d.shape) declarations.now }
    ensures { IfOk result (λ schemas. schemas.entries ≡ by_name
        (flat_map schema_entries (listed (parts_of version.now) declarations.now))) }
{
    let mut schemas = BTreeMap::new(alloc);
    for declaration in declarations {
        if declaration.is_listed(version) {
            add_schemas(alloc, &mut schemas, declaration)?;
        }
    }
    Ok(schemas)
}

fn add_schemas(
    alloc: Global,
    schemas: &mut BTreeMap<Text, Json>,
    declaration: &Declaration<'_>,
) -> Result<(), AllocError>
    requires { ShapePasses declaration.now.shape }
    ensures { OnOk result (schemas.new.entries
        ≡ fold with_entry schemas.old.entries (schema_entries declaration.now)) }
{
    let shape = declaration.shape;
    let names = reached(alloc, shape)?;
    for definition in shape.table.definitions() {
        if names.contains(&definition.name) {
            add_schema(alloc, schemas, &shape.table, definition)?;
        }
    }
    Ok(())
}

fn add_schema(
    alloc: Global,
    schemas: &mut BTreeMap<Text, Json>,
    table: &DescTable,
    definition: &Definition,
) -> Result<(), AllocError>
    requires { TablePasses table.now }
    ensures { OnOk result (schemas.new.entries ≡ with_entry schemas.old.entries
        (schema_entry table.now definition.now)) }
{
    if !schemas.contains_key(&definition.name) {
        let schema = definition_schema(alloc, table, definition)?;
        schemas.insert(definition.name.copy(alloc)?, schema)?;
    }
    Ok(())
}

// The entries of a map, in order.
fn in_order<T: Drop>(alloc: Global, map: BTreeMap<Text, T>) -> Result<List<(Text, T)>, AllocError>
    ensures { IfOk result (λ entries. entries ≡ map.entries) }
{
    let mut entries = List::new(alloc);
    for entry in map {
        entries.push(entry)?;
    }
    Ok(entries)
}
