//! The parameters of slots.
ghost use Rattle.std.specs.Prelude.{◌≡◌, ◌++◌, IfOk, OnOk, map};
ghost use Rattle.typed_values.specs.Checks.{TablePasses};
ghost use Rattle.typed_values.specs.Schemas.{schema_value};
ghost use Rattle.written_texts.specs.FieldParameters.{is_required};
ghost use Rattle.endpoint_metadata.specs.Parameters.{field_parameter, listed_struct};
ghost use Rattle.endpoint_metadata.specs.Parameters.{listed_pages, listed_parameters, page_parameter};
ghost use Rattle.endpoint_metadata.specs.Parameters.{slot_listed, table_schemas, written_in};
ghost use Rattle.endpoint_metadata.specs.Structs.{listed_fields};
ghost use Rattle.endpoint_metadata.specs.Values.{beside, generator_value, parameter_value};
ghost use Rattle.endpoint_metadata.specs.Values.{parameter_values};

use crate::bodies::{bytes_body, typed_body};
use crate::definitions::definitions_of;
use crate::fields::listed_fields;
use crate::generator::ApiSchemaGenerator;
use crate::page_fields::{limit_field, token_field, with_more};
use crate::parameter::{ApiEndpointParameter, ApiEndpointParameterLocation as Location};
use handler_shapes::Slot;
use request_parts::ApiEndpointBodyContentType;
use schema_values::{List, Schema, copy_text, in_order};
use std::alloc::{AllocError, Global};
use typed_values::{Desc, DescTable, Field, Presence, SchemaPlace, schema_of};

/// The parameters of all slots in turn, the body among them.
pub(crate) fn listed_parameters(
    alloc: Global,
    table: &DescTable,
    slots: &[Slot],
    content_type: ApiEndpointBodyContentType,
) -> Result<List<ApiEndpointParameter>, AllocError>
    requires { TablePasses table.now }
    ensures { IfOk result (λ told.
        parameter_values told ≡ listed_parameters content_type table.now slots.now) }
{
    let mut told = List::new(alloc);
    for slot in slots {
        add_slot(alloc, &mut told, table, slot, content_type)?;
    }
    Ok(told)
}

fn add_slot(
    alloc: Global,
    told: &mut List<ApiEndpointParameter>,
    table: &DescTable,
    slot: &Slot,
    content_type: ApiEndpointBodyContentType,
) -> Result<(), AllocError>
    requires { TablePasses table.now }
    ensures { OnOk result (parameter_values told.new
        ≡ parameter_values told.old ++ slot_listed content_type table.now slot.now) }
{
    match slot {
        Slot::Path(desc) => add_struct(alloc, told, table, Location::Path, desc),
        Slot::Query(desc) => add_struct(alloc, told, table, Location::Query, desc),
        Slot::Header(desc) => add_struct(alloc, told, table, Location::Header, desc),
        Slot::PagedQuery { scan, .. } => add_pages(alloc, told, table, scan),
        Slot::TypedBody(desc, name) => {
            told.push(typed_body(alloc, content_type, table, desc, name)?)
        }
        Slot::RawBody | Slot::StreamBody => told.push(bytes_body(alloc, table)?),
    }
}

// The fields of the struct of a place, in the order of their names.
fn add_struct(
    alloc: Global,
    told: &mut List<ApiEndpointParameter>,
    table: &DescTable,
    location: Location,
    desc: &Desc,
) -> Result<(), AllocError>
    requires { TablePasses table.now }
    ensures { OnOk result (parameter_values told.new ≡ parameter_values told.old
        ++ listed_struct location table.now (listed_fields table.now desc.now)) }
{
    let ordered = in_order(alloc, listed_fields(table, desc))?;
    for field in ordered.iter() {
        told.push(field_parameter(alloc, table, location, field)?)?;
    }
    Ok(())
}

// The fields of a query in pages: `limit`, `page_token` and those of the struct of a scan.
fn add_pages(
    alloc: Global,
    told: &mut List<ApiEndpointParameter>,
    table: &DescTable,
    scan: &Desc,
) -> Result<(), AllocError>
    requires { TablePasses table.now }
    ensures { OnOk result (parameter_values told.new ≡ parameter_values told.old
        ++ listed_pages table.now (listed_fields table.now scan.now)) }
{
    let limit = limit_field(alloc)?;
    let token = token_field(alloc)?;
    let fields = with_more(alloc, limit.get(), token.get(), listed_fields(table, scan))?;
    add_page_fields(alloc, told, table, fields.as_slice())
}

fn add_page_fields(
    alloc: Global,
    told: &mut List<ApiEndpointParameter>,
    table: &DescTable,
    fields: &[&Field],
) -> Result<(), AllocError>
    requires { TablePasses table.now }
    ensures { OnOk result (parameter_values told.new ≡ parameter_values told.old
        ++ map (λ field. page_parameter table.now field.now) fields.now) }
{
    for field in fields {
        told.push(page_parameter(alloc, table, field)?)?;
    }
    Ok(())
}

// A field of a query in pages, none of which must be there.
fn page_parameter(
    alloc: Global,
    table: &DescTable,
    field: &Field,
) -> Result<ApiEndpointParameter, AllocError>
    requires { TablePasses table.now }
    ensures { IfOk result (λ told. parameter_value told ≡ page_parameter table.now field.now) }
{
    let mut told = field_parameter(alloc, table, Location::Query, field)?;
    told.required = false;
    Ok(told)
}

// A field as a parameter of a place.
fn field_parameter(
    alloc: Global,
    table: &DescTable,
    location: Location,
    field: &Field,
) -> Result<ApiEndpointParameter, AllocError>
    requires { TablePasses table.now }
    ensures { IfOk result (λ told.
        parameter_value told ≡ field_parameter location table.now field.now) }
{
    let name = field.name.copy(alloc)?;
    let description = copy_text(alloc, &field.description)?;
    let required = is_required(&field.presence);
    let schema = placed_schema(alloc, table, location, &field.desc)?;
    let examples = List::new(alloc);
    Ok(ApiEndpointParameter::new_named(&location, name, description, required, schema, examples))
}

/// Whether a field must be there.
pub fn is_required(presence: &Presence) -> bool
    ensures { result ≡ is_required presence.now }
{
    matches!(presence, Presence::Required)
}

// The schema of a type as it stands in a place, beside the definitions of the table.
fn placed_schema(
    alloc: Global,
    table: &DescTable,
    location: Location,
    desc: &Desc,
) -> Result<ApiSchemaGenerator, AllocError>
    requires { TablePasses table.now }
    ensures { IfOk result (λ placed. generator_value placed ≡ beside
        (schema_value table.now (written_in location desc.now)) (table_schemas table.now)) }
{
    let schema = schema_in(alloc, table, location, desc)?;
    let dependencies = definitions_of(alloc, table)?;
    Ok(ApiSchemaGenerator::Static {
        schema,
        dependencies,
    })
}

/// The schema of a type as it stands in a place. Fails only for want of memory.
pub fn schema_in(
    alloc: Global,
    table: &DescTable,
    location: Location,
    desc: &Desc,
) -> Result<Schema, AllocError>
    requires { TablePasses table.now }
    ensures { IfOk result (λ schema.
        schema ≡ schema_value table.now (written_in location desc.now)) }
{
    match location {
        Location::Path => schema_of(alloc, table, desc, SchemaPlace::Plain),
        Location::Query => schema_of(alloc, table, desc, SchemaPlace::Query),
        Location::Header => schema_of(alloc, table, desc, SchemaPlace::Header),
    }
}
