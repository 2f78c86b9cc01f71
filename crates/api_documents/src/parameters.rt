// The parameters of an operation.
ghost use Rattle.std.specs.Prelude.{◌≡◌, ◌++◌, [], Some, IfOk, IsTrue, OnOk, codes, false, map};
ghost use Rattle.schema_values.specs.Ascii.{all_ascii};
ghost use Rattle.schema_values.specs.Order.{sorted_by};
ghost use Rattle.typed_values.specs.Checks.{TablePasses};
ghost use Rattle.typed_values.specs.SchemaTable.{schema_json};
ghost use Rattle.descriptors.specs.declared.desc.Desc.{Option as OptionOf};
ghost use Rattle.written_texts.specs.FieldParameters.{field_parameters, parameter_of, query_parameters};
ghost use Rattle.written_texts.specs.PageParameters.{limit_field, page_parameters, parameter_name};
ghost use Rattle.written_texts.specs.PageParameters.{scan_parameter, token_field};
ghost use Rattle.endpoint_metadata.specs.Modes.{first_asked};
ghost use Rattle.endpoint_metadata.specs.Parameters.{written_in};
ghost use Rattle.endpoint_metadata.specs.Shown.{documented_parameters, slot_documented};
ghost use Rattle.api_documents.specs.Parameters.{location_of};

use crate::placed::placed_schema;
use endpoint_metadata::{
    ApiEndpointParameterLocation as Location, asked_names, is_required, listed_fields,
};
use handler_shapes::Slot;
use openapi_values::Parameter;
use schema_values::{Boxed, HasName, Json, List, Text, copy_text, in_order, sort_by_name};
use std::alloc::{AllocError, Global};
use typed_values::{Desc, DescTable, Field, IntKind};

/// A parameter, which is put in the order of names.
#[derive(Drop)]
struct NamedParameter {
    parameter: Parameter,
}

impl HasName for NamedParameter {
    ghost use Rattle.written_texts.specs.PageParameters.{parameter_name};

    ghost name_of = { λ named. parameter_name named.parameter };

    fn name(&self) -> &Text {
        &self.parameter.name
    }
}

/// The parameters of all slots in turn.
pub(crate) fn parameters(
    alloc: Global,
    table: &DescTable,
    slots: &[Slot],
) -> Result<List<Parameter>, AllocError>
    requires { TablePasses table.now }
    ensures { IfOk result (λ parameters. parameters ≡ documented_parameters table.now slots.now) }
{
    let mut parameters = List::new(alloc);
    for slot in slots {
        append(&mut parameters, slot_parameters(alloc, table, slot)?)?;
    }
    Ok(parameters)
}

fn append(parameters: &mut List<Parameter>, more: List<Parameter>) -> Result<(), AllocError>
    ensures { OnOk result (parameters.new ≡ parameters.old ++ more) }
{
    for parameter in more.into_vec() {
        parameters.push(parameter)?;
    }
    Ok(())
}

fn slot_parameters(
    alloc: Global,
    table: &DescTable,
    slot: &Slot,
) -> Result<List<Parameter>, AllocError>
    requires { TablePasses table.now }
    ensures { IfOk result (λ parameters. parameters ≡ slot_documented table.now slot.now) }
{
    match slot {
        Slot::Path(desc) => {
            field_parameters(alloc, table, listed_fields(table, desc), Location::Path)
        }
        Slot::Query(desc) => query_parameters(alloc, table, listed_fields(table, desc)),
        Slot::Header(desc) => {
            field_parameters(alloc, table, listed_fields(table, desc), Location::Header)
        }
        Slot::PagedQuery { scan, .. } => page_parameters(alloc, table, listed_fields(table, scan)),
        Slot::TypedBody(..) | Slot::RawBody | Slot::StreamBody => Ok(List::new(alloc)),
    }
}

/// The parameters of the fields of a query.
pub(crate) fn query_parameters(
    alloc: Global,
    table: &DescTable,
    fields: &[Field],
) -> Result<List<Parameter>, AllocError>
    requires { TablePasses table.now }
    ensures { IfOk result (λ parameters. parameters ≡ query_parameters table.now fields.now) }
{
    field_parameters(alloc, table, fields, Location::Query)
}

// The parameters of fields in a place, in the order of their names.
fn field_parameters(
    alloc: Global,
    table: &DescTable,
    fields: &[Field],
    place: Location,
) -> Result<List<Parameter>, AllocError>
    requires { TablePasses table.now }
    ensures { IfOk result (λ parameters. parameters
        ≡ field_parameters (location_of place) (written_in place) table.now fields.now) }
{
    let mut parameters = List::new(alloc);
    for field in in_order(alloc, fields)? {
        parameters.push(field_parameter(alloc, table, field, place)?)?;
    }
    Ok(parameters)
}

fn field_parameter(
    alloc: Global,
    table: &DescTable,
    field: &Field,
    place: Location,
) -> Result<Parameter, AllocError>
    requires { TablePasses table.now }
    ensures { IfOk result (λ parameter. parameter
        ≡ parameter_of (location_of place) (written_in place) table.now field.now) }
{
    Ok(Parameter {
        location: Text::from_ascii(alloc, location_of(place))?,
        name: field.name.copy(alloc)?,
        description: copy_text(alloc, &field.description)?,
        required: is_required(&field.presence),
        schema: placed_schema(alloc, table, &field.desc, place)?,
    })
}

// The member `in` of the parameters of a place.
fn location_of(place: Location) -> &'static str
    ensures text { result.now ≡ location_of place }
    ensures ascii { IsTrue (all_ascii result.now) }
{
    match place {
        Location::Path => "path",
        Location::Query => "query",
        Location::Header => "header",
    }
}

// Those of an operation in pages: `limit`, `page_token`, and a field each of what is scanned.
fn page_parameters(
    alloc: Global,
    table: &DescTable,
    fields: &[Field],
) -> Result<List<Parameter>, AllocError>
    requires { TablePasses table.now }
    ensures { IfOk result (λ parameters. parameters ≡ page_parameters table.now fields.now) }
{
    let mut parameters = Vec::new(alloc);
    let parameter = limit_parameter(alloc)?;
    parameters.push(NamedParameter { parameter })?;
    let parameter = token_parameter(alloc)?;
    parameters.push(NamedParameter { parameter })?;
    for field in fields {
        let parameter = scan_parameter(alloc, table, field)?;
        parameters.push(NamedParameter { parameter })?;
    }
    in_name_order(alloc, parameters)
}

fn limit_parameter(alloc: Global) -> Result<Parameter, AllocError>
    ensures { IfOk result (λ parameter. parameter
        ≡ parameter_of (codes "query") (λ desc. desc) [] limit_field) }
{
    let text = "Maximum number of items returned by a single call";
    let count = Desc::Int {
        kind: IntKind::U32,
        min: Some(1),
        max: None,
    };
    own_parameter(alloc, "limit", text, count)
}

fn token_parameter(alloc: Global) -> Result<Parameter, AllocError>
    ensures { IfOk result (λ parameter. parameter
        ≡ parameter_of (codes "query") (λ desc. desc) [] token_field) }
{
    let text = "Token returned by previous call to retrieve the subsequent page";
    let token = Desc::Text {
        min: None,
        max: None,
        format: None,
    };
    own_parameter(alloc, "page_token", text, token)
}

// A parameter of the query that may be absent.
fn own_parameter(
    alloc: Global,
    name: &str,
    description: &str,
    desc: Desc,
) -> Result<Parameter, AllocError>
    requires name { IsTrue (all_ascii name.now) }
    requires description { IsTrue (all_ascii description.now) }
    ensures { IfOk result (λ parameter. parameter ≡ record {
      location = codes "query";
      name = name.now;
      description = Some description.now;
      required = false;
      schema = schema_json [] (OptionOf desc);
    }) }
{
    let schema = option_schema(alloc, desc)?;
    Ok(Parameter {
        location: Text::from_ascii(alloc, "query")?,
        name: Text::from_ascii(alloc, name)?,
        description: Some(Text::from_ascii(alloc, description)?),
        required: false,
        schema,
    })
}

// The schema of an option over what refers to no definition, which is written as it is, as in a path.
fn option_schema(alloc: Global, desc: Desc) -> Result<Json, AllocError>
    ensures { IfOk result (λ schema. schema ≡ schema_json [] (OptionOf desc)) }
{
    let table = DescTable::new(alloc);
    let option = Desc::Option(Boxed::new(alloc, desc)?);
    placed_schema(alloc, &table, &option, Location::Path)
}

// A field of what is scanned, which a request for a later page leaves out.
fn scan_parameter(alloc: Global, table: &DescTable, field: &Field) -> Result<Parameter, AllocError>
    requires { TablePasses table.now }
    ensures { IfOk result (λ parameter. parameter ≡ scan_parameter table.now field.now) }
{
    let mut parameter = field_parameter(alloc, table, field, Location::Query)?;
    parameter.required = false;
    Ok(parameter)
}

// Parameters in the order of their names.
fn in_name_order(
    alloc: Global,
    mut named: Vec<NamedParameter>,
) -> Result<List<Parameter>, AllocError>
    ensures { IfOk result (λ parameters. parameters
        ≡ sorted_by parameter_name (map (λ n. n.parameter) named.items)) }
{
    sort_by_name(&mut named)?;
    let mut parameters = List::new(alloc);
    for item in named {
        parameters.push(item.parameter)?;
    }
    Ok(parameters)
}

/// The names that a request for the first page must have, of the first slot of pages.
pub(crate) fn first_asked(
    alloc: Global,
    table: &DescTable,
    slots: &[Slot],
) -> Result<Option<List<Text>>, AllocError>
    requires { TablePasses table.now }
    ensures { IfOk result (λ names. names ≡ first_asked table.now slots.now) }
{
    for slot in slots {
        if let Some(names) = asked_names(alloc, table, slot)? {
            return Ok(Some(names));
        }
    }
    Ok(None)
}
