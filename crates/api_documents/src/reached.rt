// Which definitions the schemas of an operation lead to.
ghost use Rattle.std.specs.Prelude.{◌≡◌, ◌++◌, IfOk, OnOk};
ghost use Rattle.std.specs.List.{flat_map};
ghost use Rattle.std.specs.Option.{option_copied};
ghost use Rattle.typed_values.specs.Checks.{TablePasses};
ghost use Rattle.handler_shapes.specs.ShapeChecks.{ShapePasses};
ghost use Rattle.api_documents.specs.Ordered.{with_texts};
ghost use Rattle.api_documents.specs.References.{reached_names, referred_by, roots_of};
ghost use Rattle.api_documents.specs.References.{roots_of_content, roots_of_error};
ghost use Rattle.api_documents.specs.References.{roots_of_headers, roots_of_slot};

use crate::error_names::listed_error;
use crate::references::{add_field_references, add_references};
use endpoint_metadata::listed_fields;
use handler_shapes::{ApiEndpointErrorResponse, ContentShape, HandlerShape, Slot};
use schema_values::{List, Text};
use std::alloc::{AllocError, Global};
use std::collections::BTreeSet;
use typed_values::{Definition, Desc, DescTable};

/// The names of the definitions that the schemas of an operation refer to, directly or through others.
pub(crate) fn reached(alloc: Global, shape: &HandlerShape) -> Result<BTreeSet<Text>, AllocError>
    requires { ShapePasses shape.now }
    ensures { IfOk result (λ names. names.keys ≡ reached_names shape.now) }
{
    let definitions = shape.table.definitions();
    let mut names = BTreeSet::new(alloc);
    add_all(&mut names, roots(alloc, shape)?)?;
    for _ in 0..definitions.len() {
        let before = names.len();
        let referred = referred_by(alloc, definitions, &names)?;
        add_all(&mut names, referred)?;
        if names.len() == before {
            return Ok(names);
        }
    }
    Ok(names)
}

fn add_all(names: &mut BTreeSet<Text>, more: List<Text>) -> Result<(), AllocError>
    ensures { OnOk result (names.new.keys ≡ with_texts names.old.keys more) }
{
    for name in more.into_vec() {
        names.insert(name)?;
    }
    Ok(())
}

// The names that definitions of some names refer to.
fn referred_by(
    alloc: Global,
    definitions: &[Definition],
    names: &BTreeSet<Text>,
) -> Result<List<Text>, AllocError>
    ensures { IfOk result (λ referred. referred ≡ referred_by names.now.keys definitions.now) }
{
    let mut referred = List::new(alloc);
    for definition in definitions {
        if names.contains(&definition.name) {
            add_references(alloc, &mut referred, &definition.desc)?;
        }
    }
    Ok(referred)
}

// The names that the schemas of an operation refer to themselves.
fn roots(alloc: Global, shape: &HandlerShape) -> Result<List<Text>, AllocError>
    requires { ShapePasses shape.now }
    ensures { IfOk result (λ names. names ≡ roots_of shape.now) }
{
    let mut names = List::new(alloc);
    add_roots_of_slots(alloc, &mut names, &shape.table, shape.slots.as_slice())?;
    add_roots_of_content(alloc, &mut names, &shape.response.content)?;
    add_roots_of_headers(alloc, &mut names, &shape.table, &shape.response.headers)?;
    add_roots_of_error(alloc, &mut names, listed_error(shape))?;
    Ok(names)
}

fn add_roots_of_slots(
    alloc: Global,
    names: &mut List<Text>,
    table: &DescTable,
    slots: &[Slot],
) -> Result<(), AllocError>
    requires { TablePasses table.now }
    ensures { OnOk result (names.new ≡ names.old ++ flat_map (roots_of_slot table.now) slots.now) }
{
    for slot in slots {
        add_roots_of_slot(alloc, names, table, slot)?;
    }
    Ok(())
}

fn add_roots_of_slot(
    alloc: Global,
    names: &mut List<Text>,
    table: &DescTable,
    slot: &Slot,
) -> Result<(), AllocError>
    requires { TablePasses table.now }
    ensures { OnOk result (names.new ≡ names.old ++ roots_of_slot table.now slot.now) }
{
    match slot {
        Slot::Path(desc) => add_field_references(alloc, names, listed_fields(table, desc)),
        Slot::Query(desc) => add_field_references(alloc, names, listed_fields(table, desc)),
        Slot::Header(desc) => add_field_references(alloc, names, listed_fields(table, desc)),
        Slot::PagedQuery { scan, .. } => add_field_references(
            alloc,
            names,
            listed_fields(table, scan),
        ),
        Slot::TypedBody(desc, _) => add_references(alloc, names, desc),
        Slot::RawBody | Slot::StreamBody => Ok(()),
    }
}

fn add_roots_of_content(
    alloc: Global,
    names: &mut List<Text>,
    content: &ContentShape,
) -> Result<(), AllocError>
    ensures { OnOk result (names.new ≡ names.old ++ roots_of_content content.now) }
{
    match content {
        ContentShape::Json(desc, _) => add_references(alloc, names, desc),
        ContentShape::Empty | ContentShape::Freeform => Ok(()),
    }
}

fn add_roots_of_headers(
    alloc: Global,
    names: &mut List<Text>,
    table: &DescTable,
    headers: &Option<Desc>,
) -> Result<(), AllocError>
    requires { TablePasses table.now }
    ensures { OnOk result (names.new ≡ names.old ++ roots_of_headers table.now headers.now) }
{
    match headers {
        Some(desc) => add_field_references(alloc, names, listed_fields(table, desc)),
        None => Ok(()),
    }
}

fn add_roots_of_error(
    alloc: Global,
    names: &mut List<Text>,
    error: Option<&ApiEndpointErrorResponse>,
) -> Result<(), AllocError>
    ensures { OnOk result (names.new ≡ names.old ++ roots_of_error (option_copied error.entry)) }
{
    match error {
        Some(error) => add_references(alloc, names, &error.desc),
        None => Ok(()),
    }
}
