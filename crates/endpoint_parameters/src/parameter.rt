//! The parameters that an endpoint takes in its path, in the query and in headers.
ghost use Rattle.std.specs.Prelude.{◌≡◌, ◌++◌, IfOk, OnOk, filter, map};
ghost use Rattle.endpoint_parameters.specs.ParameterCodes.{is_in, parameter_at};
ghost use Rattle.endpoint_parameters.specs.Parameters.{name_of, parameters, parameters_of_slot};

use crate::resolved::fields_of_struct;
use descriptors::{DescTable, Field};
use handler_shapes::{HandlerShape, Slot};
use schema_values::{List, Text};
use std::alloc::{AllocError, Global};
use std::marker::Model;

/// Where a request gives a parameter.
#[derive(Clone, Copy, PartialEq, Eq)]
pub enum Place {
    /// In the path.
    Path,
    /// In the query.
    Query,
    /// In its headers.
    Header,
}

/// A field that a request gives in its path, in the query or in its headers.
#[derive(Drop)]
pub struct Parameter<'a> {
    /// Where it is given.
    pub place: Place,
    /// The field.
    pub field: &'a Field,
}

impl<'a> Model for Parameter<'a> {
    ghost use Rattle.endpoint_parameters.specs.Parameters.{Parameter as ParameterValue};
    ghost use Rattle.endpoint_parameters.specs.ParameterCodes.{parameter_at, parameter_code};

    ghost Value = { ParameterValue };

    ghost coded = { parameter_code };

    ghost view = { λ p. parameter_at p.place p.field.now };
}

impl<'a> Parameter<'a> {
    /// The name.
    pub fn name(&self) -> &'a Text
        ensures { result.now ≡ name_of self.now }
    {
        &self.field.name
    }
}

/// The parameters of a shape, in the order of its slots and of their fields. Fails only for want
/// of memory.
pub fn parameters<'a>(
    alloc: Global,
    shape: &'a HandlerShape,
) -> Result<List<Parameter<'a>>, AllocError>
    ensures { IfOk result (λ found. found ≡ parameters shape.now) }
{
    let mut found = List::new(alloc);
    for slot in shape.slots.as_slice() {
        push_slot(&mut found, &shape.table, slot)?;
    }
    Ok(found)
}

// Puts the parameters of a slot at the end.
fn push_slot<'a>(
    found: &mut List<Parameter<'a>>,
    table: &'a DescTable,
    slot: &'a Slot,
) -> Result<(), AllocError>
    ensures { OnOk result (found.new ≡ found.old ++ parameters_of_slot table.now slot.now) }
{
    match slot {
        Slot::Path(desc) => push_fields(found, Place::Path, fields_of_struct(table, desc)),
        Slot::Query(desc) => push_fields(found, Place::Query, fields_of_struct(table, desc)),
        Slot::Header(desc) => push_fields(found, Place::Header, fields_of_struct(table, desc)),
        Slot::PagedQuery { scan, .. } => {
            push_fields(found, Place::Query, fields_of_struct(table, scan))
        }
        Slot::TypedBody(_, _) => Ok(()),
        Slot::RawBody => Ok(()),
        Slot::StreamBody => Ok(()),
    }
}

// Puts the fields of one place at the end.
fn push_fields<'a>(
    found: &mut List<Parameter<'a>>,
    place: Place,
    fields: &'a [Field],
) -> Result<(), AllocError>
    ensures { OnOk result (found.new ≡ found.old ++ map (parameter_at place) fields.now) }
{
    for field in fields {
        found.push(Parameter { place, field })?;
    }
    Ok(())
}

/// The names of the parameters in a place. Fails only for want of memory.
pub fn names_in(
    alloc: Global,
    place: Place,
    parameters: &[Parameter<'_>],
) -> Result<List<Text>, AllocError>
    ensures { IfOk result (λ names. names ≡ map name_of (filter (is_in place) parameters.now)) }
{
    let mut names = List::new(alloc);
    for parameter in parameters {
        if parameter.place == place {
            names.push(parameter.name().copy(alloc)?)?;
        }
    }
    Ok(names)
}
