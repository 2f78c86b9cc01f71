//! The cause that stands against the types of a handler.
ghost use Rattle.std.specs.Prelude.{◌↔◌, Contains, IfNone, IfOk, IfSome, IsTrue, codes};
ghost use Rattle.handler_shapes.specs.ShapeLengths.{ShapeHasShortLengths};
ghost use Rattle.handler_shapes.specs.declared.slot.Slot.{Slot as SlotValue};
ghost use Rattle.endpoint_parameters.specs.Told.{IsTried, Says};
ghost use Rattle.endpoint_checks.specs.Types.{HasUnsupportedSchema, IsOpenStruct, IsSupported};
ghost use Rattle.endpoint_checks.specs.Types.{TakesOpenStruct};

use api_declarations::Declaration;
use descriptors::{Desc, DescTable};
use endpoint_parameters::open_fields;
use handler_shapes::{HandlerShape, Slot, shape_passes};
use schema_values::Text;
use std::alloc::{AllocError, Global};

/// What is told of an endpoint with a type that does not pass its checks, or with parameters or named
/// headers that are no struct of any names.
pub fn unsupported_schema_told(
    alloc: Global,
    endpoint: &Declaration<'_>,
) -> Result<Option<Text>, AllocError>
    ensures told { IfOk result (IsTried (Says (HasUnsupportedSchema endpoint.now)
        (codes "unsupported schema"))) }
    ensures clear { IfOk result (λ told. IfNone told (IsSupported endpoint.now.shape)) }
    ensures lengths { IfOk result (λ told. IfNone told (ShapeHasShortLengths endpoint.now.shape)) }
{
    if is_supported(endpoint.shape) {
        return Ok(None);
    }
    Ok(Some(Text::from_ascii(alloc, "unsupported schema")?))
}

fn is_supported(shape: &HandlerShape) -> bool
    ensures told { IsTrue result ↔ IsSupported shape.now }
    ensures lengths { IsTrue result → ShapeHasShortLengths shape.now }
{
    shape_passes(shape)
        && take_open_structs(&shape.table, shape.slots.as_slice())
        && is_open_if_given(&shape.table, &shape.response.headers)
}

fn take_open_structs(table: &DescTable, slots: &[Slot]) -> bool
    ensures { IsTrue result
        ↔ ((slot : SlotValue) → Contains slots.now slot → TakesOpenStruct table.now slot) }
{
    for slot in slots {
        if !takes_open_struct(table, slot) {
            return false;
        }
    }
    true
}

fn takes_open_struct(table: &DescTable, slot: &Slot) -> bool
    ensures { IsTrue result ↔ TakesOpenStruct table.now slot.now }
{
    match slot {
        Slot::Path(desc) => is_open_struct(table, desc),
        Slot::Query(desc) => is_open_struct(table, desc),
        Slot::Header(desc) => is_open_struct(table, desc),
        Slot::PagedQuery { scan, .. } => is_open_struct(table, scan),
        Slot::TypedBody(_, _) => true,
        Slot::RawBody => true,
        Slot::StreamBody => true,
    }
}

fn is_open_if_given(table: &DescTable, headers: &Option<Desc>) -> bool
    ensures { IsTrue result ↔ IfSome headers.now (IsOpenStruct table.now) }
{
    match headers {
        Some(desc) => is_open_struct(table, desc),
        None => true,
    }
}

// Whether a descriptor is a struct that takes unknown names, itself or behind references.
fn is_open_struct(table: &DescTable, desc: &Desc) -> bool
    ensures { IsTrue result ↔ IsOpenStruct table.now desc.now }
{
    open_fields(table, desc).is_some()
}
