//! The checks of all descriptors of a shape.
ghost use Rattle.std.specs.Prelude.{◌↔◌, All, IfSome, IsTrue};
ghost use Rattle.typed_values.specs.Checks.{TablePasses, DescPasses};
ghost use Rattle.typed_values.specs.Lengths.{HasShortLengths};
ghost use Rattle.handler_shapes.specs.ShapeChecks.{ContentPasses, ErrorPasses, HeadersPass};
ghost use Rattle.handler_shapes.specs.ShapeChecks.{ResponsePasses, SelectorPasses, ShapePasses};
ghost use Rattle.handler_shapes.specs.ShapeChecks.{SlotPasses, SlotsPass};
ghost use Rattle.handler_shapes.specs.ShapeLengths.{ContentHasShortLengths};
ghost use Rattle.handler_shapes.specs.ShapeLengths.{SelectorHasShortLengths};
ghost use Rattle.handler_shapes.specs.ShapeLengths.{ResponseHasShortLengths, ShapeHasShortLengths};
ghost use Rattle.handler_shapes.specs.ShapeLengths.{SlotHasShortLengths};

use crate::shape::{ApiEndpointErrorResponse, ApiEndpointResponse, ContentShape, HandlerShape};
use crate::slot::Slot;
use typed_values::{Desc, DescTable, check_desc, check_table};

/// Whether the table of a shape and each descriptor that is read in it pass their checks, those of
/// selectors in their own tables. Takes no memory.
pub fn shape_passes(shape: &HandlerShape) -> bool
    ensures pass { IsTrue result ↔ ShapePasses shape.now }
    ensures lengths { IsTrue result → ShapeHasShortLengths shape.now }
{
    check_table(&shape.table).is_ok()
        && slots_pass(&shape.table, shape.slots.as_slice())
        && response_passes(&shape.table, &shape.response)
        && error_passes(&shape.table, &shape.error)
}

/// Whether the descriptors of a slot pass their checks in the table of a shape, that of a selector
/// in its own table. Takes no memory.
pub fn slot_passes(table: &DescTable, slot: &Slot) -> bool
    requires { TablePasses table.now }
    ensures pass { IsTrue result ↔ SlotPasses table.now slot.now }
    ensures lengths { IsTrue result → SlotHasShortLengths slot.now }
{
    match slot {
        Slot::Path(desc) | Slot::Query(desc) | Slot::Header(desc) => desc_passes(table, desc),
        Slot::PagedQuery {
            scan,
            selector,
            selector_table,
        } => desc_passes(table, scan) && selector_passes(selector_table, selector),
        Slot::TypedBody(desc, _) => desc_passes(table, desc),
        Slot::RawBody | Slot::StreamBody => true,
    }
}

fn slots_pass(table: &DescTable, slots: &[Slot]) -> bool
    requires { TablePasses table.now }
    ensures pass { IsTrue result ↔ SlotsPass table.now slots.now }
    ensures lengths { IsTrue result → All SlotHasShortLengths slots.now }
{
    for slot in slots {
        if !slot_passes(table, slot) {
            return false;
        }
    }
    true
}

// Whether a selector passes the checks with its own table.
fn selector_passes(table: &DescTable, selector: &Desc) -> bool
    ensures pass { IsTrue result ↔ SelectorPasses table.now selector.now }
    ensures lengths { IsTrue result → SelectorHasShortLengths table.now selector.now }
{
    check_table(table).is_ok() && desc_passes(table, selector)
}

fn response_passes(table: &DescTable, response: &ApiEndpointResponse) -> bool
    requires { TablePasses table.now }
    ensures pass { IsTrue result ↔ ResponsePasses table.now response.now }
    ensures lengths { IsTrue result → ResponseHasShortLengths response.now }
{
    content_passes(table, &response.content) && headers_pass(table, &response.headers)
}

fn content_passes(table: &DescTable, content: &ContentShape) -> bool
    requires { TablePasses table.now }
    ensures pass { IsTrue result ↔ ContentPasses table.now content.now }
    ensures lengths { IsTrue result → ContentHasShortLengths content.now }
{
    match content {
        ContentShape::Json(desc, _) => desc_passes(table, desc),
        ContentShape::Empty => true,
        ContentShape::Freeform => true,
    }
}

fn headers_pass(table: &DescTable, headers: &Option<Desc>) -> bool
    requires { TablePasses table.now }
    ensures pass { IsTrue result ↔ HeadersPass table.now headers.now }
    ensures lengths { IsTrue result → IfSome headers.now HasShortLengths }
{
    match headers {
        Some(desc) => desc_passes(table, desc),
        None => true,
    }
}

fn error_passes(table: &DescTable, error: &Option<ApiEndpointErrorResponse>) -> bool
    requires { TablePasses table.now }
    ensures pass { IsTrue result ↔ ErrorPasses table.now error.now }
    ensures lengths { IsTrue result → IfSome error.now (λ error. HasShortLengths error.desc) }
{
    match error {
        Some(error) => desc_passes(table, &error.desc),
        None => true,
    }
}

fn desc_passes(table: &DescTable, desc: &Desc) -> bool
    requires { TablePasses table.now }
    ensures pass { IsTrue result ↔ DescPasses table.now desc.now }
    ensures lengths { IsTrue result → HasShortLengths desc.now }
{
    check_desc(table, desc).is_ok()
}
