//! The causes that stand against how the slots of a handler stand together.
ghost use Rattle.std.specs.Prelude.{◌≡◌, ◌↔◌, Contains, IfNone, IfOk, IsTrue, codes, count_by};
ghost use Rattle.std.specs.List.{list_any};
ghost use Rattle.descriptors.specs.declared.desc.Field.{Field as FieldValue};
ghost use Rattle.handler_shapes.specs.BodySlots.{BodyComesLast};
ghost use Rattle.handler_shapes.specs.ScalarTypes.{IsScalarType};
ghost use Rattle.endpoint_parameters.specs.Told.{IsTried, Says};
ghost use Rattle.endpoint_checks.specs.Slots.{HasBadForm, HasBadPagination, HasEarlyBody};
ghost use Rattle.endpoint_checks.specs.Slots.{HasReadBodies, IsForm, IsReadAs};
ghost use Rattle.endpoint_checks.specs.Slots.{has_query_beside_pages, is_page_name};
ghost use Rattle.endpoint_checks.specs.Slots.{takes_page_name, takes_pages, takes_query};

use api_declarations::Declaration;
use descriptors::{Desc, DescTable, Field};
use endpoint_parameters::{Condition, fields_of_struct, first_of, is_scalar, open_fields};
use handler_shapes::{Slot, body_comes_last};
use request_parts::ApiEndpointBodyContentType;
use schema_values::Text;
use std::alloc::{AllocError, Global};

/// What is told of an endpoint of which a slot that is not the last takes the body.
pub fn two_bodies_told(
    alloc: Global,
    endpoint: &Declaration<'_>,
) -> Result<Option<Text>, AllocError>
    ensures told { IfOk result (IsTried (Says (HasEarlyBody endpoint.now)
        (codes "more than one body parameter"))) }
    ensures clear { IfOk result (λ told. IfNone told (BodyComesLast endpoint.now.shape.slots)) }
{
    if body_comes_last(endpoint.shape.slots.as_slice()) {
        return Ok(None);
    }
    Ok(Some(Text::from_ascii(alloc, "more than one body parameter")?))
}

/// A slot takes a body of a type that is not read under a media type.
#[derive(Drop)]
struct BadForm<'s> {
    table: &'s DescTable,
    kind: ApiEndpointBodyContentType,
}

impl<'s> Condition<Slot> for BadForm<'s> {
    ghost use Rattle.endpoint_checks.specs.Slots.{TakesBadForm, TakesReadBody};

    ghost Holds = { λ s. TakesBadForm s.table.now s.kind };

    ghost Clear = { λ s. TakesReadBody s.table.now s.kind };

    fn holds(&self, slot: &Slot) -> bool {
        match slot {
            Slot::TypedBody(desc, _) => !is_read_as(self.table, desc, self.kind),
            _ => false,
        }
    }
}

/// What is told of an endpoint whose body is of a type that is not read under its media type.
pub fn bad_form_told(alloc: Global, endpoint: &Declaration<'_>) -> Result<Option<Text>, AllocError>
    ensures told { IfOk result (IsTried (Says (HasBadForm endpoint.now)
        (codes "unsupported body form"))) }
    ensures clear { IfOk result (λ told. IfNone told (HasReadBodies endpoint.now)) }
{
    let bad = BadForm {
        table: &endpoint.shape.table,
        kind: endpoint.body_content_type,
    };
    match first_of(&bad, endpoint.shape.slots.as_slice()) {
        Some(_) => Ok(Some(Text::from_ascii(alloc, "unsupported body form")?)),
        None => Ok(None),
    }
}

// Whether a body of a type is read under a media type.
fn is_read_as(table: &DescTable, desc: &Desc, kind: ApiEndpointBodyContentType) -> bool
    ensures { IsTrue result ↔ IsReadAs table.now desc.now kind }
{
    match kind {
        ApiEndpointBodyContentType::Json => true,
        ApiEndpointBodyContentType::UrlEncoded => is_form(table, desc),
        ApiEndpointBodyContentType::Bytes => false,
        ApiEndpointBodyContentType::MultipartFormData => false,
    }
}

fn is_form(table: &DescTable, desc: &Desc) -> bool
    ensures { IsTrue result ↔ IsForm table.now desc.now }
{
    match open_fields(table, desc) {
        Some(fields) => are_scalar(table, fields),
        None => false,
    }
}

fn are_scalar(table: &DescTable, fields: &[Field]) -> bool
    ensures { IsTrue result
        ↔ ((field : FieldValue) → Contains fields.now field → IsScalarType table.now field.desc) }
{
    for field in fields {
        if !is_scalar(table, &field.desc) {
            return false;
        }
    }
    true
}

/// What is told of an endpoint with a query in pages beside another, or with a name that pages read
/// themselves.
pub fn bad_pagination_told(
    alloc: Global,
    endpoint: &Declaration<'_>,
) -> Result<Option<Text>, AllocError>
    ensures { IfOk result (IsTried (Says (HasBadPagination endpoint.now)
        (codes "unsupported pagination form"))) }
{
    let slots = endpoint.shape.slots.as_slice();
    if !has_query_beside_pages(slots) && !some_takes_page_name(&endpoint.shape.table, slots) {
        return Ok(None);
    }
    Ok(Some(Text::from_ascii(alloc, "unsupported pagination form")?))
}

fn has_query_beside_pages(slots: &[Slot]) -> bool
    ensures { result ≡ has_query_beside_pages slots.now }
{
    count_queries(slots) > 1 && some_takes_pages(slots)
}

fn count_queries(slots: &[Slot]) -> usize
    ensures { result ≡ count_by takes_query slots.now }
{
    slots.iter().filter(|slot| takes_query(*slot)).count()
}

fn takes_query(slot: &Slot) -> bool
    ensures { result ≡ takes_query slot.now }
{
    matches!(slot, Slot::Query(_) | Slot::PagedQuery { .. })
}

fn takes_pages(slot: &Slot) -> bool
    ensures { result ≡ takes_pages slot.now }
{
    matches!(slot, Slot::PagedQuery { .. })
}

fn some_takes_pages(slots: &[Slot]) -> bool
    ensures { result ≡ list_any takes_pages slots.now }
{
    slots.iter().any(|slot| takes_pages(slot))
}

fn some_takes_page_name(table: &DescTable, slots: &[Slot]) -> bool
    ensures { result ≡ list_any (takes_page_name table.now) slots.now }
{
    slots.iter().any(|slot| takes_page_name(table, slot))
}

fn takes_page_name(table: &DescTable, slot: &Slot) -> bool
    ensures { result ≡ takes_page_name table.now slot.now }
{
    match slot {
        Slot::PagedQuery { scan, .. } => has_page_name(fields_of_struct(table, scan)),
        _ => false,
    }
}

fn has_page_name(fields: &[Field]) -> bool
    ensures { result ≡ list_any (λ field. is_page_name field.name) fields.now }
{
    fields.iter().any(|field| is_page_name(&field.name))
}

fn is_page_name(name: &Text) -> bool
    ensures { result ≡ is_page_name name.now }
{
    name.equals_str("limit") || name.equals_str("page_token")
}
