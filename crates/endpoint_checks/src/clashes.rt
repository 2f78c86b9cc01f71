//! The cause that stands against an endpoint beside those that serve the same.
ghost use Rattle.std.specs.Prelude.{◌≡◌, ◌++◌, ◌↔◌, IfOk, IsTrue, MatchOption, Some, codes, map};
ghost use Rattle.api_versions.specs.Overlaps.{Overlaps};
ghost use Rattle.path_templates.specs.Segments.{segments_of};
ghost use Rattle.path_templates.specs.Shapes.{path_shape};
ghost use Rattle.api_declarations.specs.Values.{DeclarationValue};
ghost use Rattle.endpoint_parameters.specs.Firsts.{IsFirstOf, IsSuchAt, NoneOf};
ghost use Rattle.endpoint_parameters.specs.Told.{IsTried};
ghost use Rattle.endpoint_checks.specs.Clashes.{IsCalledBeside, ServesSame};
ghost use Rattle.endpoint_checks.specs.EndpointIndexes.{IsIndexed};

use crate::index::EndpointIndex;
use crate::paths::{path_shape, push_method};
use api_declarations::{Declaration, Declared};
use http::Method;
use path_templates::Template;
use schema_values::Text;
use std::alloc::{AllocError, Global};

/// What is told of the first endpoint that serves the same method and templates of one shape.
pub fn path_clash_told<E: Declared>(
    alloc: Global,
    before: &[E],
    index: &EndpointIndex,
    template: &Option<Template>,
    endpoint: &Declaration<'_>,
) -> Result<Option<Text>, AllocError>
    requires index { IsIndexed (map E.declared before.now) index.now }
    requires template { template.now ≡ segments_of endpoint.now.path }
    ensures { IfOk result (IsTried (λ message. (other : DeclarationValue)
        × IsFirstOf (ServesSame endpoint.now) (map E.declared before.now) other
        × (message ≡ codes "endpoint " ++ other.operation_id ++ codes " already serves "
        ++ endpoint.now.method ++ codes " " ++ endpoint.now.path))) }
{
    let Some(template) = template else {
        return Ok(None);
    };
    let shape = template.shape(alloc)?;
    match first_serving(alloc, before, index, &shape, endpoint)? {
        Some(other) => {
            let other = other.declaration();
            Ok(Some(path_clash_message(alloc, endpoint, other.operation_id)?))
        }
        None => Ok(None),
    }
}

// The first endpoint that serves the same method and templates of one shape, among those that have
// a place at the shape.
fn first_serving<'s, E: Declared>(
    alloc: Global,
    before: &'s [E],
    index: &EndpointIndex,
    shape: &Text,
    endpoint: &Declaration<'_>,
) -> Result<Option<&'s E>, AllocError>
    requires index { IsIndexed (map E.declared before.now) index.now }
    requires shape { path_shape endpoint.now.path ≡ Some shape.now }
    ensures { IfOk result (λ first. MatchOption first
        (NoneOf (λ e. ServesSame endpoint.now (E.declared e)) before.now)
        (λ e. IsFirstOf (λ e. ServesSame endpoint.now (E.declared e)) before.now e.now)) }
{
    let mut first = before.len();
    for place in index.shapes.at(shape) {
        if *place < first && serves_same_at(alloc, before, *place, shape, endpoint)? {
            first = *place;
        }
    }
    Ok(before.get(first))
}

// Whether there is an endpoint at a place that serves the same method and templates of the shape.
fn serves_same_at<E: Declared>(
    alloc: Global,
    before: &[E],
    place: usize,
    shape: &Text,
    endpoint: &Declaration<'_>,
) -> Result<bool, AllocError>
    requires { path_shape endpoint.now.path ≡ Some shape.now }
    ensures { IfOk result (λ serves. IsTrue serves
        ↔ IsSuchAt (λ e. ServesSame endpoint.now (E.declared e)) before.now place) }
{
    match before.get(place) {
        Some(other) => serves_same(alloc, shape, endpoint, &other.declaration()),
        None => Ok(false),
    }
}

// Whether another endpoint serves the same method and templates of the shape.
fn serves_same(
    alloc: Global,
    shape: &Text,
    endpoint: &Declaration<'_>,
    other: &Declaration<'_>,
) -> Result<bool, AllocError>
    requires { path_shape endpoint.now.path ≡ Some shape.now }
    ensures { IfOk result (λ serves. IsTrue serves ↔ ServesSame endpoint.now other.now) }
{
    if !is_called_beside(endpoint, other) {
        return Ok(false);
    }
    has_shape(alloc, other.path, shape)
}

// Whether a path is a template of a shape.
fn has_shape(alloc: Global, path: &Text, shape: &Text) -> Result<bool, AllocError>
    ensures { IfOk result (λ has. IsTrue has ↔ (path_shape path.now ≡ Some shape.now)) }
{
    match path_shape(alloc, path)? {
        Some(other) => Ok(other.equals(shape)),
        None => Ok(false),
    }
}

// Whether another endpoint serves the same method, in versions that overlap.
fn is_called_beside(endpoint: &Declaration<'_>, other: &Declaration<'_>) -> bool
    ensures { IsTrue result ↔ IsCalledBeside endpoint.now other.now }
{
    is_method(endpoint.method, other.method) && overlap(endpoint, other)
}

fn is_method(method: &Method, other: &Method) -> bool
    ensures { IsTrue result ↔ (other.now ≡ method.now) }
{
    method.as_str() == other.as_str()
}

/// Whether the versions of two endpoints overlap.
pub(crate) fn overlap(endpoint: &Declaration<'_>, other: &Declaration<'_>) -> bool
    ensures { IsTrue result ↔ Overlaps endpoint.now.versions other.now.versions }
{
    endpoint.versions.overlaps_with(other.versions)
}

fn path_clash_message(
    alloc: Global,
    endpoint: &Declaration<'_>,
    operation_id: &Text,
) -> Result<Text, AllocError>
    ensures { IfOk result (λ message. message ≡ codes "endpoint " ++ operation_id.now
        ++ codes " already serves " ++ endpoint.now.method ++ codes " " ++ endpoint.now.path) }
{
    let mut message = Text::from_ascii(alloc, "endpoint ")?;
    message.push_text(operation_id)?;
    message.push_ascii(" already serves ")?;
    push_method(&mut message, endpoint.method)?;
    message.push_ascii(" ")?;
    message.push_text(endpoint.path)?;
    Ok(message)
}
