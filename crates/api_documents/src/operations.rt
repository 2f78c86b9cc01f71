// The operations of a document.
ghost use Rattle.std.specs.Prelude.{◌≡◌, All, IfOk, map};
ghost use Rattle.std.specs.Option.{option_copied};
ghost use Rattle.handler_shapes.specs.ShapeChecks.{ShapePasses};
ghost use Rattle.path_templates.specs.Places.{places_at};
ghost use Rattle.api_documents.specs.Operations.{operation_of};
ghost use Rattle.api_documents.specs.Places.{item_at, operation_by};

use crate::bodies::body_of;
use crate::error_names::NamedError;
use crate::listed::{ListedPaths, at_method};
use crate::parameters::{first_asked, parameters};
use crate::responses::responses;
use api_declarations::Declaration;
use endpoint_metadata::copy_texts;
use openapi_values::{Operation, PathItem};
use schema_values::{Boxed, List, Text};
use std::alloc::{AllocError, Global};

/// Each path with its operations.
pub(crate) fn path_items(
    alloc: Global,
    named: &[NamedError<'_>],
    declarations: &[Declaration<'_>],
    listed_paths: &ListedPaths,
) -> Result<List<(Text, PathItem)>, AllocError>
    requires { All (λ d. ShapePasses d.shape) declarations.now }
    ensures { IfOk result (λ items. items ≡ map (λ path. (
      path,
      item_at named.now declarations.now
          (places_at listed_paths.now.index path),
    )) listed_paths.now.paths) }
{
    let mut items = List::new(alloc);
    for path in listed_paths.paths.as_slice() {
        let places = listed_paths.index.at(path);
        let item = path_item(alloc, named, declarations, places)?;
        items.push((path.copy(alloc)?, item))?;
    }
    Ok(items)
}

// The operations of the endpoints at some places.
fn path_item(
    alloc: Global,
    named: &[NamedError<'_>],
    declarations: &[Declaration<'_>],
    places: &[usize],
) -> Result<PathItem, AllocError>
    requires { All (λ d. ShapePasses d.shape) declarations.now }
    ensures { IfOk result (λ item. item ≡ item_at named.now declarations.now places.now) }
{
    let (get, put) = operations(alloc, named, declarations, places, "GET", "PUT")?;
    let (post, delete) = operations(alloc, named, declarations, places, "POST", "DELETE")?;
    let (options, head) = operations(alloc, named, declarations, places, "OPTIONS", "HEAD")?;
    let (patch, trace) = operations(alloc, named, declarations, places, "PATCH", "TRACE")?;
    Ok(PathItem {
        get,
        put,
        post,
        delete,
        options,
        head,
        patch,
        trace,
    })
}

// The operations of two methods.
fn operations(
    alloc: Global,
    named: &[NamedError<'_>],
    declarations: &[Declaration<'_>],
    places: &[usize],
    first: &str,
    second: &str,
) -> Result<(Option<Boxed<Operation>>, Option<Boxed<Operation>>), AllocError>
    requires { All (λ d. ShapePasses d.shape) declarations.now }
    ensures { IfOk result (λ operations. operations
        ≡ (
          operation_by named.now declarations.now places.now first.now,
          operation_by named.now declarations.now places.now second.now,
        )) }
{
    let first = operation_by(alloc, named, declarations, places, first)?;
    let second = operation_by(alloc, named, declarations, places, second)?;
    Ok((first, second))
}

fn operation_by(
    alloc: Global,
    named: &[NamedError<'_>],
    declarations: &[Declaration<'_>],
    places: &[usize],
    method: &str,
) -> Result<Option<Boxed<Operation>>, AllocError>
    requires { All (λ d. ShapePasses d.shape) declarations.now }
    ensures { IfOk result (λ operation. operation
        ≡ operation_by named.now declarations.now places.now method.now) }
{
    match at_method(declarations, places, method) {
        Some(declaration) => {
            let operation = operation_of(alloc, named, declaration)?;
            Ok(Some(Boxed::new(alloc, operation)?))
        }
        None => Ok(None),
    }
}

// The operation that an endpoint is listed as.
fn operation_of(
    alloc: Global,
    named: &[NamedError<'_>],
    declaration: &Declaration<'_>,
) -> Result<Operation, AllocError>
    requires { ShapePasses declaration.now.shape }
    ensures { IfOk result (λ operation. operation ≡ operation_of named.now declaration.now) }
{
    let shape = declaration.shape;
    let slots = shape.slots.as_slice();
    let tags = copy_texts(alloc, declaration.tags.as_slice())?;
    let operation_id = declaration.operation_id.copy(alloc)?;
    let pagination = first_asked(alloc, &shape.table, slots)?;
    let parameters = parameters(alloc, &shape.table, slots)?;
    let responses = responses(alloc, named, shape)?;
    let request_body = body_of(alloc, declaration.body_content_type, &shape.table, slots)?;
    let (summary, description) = lent_texts(alloc, declaration.summary, declaration.description)?;
    Ok(Operation {
        tags,
        summary,
        description,
        operation_id,
        parameters,
        request_body,
        responses,
        deprecated: declaration.deprecated,
        pagination,
    })
}

// Copies of two texts, where they are there.
fn lent_texts(
    alloc: Global,
    first: Option<&Text>,
    second: Option<&Text>,
) -> Result<(Option<Text>, Option<Text>), AllocError>
    ensures { IfOk result (λ copies. copies ≡ (option_copied first.entry, option_copied second.entry)) }
{
    let first = lent_text(alloc, first)?;
    let second = lent_text(alloc, second)?;
    Ok((first, second))
}

fn lent_text(alloc: Global, text: Option<&Text>) -> Result<Option<Text>, AllocError>
    ensures { IfOk result (λ copy. copy ≡ option_copied text.entry) }
{
    match text {
        Some(text) => Ok(Some(text.copy(alloc)?)),
        None => Ok(None),
    }
}
