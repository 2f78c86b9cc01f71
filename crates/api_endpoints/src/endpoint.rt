//! An endpoint: what is said of it, and what handles its requests.
ghost use Rattle.std.specs.Prelude.{◌≡◌, IfErr, IfOk, IsOkUnless, OnOk, Some};
ghost use Rattle.handler_shapes.specs.declared.shape.HandlerShape.{HandlerShape as ShapeValue};
ghost use Rattle.request_parts.specs.ContentTypes.{kind_of};
ghost use Rattle.api_endpoints.specs.NewEndpoints.{HasNoFurtherWords, IsWhyNotMade, MayBeMade, TellsSlots};

use crate::new_error::NewEndpointError;
use api_respond::RouteHandler;
use api_versions::ApiEndpointVersions;
use endpoint_metadata::{ApiEndpointParameter, ExtensionMode, ExtractorMetadata, metadata};
use handler_shapes::HandlerShape;
use http::Method;
use path_templates::ParsedPath;
use request_parts::{ApiEndpointBodyContentType, Unsupported};
use schema_values::{List, Text};
use std::alloc::Global;

/// A method and a path, the versions of the API in which they are served, what documents say of them, and the
/// handler of their requests. Contracts see the path as its characters.
#[derive(Drop)]
pub struct ApiEndpoint {
    /// How many bytes a body has at most, where that is not the server's default.
    pub request_body_max_bytes: Option<u64>,
    /// A short text on it, for documents.
    pub summary: Option<Text>,
    /// A longer text on it, for documents.
    pub description: Option<Text>,
    /// Whether documents show it.
    pub visible: bool,
    /// Whether documents say that it should no longer be used.
    pub deprecated: bool,
    pub(crate) operation_id: Text,
    pub(crate) handler: Box<dyn RouteHandler>,
    pub(crate) method: Method,
    // with the template that it is, so that a request's variables are looked at without memory
    pub(crate) path: ParsedPath,
    pub(crate) body_content_type: ApiEndpointBodyContentType,
    pub(crate) versions: ApiEndpointVersions,
    pub(crate) tags: List<Text>,
    pub(crate) parameters: List<ApiEndpointParameter>,
    pub(crate) extension_mode: ExtensionMode,
}

impl ApiEndpoint {
    /// An endpoint whose requests this handler handles, which documents show without further texts and tags. The
    /// media type is that of a typed body; it is looked at first. The path is looked at where the endpoint is
    /// registered.
    pub fn new(
        alloc: Global,
        operation_id: Text,
        handler: Box<dyn RouteHandler>,
        method: Method,
        content_type: &str,
        path: Text,
        versions: ApiEndpointVersions,
    ) -> Result<ApiEndpoint, NewEndpointError>
        ensures operation_id { IfOk result (λ e. e.operation_id ≡ operation_id) }
        ensures handler { IfOk result (λ e. e.handler ≡ handler) }
        ensures method { IfOk result (λ e. e.method ≡ method) }
        ensures path { IfOk result (λ e. e.path ≡ path) }
        ensures versions { IfOk result (λ e. e.versions ≡ versions) }
        ensures plain { IfOk result HasNoFurtherWords }
        ensures kind { IfOk result (λ e. kind_of content_type.now ≡ Some e.body_content_type) }

        // Its parameters are those of the handler's slots, and so is whether it answers in pages.
        ensures slots { IfOk result (TellsSlots (shape_of handler)) }

        // An error has its cause, and where none stands there is an endpoint, unless memory ran out.
        ensures may { OnOk result (MayBeMade content_type.now (shape_of handler)) }
        ensures refused { IfErr result (IsWhyNotMade content_type.now (shape_of handler)) }
        ensures complete { MayBeMade content_type.now (shape_of handler)
            → IsOkUnless result NewEndpointError.OutOfMemory }
    {
        let body_content_type = body_kind(alloc, content_type)?;
        let shape = shape_in(&handler);
        let ExtractorMetadata {
            extension_mode,
            parameters,
        } = metadata(alloc, &shape.slots, &shape.table, body_content_type)?;
        let path = ParsedPath::new(alloc, path)?;
        Ok(ApiEndpoint {
            request_body_max_bytes: None,
            summary: None,
            description: None,
            visible: true,
            deprecated: false,
            operation_id,
            handler,
            method,
            path,
            body_content_type,
            versions,
            tags: List::new(alloc),
            parameters,
            extension_mode,
        })
    }

    /// An endpoint for documents alone, whose requests a stub handles: an endpoint as `new` makes it.
    pub fn new_for_types(
        alloc: Global,
        operation_id: Text,
        stub: Box<dyn RouteHandler>,
        method: Method,
        content_type: &str,
        path: Text,
        versions: ApiEndpointVersions,
    ) -> Result<ApiEndpoint, NewEndpointError>
        ensures operation_id { IfOk result (λ e. e.operation_id ≡ operation_id) }
        ensures handler { IfOk result (λ e. e.handler ≡ stub) }
        ensures method { IfOk result (λ e. e.method ≡ method) }
        ensures path { IfOk result (λ e. e.path ≡ path) }
        ensures versions { IfOk result (λ e. e.versions ≡ versions) }
        ensures plain { IfOk result HasNoFurtherWords }
        ensures kind { IfOk result (λ e. kind_of content_type.now ≡ Some e.body_content_type) }
        ensures slots { IfOk result (TellsSlots (shape_of stub)) }
        ensures may { OnOk result (MayBeMade content_type.now (shape_of stub)) }
        ensures refused { IfErr result (IsWhyNotMade content_type.now (shape_of stub)) }
        ensures complete { MayBeMade content_type.now (shape_of stub)
            → IsOkUnless result NewEndpointError.OutOfMemory }
    {
        ApiEndpoint::new(
            alloc,
            operation_id,
            stub,
            method,
            content_type,
            path,
            versions,
        )
    }
}

// What a handler in a box takes and gives: a call of its own, whose clause speaks of the box, as those of `new` do.
fn shape_in(handler: &Box<dyn RouteHandler>) -> &HandlerShape
    ensures { result.now ≡ shape_of handler.now }
{
    handler.shape()
}

// The kind of bodies of a media type.
fn body_kind(
    alloc: Global,
    content_type: &str,
) -> Result<ApiEndpointBodyContentType, NewEndpointError>
    ensures kind { IfOk result (λ kind. kind_of content_type.now ≡ Some kind) }
    ensures refused { (shape : ShapeValue) → IfErr result (IsWhyNotMade content_type.now shape) }
{
    match ApiEndpointBodyContentType::from_mime_type(content_type) {
        Ok(kind) => Ok(kind),
        Err(Unsupported) => Err(NewEndpointError::UnsupportedMime(Text::from_str(
            alloc,
            content_type,
        )?)),
    }
}
