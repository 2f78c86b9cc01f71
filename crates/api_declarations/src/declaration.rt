//! What is said of an endpoint without its handler, lent.
use api_versions::ApiEndpointVersions;
use handler_shapes::HandlerShape;
use http::Method;
use request_parts::ApiEndpointBodyContentType;
use schema_values::{List, Text};
use std::marker::Model;

/// What is said of an endpoint. Contracts see what it refers to.
#[derive(Drop)]
pub struct Declaration<'a> {
    /// The name of the operation in documents.
    pub operation_id: &'a Text,
    /// The method.
    pub method: &'a Method,
    /// The path as it was given.
    pub path: &'a Text,
    /// The kind of bodies that a typed body is read from.
    pub body_content_type: ApiEndpointBodyContentType,
    /// The versions of the API in which the endpoint is served.
    pub versions: &'a ApiEndpointVersions,
    /// Whether documents show it.
    pub visible: bool,
    /// Whether documents say that it should no longer be used.
    pub deprecated: bool,
    /// Its tags.
    pub tags: &'a List<Text>,
    /// A short text on it, for documents.
    pub summary: Option<&'a Text>,
    /// A longer text on it, for documents.
    pub description: Option<&'a Text>,
    /// How many bytes a body has at most, where that is not the server's default.
    pub body_limit: Option<u64>,
    /// What the handler takes and gives.
    pub shape: &'a HandlerShape,
}

impl<'a> Model for Declaration<'a> {
    ghost use Rattle.std.specs.Option.{option_copied};
    ghost use Rattle.api_versions.specs.Shown.{range_of};
    ghost use Rattle.api_declarations.specs.Values.{DeclarationValue};
    ghost use Rattle.api_declarations.specs.Codes.{declaration_code};

    ghost Value = { DeclarationValue };

    ghost coded = { declaration_code };

    ghost view = { λ d. record {
      operation_id = d.operation_id.now;
      method = d.method.now;
      path = d.path.now;
      body_content_type = d.body_content_type;
      versions = range_of d.versions.now;
      visible = d.visible;
      deprecated = d.deprecated;
      tags = d.tags.now;
      summary = option_copied d.summary;
      description = option_copied d.description;
      body_limit = d.body_limit;
      shape = d.shape.now;
    } };
}
