//! What an endpoint shows.
ghost use Rattle.std.specs.Prelude.{◌≡◌};
ghost use Rattle.std.specs.Option.{option_copied};

use crate::endpoint::ApiEndpoint;
use api_respond::RouteHandler;
use api_versions::ApiEndpointVersions;
use endpoint_metadata::{ApiEndpointParameter, ExtensionMode};
use handler_shapes::{ApiEndpointErrorResponse, ApiEndpointResponse, HandlerShape};
use http::Method;
use path_templates::ParsedPath;
use request_parts::ApiEndpointBodyContentType;
use schema_values::{List, Text};

impl ApiEndpoint {
    /// The name of the operation in documents.
    pub fn operation_id(&self) -> &Text
        ensures { result.now ≡ self.now.operation_id }
    {
        &self.operation_id
    }

    /// The handler.
    pub fn handler(&self) -> &dyn RouteHandler
        ensures { result.now ≡ (self.now.handler.vtable, self.now.handler.value) }
    {
        &*self.handler
    }

    /// The method.
    pub fn method(&self) -> &Method
        ensures { result.now ≡ self.now.method }
    {
        &self.method
    }

    /// The path as it was given.
    pub fn path(&self) -> &Text
        ensures { result.now ≡ self.now.path }
    {
        self.path.text()
    }

    /// The path with the template that it is, if it is one.
    pub fn parsed_path(&self) -> &ParsedPath
        ensures { result.now ≡ self.now.path }
    {
        &self.path
    }

    /// The parameters, with the body, in the order of the handler's slots.
    pub fn parameters(&self) -> &List<ApiEndpointParameter>
        ensures { result.now ≡ self.now.parameters }
    {
        &self.parameters
    }

    /// The kind of bodies that a typed body is read from.
    pub fn body_content_type(&self) -> &ApiEndpointBodyContentType
        ensures { result.now ≡ self.now.body_content_type }
    {
        &self.body_content_type
    }

    /// What a success gives.
    pub fn response(&self) -> &ApiEndpointResponse
        ensures { result.now ≡ (shape_of self.now.handler).response }
    {
        &self.shape().response
    }

    /// What an error gives, where documents tell it.
    pub fn error(&self) -> Option<&ApiEndpointErrorResponse>
        ensures { option_copied result ≡ (shape_of self.now.handler).error }
    {
        self.shape().error.as_ref()
    }

    /// The tags, in the order in which they were given.
    pub fn tags(&self) -> &List<Text>
        ensures { result.now ≡ self.now.tags }
    {
        &self.tags
    }

    /// Whether the endpoint answers in pages, and with which names a request for the first one.
    pub fn extension_mode(&self) -> &ExtensionMode
        ensures { result.now ≡ self.now.extension_mode }
    {
        &self.extension_mode
    }

    /// The versions of the API in which the endpoint is served.
    pub fn versions(&self) -> &ApiEndpointVersions
        ensures { result.now ≡ self.now.versions }
    {
        &self.versions
    }

    /// What the handler takes and gives.
    pub fn shape(&self) -> &HandlerShape
        ensures { result.now ≡ shape_of self.now.handler }
    {
        self.handler.shape()
    }
}
