//! What a handler is told of a request besides its arguments.
ghost use Rattle.std.specs.Prelude.{◌≡◌, IfOk, min, unwrap_or};
ghost use Rattle.std.specs.NonZero.{non_zero_u32_get};
ghost use Rattle.api_respond.specs.Contexts.{item_count};

use http_status::RequestId;
use request_parts::{ApiEndpointBodyContentType, RequestInfo, ServerConfig};
use schema_values::{Text, VariableSet, copy_variables};
use std::alloc::{AllocError, Global};
use std::marker::Model;
use std::num::NonZeroU32;

/// What a handler is told of its endpoint. Contracts see the variables as the list of their
/// entries, in the order of the names.
#[derive(Drop)]
pub struct RequestEndpointMetadata {
    /// The name of the operation in documents.
    pub operation_id: Text,
    /// What the variables of the path stand for.
    pub variables: VariableSet,
    /// The kind of the body.
    pub body_content_type: ApiEndpointBodyContentType,
    /// How many bytes a body has at most, where the endpoint says.
    pub request_body_max_bytes: Option<u64>,
}

impl Model for RequestEndpointMetadata {
    ghost use Rattle.api_respond.specs.Contexts.{Metadata};

    ghost Value = { Metadata };

    ghost view = { λ endpoint. record {
      operation_id = endpoint.operation_id;
      variables = endpoint.variables.entries;
      body_content_type = endpoint.body_content_type;
      request_body_max_bytes = endpoint.request_body_max_bytes;
    } };
}

impl RequestEndpointMetadata {
    /// The same, once more. Fails only for want of memory.
    pub fn copy(&self, alloc: Global) -> Result<RequestEndpointMetadata, AllocError>
        ensures { IfOk result (λ copy. copy ≡ self.now) }
    {
        Ok(RequestEndpointMetadata {
            operation_id: self.operation_id.copy(alloc)?,
            variables: copy_variables(alloc, &self.variables)?,
            body_content_type: self.body_content_type,
            request_body_max_bytes: self.request_body_max_bytes,
        })
    }
}

/// What a handler is told of a request besides its arguments.
#[derive(Drop)]
pub struct RequestContext {
    /// The endpoint.
    pub endpoint: RequestEndpointMetadata,
    /// The id of the request.
    pub request_id: RequestId,
    /// The head of the request.
    pub request: RequestInfo,
    /// The limits of the server.
    pub config: ServerConfig,
}

impl RequestContext {
    /// How many items a page has at most, where the client gives this limit: no more than the
    /// server's maximum, and the server's default where the client gives none. It takes no memory.
    pub fn page_limit(&self, limit: Option<NonZeroU32>) -> NonZeroU32
        ensures { non_zero_u32_get result ≡ item_count self.now.config limit }
    {
        match limit {
            Some(limit) => lesser(limit, self.config.page_max_nitems),
            None => self.config.page_default_nitems,
        }
    }

    /// How many bytes the body has at most: as the endpoint says, and else the server's default. It
    /// takes no memory.
    pub fn request_body_max_bytes(&self) -> u64
        ensures { result ≡ unwrap_or self.now.endpoint.request_body_max_bytes
            self.now.config.default_request_body_max_bytes }
    {
        self.endpoint
            .request_body_max_bytes
            .unwrap_or(self.config.default_request_body_max_bytes)
    }

    /// A context equal to this one. Fails only for want of memory.
    pub fn copy(&self, alloc: Global) -> Result<RequestContext, AllocError>
        ensures { IfOk result (λ copy. copy ≡ self.now) }
    {
        Ok(RequestContext {
            config: self.config,
            request_id: self.request_id.copy(alloc)?,
            endpoint: self.endpoint.copy(alloc)?,
            request: self.request.copy(alloc)?,
        })
    }
}

fn lesser(count: NonZeroU32, other: NonZeroU32) -> NonZeroU32
    ensures { non_zero_u32_get result ≡ min (non_zero_u32_get count) (non_zero_u32_get other) }
{
    if count.get() < other.get() {
        count
    } else {
        other
    }
}
