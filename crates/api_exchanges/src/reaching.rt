//! Which endpoint a request reaches.
ghost use Rattle.std.specs.Prelude.{◌≡◌, IfErr, IfOk, IfSome, OnOk, option_map};
ghost use Rattle.api_endpoints.specs.Endpoints.{boxed};
ghost use Rattle.endpoint_answers.specs.Exchanges.{AreIndexed, HasId, IsUnreached, Reaches, named_by};

use api_declarations::{endpoint_at, endpoint_for};
use api_endpoints::ApiEndpoint;
use api_respond::RouteHandler;
use endpoint_answers::ExchangeError;
use http_status::{RequestId, RequestIdError};
use path_templates::PlaceIndex;
use request_parts::RequestParts;
use std::alloc::Global;

/// The endpoint that a request reaches, and its id. What is told before needs no memory.
pub(crate) fn reached<'s>(
    alloc: Global,
    endpoints: &'s [ApiEndpoint],
    index: &PlaceIndex,
    request: &RequestParts,
) -> Result<(&'s ApiEndpoint, RequestId), ExchangeError>
    requires { AreIndexed (boxed ⟦<dyn RouteHandler as RouteHandler>⟧) endpoints.now index.now }
    ensures reached { IfOk result (λ reached. Reaches (boxed ⟦<dyn RouteHandler as RouteHandler>⟧)
        endpoints.now request.now reached.0.now) }
    ensures id { IfOk result (λ reached. reached.1 ≡ request.now.request_id) }
    ensures unreached { IfErr result (IsUnreached (boxed ⟦<dyn RouteHandler as RouteHandler>⟧)
        endpoints.now request.now) }
{
    let request_id = id_of(alloc, request)?;
    let Some(endpoint) = named_by(alloc, endpoints, index, request) else {
        return Err(ExchangeError::NoSuchOperation);
    };
    if !endpoint.parsed_path().variables_match(&request.variables) {
        return Err(ExchangeError::WrongVariables);
    }
    // want of memory is told last
    match request_id {
        Some(request_id) => Ok((endpoint, request_id)),
        None => Err(ExchangeError::OutOfMemory),
    }
}

// The id of a request, or none for want of memory: that is told only of a request that reaches an endpoint.
fn id_of(alloc: Global, request: &RequestParts) -> Result<Option<RequestId>, ExchangeError>
    ensures id { IfOk result (λ found. IfSome found (λ id. id ≡ request.now.request_id)) }
    ensures valid { OnOk result (HasId request.now) }
    ensures bad { IfErr result (λ error. (error ≡ ExchangeError.BadRequestId)
        × ¬ HasId request.now) }
{
    match RequestId::new(alloc, request.request_id.as_str()) {
        Ok(id) => Ok(Some(id)),
        Err(RequestIdError::OutOfMemory) => Ok(None),
        Err(RequestIdError::BadRequestId) => Err(ExchangeError::BadRequestId),
    }
}

// The endpoint that a request names. Where there is no memory for the key of the index, all are gone through.
fn named_by<'s>(
    alloc: Global,
    endpoints: &'s [ApiEndpoint],
    index: &PlaceIndex,
    request: &RequestParts,
) -> Option<&'s ApiEndpoint>
    requires { AreIndexed (boxed ⟦<dyn RouteHandler as RouteHandler>⟧) endpoints.now index.now }
    ensures { option_map (λ e. e.now) result ≡ named_by
        (boxed ⟦<dyn RouteHandler as RouteHandler>⟧) endpoints.now request.now }
{
    let (version, template) = (&request.version, &request.template);
    let method = request.info.method();
    match endpoint_at(alloc, endpoints, index, version, method, template) {
        Ok(found) => found,
        Err(_) => endpoint_for(endpoints, version, method, template),
    }
}
