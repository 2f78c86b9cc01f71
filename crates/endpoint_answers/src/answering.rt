//! What an endpoint answers a request that reaches it.
ghost use Rattle.std.specs.Prelude.{◌≡◌, ◌⊎◌, ℕ, Err, IfOk, IsErrAnd, IsErrOf, IsOk};
ghost use Rattle.body_reading.specs.Flaws.{flaw_error};
ghost use Rattle.handler_shapes.specs.Arguments.{ArgsFit};
ghost use Rattle.handler_shapes.specs.ShapeChecks.{ShapePasses};
ghost use Rattle.api_respond.specs.Encodes.{RefusalEncodes};
ghost use Rattle.api_endpoints.specs.Endpoints.{boxed, shape_at, turns_at};
ghost use Rattle.endpoint_answers.specs.Answering.{IsGiven};
ghost use Rattle.endpoint_answers.specs.BodyReads.{TellsAsGiven};
ghost use Rattle.endpoint_answers.specs.Denoting.{IsOutcomeCutShort, IsFault, WasHandled};
ghost use Rattle.endpoint_answers.specs.Exchanges.{Asked, EndpointAnswers, called, limit_at};

use crate::handling::handle;
use crate::outcome::{Exchange, ExchangeError};
use api_endpoints::ApiEndpoint;
use api_extract::ExtractError;
use api_respond::{RouteHandler, encode_refusal};
use body_reading::BodyFlaw;
use handler_shapes::ArgList;
use http_status::{HttpError, RequestId, Response};
use request_parts::{RequestParts, ServerConfig};
use std::alloc::{AllocError, Global};
use tree_store::Store;

/// How many bytes a body has at most: as the endpoint says, and else the server.
pub fn limit_at(endpoint: &ApiEndpoint, config: &ServerConfig) -> u64
    ensures { result ≡ limit_at endpoint.now config.now }
{
    endpoint
        .request_body_max_bytes
        .unwrap_or(config.default_request_body_max_bytes)
}

/// What the endpoint answers a request of this id whose slots are given arguments, or an error. A number of frames, and
/// want of memory for the arguments, are handed on without asking for memory.
pub fn answer(
    alloc: Global,
    endpoint: &ApiEndpoint,
    store: &mut Store,
    request: &RequestParts,
    request_id: RequestId,
    config: &ServerConfig,
    given: Result<ArgList, ExtractError>,
) -> Result<Exchange, ExchangeError>
    requires shape { ShapePasses (shape_at (boxed ⟦<dyn RouteHandler as RouteHandler>⟧) endpoint.now) }
    requires id { request_id ≡ request.now.request_id }
    requires fit { IfOk given (ArgsFit
        (shape_at (boxed ⟦<dyn RouteHandler as RouteHandler>⟧) endpoint.now).table
        (shape_at (boxed ⟦<dyn RouteHandler as RouteHandler>⟧) endpoint.now).slots) }
    ensures answers { (a : Asked) → a.call ≡ called config.now request.now store.old
        → IsGiven (boxed ⟦<dyn RouteHandler as RouteHandler>⟧) endpoint.now a given
        → EndpointAnswers (boxed ⟦<dyn RouteHandler as RouteHandler>⟧) endpoint.now a result store.new }
    ensures handled { WasHandled result → IsOk given }
    ensures kept { (store.new ≡ store.old) ⊎ IsOk given }
    ensures read { TellsAsGiven given result }
    ensures fault { IsErrAnd result IsFault → IsErrOf given ExtractError.BodyFault }
    ensures cut { IsErrOf given ExtractError.BodyFault → IsOutcomeCutShort result }
    ensures budget { (count : ℕ) → IsErrOf given (ExtractError.FrameBudget count)
        → IsErrOf result (ExchangeError.FrameBudget count) }
    ensures handed_on { IsErrOf given ExtractError.OutOfMemory → IsErrOf result ExchangeError.OutOfMemory }
{
    match given {
        Ok(args) => Ok(handle(alloc, endpoint, store, request, request_id, config, args)?),
        Err(error) => refuse(alloc, endpoint, &request_id, config, error),
    }
}

// What is answered where the slots are not given arguments.
fn refuse(
    alloc: Global,
    endpoint: &ApiEndpoint,
    request_id: &RequestId,
    config: &ServerConfig,
    error: ExtractError,
) -> Result<Exchange, ExchangeError>
    requires { ShapePasses (shape_at (boxed ⟦<dyn RouteHandler as RouteHandler>⟧) endpoint.now) }
    ensures answers { (a : Asked) → a.call.config ≡ config.now
        → a.call.request.request_id ≡ request_id.now
        → IsGiven (boxed ⟦<dyn RouteHandler as RouteHandler>⟧) endpoint.now a (Err error)
        → EndpointAnswers (boxed ⟦<dyn RouteHandler as RouteHandler>⟧) endpoint.now a result a.call.store }
    ensures handled { ¬ WasHandled result }
    ensures read { TellsAsGiven (Err error) result }
    ensures fault { IsErrAnd result IsFault → error ≡ ExtractError.BodyFault }
    ensures cut { error ≡ ExtractError.BodyFault → IsOutcomeCutShort result }
    ensures budget { (count : ℕ) → error ≡ ExtractError.FrameBudget count
        → IsErrOf result (ExchangeError.FrameBudget count) }
    ensures handed_on { error ≡ ExtractError.OutOfMemory → IsErrOf result ExchangeError.OutOfMemory }
{
    match error {
        ExtractError::Refused(fault, message) => {
            let error = HttpError::for_bad_request(alloc, None, message)?;
            let response = refusal(alloc, endpoint, error, request_id)?;
            Ok(Exchange::Refused { fault, response })
        }
        ExtractError::BodyFault => {
            let response = flaw_refusal(alloc, endpoint, BodyFlaw::Fault, request_id)?;
            Err(ExchangeError::BodyFault(response))
        }
        ExtractError::BodyTooLarge(sum) => {
            let flaw = BodyFlaw::TooLarge(limit_at(endpoint, config));
            let response = flaw_refusal(alloc, endpoint, flaw, request_id)?;
            Err(ExchangeError::BodyTooLarge(sum, response))
        }
        ExtractError::FrameBudget(count) => Err(ExchangeError::FrameBudget(count)),
        ExtractError::OutOfMemory => Err(ExchangeError::OutOfMemory),
    }
}

// What is sent where something is wrong with the body.
fn flaw_refusal(
    alloc: Global,
    endpoint: &ApiEndpoint,
    flaw: BodyFlaw,
    request_id: &RequestId,
) -> Result<Response, AllocError>
    requires { ShapePasses (shape_at (boxed ⟦<dyn RouteHandler as RouteHandler>⟧) endpoint.now) }
    ensures { IfOk result (RefusalEncodes
        (shape_at (boxed ⟦<dyn RouteHandler as RouteHandler>⟧) endpoint.now)
        (turns_at (boxed ⟦<dyn RouteHandler as RouteHandler>⟧) endpoint.now)
        (flaw_error flaw) request_id.now) }
{
    refusal(alloc, endpoint, flaw.http_error(alloc)?, request_id)
}

// What is sent where the request is refused by an error. The handler says what is made of it.
fn refusal(
    alloc: Global,
    endpoint: &ApiEndpoint,
    error: HttpError,
    request_id: &RequestId,
) -> Result<Response, AllocError>
    requires { ShapePasses (shape_at (boxed ⟦<dyn RouteHandler as RouteHandler>⟧) endpoint.now) }
    ensures { IfOk result (RefusalEncodes
        (shape_at (boxed ⟦<dyn RouteHandler as RouteHandler>⟧) endpoint.now)
        (turns_at (boxed ⟦<dyn RouteHandler as RouteHandler>⟧) endpoint.now)
        error request_id.now) }
{
    encode_refusal(alloc, endpoint.handler(), error, request_id)
}
