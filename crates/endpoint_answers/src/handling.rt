//! Calling the handler of an endpoint.
ghost use Rattle.std.specs.Prelude.{◌≡◌, ◌⊎◌, IfOk, OnErr};
ghost use Rattle.request_parts.specs.Requests.{Request};
ghost use Rattle.request_parts.specs.declared.config.ServerConfig.{ServerConfig as ConfigValue};
ghost use Rattle.handler_shapes.specs.Arguments.{ArgsFit};
ghost use Rattle.handler_shapes.specs.ShapeChecks.{ShapePasses};
ghost use Rattle.api_respond.specs.declared.reply.Reply.{Reply as ReplyValue};
ghost use Rattle.api_endpoints.specs.Endpoints.{boxed, shape_at};
ghost use Rattle.endpoint_answers.specs.Answering.{IsHandledWith};
ghost use Rattle.endpoint_answers.specs.Exchanges.{MayReply, called, context_of};

use crate::outcome::Exchange;
use api_endpoints::ApiEndpoint;
use api_respond::{RequestContext, RequestEndpointMetadata, RouteHandler, encode_reply};
use handler_shapes::ArgList;
use http_status::RequestId;
use request_parts::{RequestParts, ServerConfig};
use schema_values::copy_variables;
use std::alloc::{AllocError, Global};
use tree_store::Store;

/// Calls the handler on arguments, and encodes its reply.
pub(crate) fn handle(
    alloc: Global,
    endpoint: &ApiEndpoint,
    store: &mut Store,
    request: &RequestParts,
    request_id: RequestId,
    config: &ServerConfig,
    args: ArgList,
) -> Result<Exchange, AllocError>
    requires shape { ShapePasses (shape_at (boxed ⟦<dyn RouteHandler as RouteHandler>⟧) endpoint.now) }
    requires id { request_id ≡ request.now.request_id }
    requires fit { ArgsFit
        (shape_at (boxed ⟦<dyn RouteHandler as RouteHandler>⟧) endpoint.now).table
        (shape_at (boxed ⟦<dyn RouteHandler as RouteHandler>⟧) endpoint.now).slots args }
    ensures sent { IfOk result (λ exchange. IsHandledWith (boxed ⟦<dyn RouteHandler as RouteHandler>⟧)
        endpoint.now (called config.now request.now store.old) args exchange store.new) }
    ensures lost { OnErr result ((store.new ≡ store.old) ⊎ ((reply : ReplyValue)
        × MayReply (boxed ⟦<dyn RouteHandler as RouteHandler>⟧) endpoint.now
        (called config.now request.now store.old) args reply store.new)) }
{
    let context = context_of(alloc, endpoint, request, request_id, config)?;
    reply_in(alloc, endpoint, &context, store, args)
}

// Calls the handler in a context, and encodes its reply. The context is lent, so that only the arguments and the reply
// are owned while more can fail.
fn reply_in(
    alloc: Global,
    endpoint: &ApiEndpoint,
    context: &RequestContext,
    store: &mut Store,
    args: ArgList,
) -> Result<Exchange, AllocError>
    requires shape { ShapePasses (shape_at (boxed ⟦<dyn RouteHandler as RouteHandler>⟧) endpoint.now) }
    requires fit { ArgsFit
        (shape_at (boxed ⟦<dyn RouteHandler as RouteHandler>⟧) endpoint.now).table
        (shape_at (boxed ⟦<dyn RouteHandler as RouteHandler>⟧) endpoint.now).slots args }
    ensures sent { (config : ConfigValue) (request : Request) → context.now ≡ context_of endpoint.now config request
        → IfOk result (λ exchange. IsHandledWith (boxed ⟦<dyn RouteHandler as RouteHandler>⟧)
        endpoint.now (called config request store.old) args exchange store.new) }
    ensures lost { (config : ConfigValue) (request : Request) → context.now ≡ context_of endpoint.now config request
        → OnErr result ((store.new ≡ store.old) ⊎ ((reply : ReplyValue)
        × MayReply (boxed ⟦<dyn RouteHandler as RouteHandler>⟧) endpoint.now
        (called config request store.old) args reply store.new)) }
{
    let handler = endpoint.handler();
    let mut args = args;
    let mut reply = handler.handle(alloc, context, store, &mut args)?;
    let response = encode_reply(alloc, handler, &mut reply, &context.request_id)?;
    Ok(Exchange::Handled {
        args,
        reply,
        response,
    })
}

// What the handler is told besides its arguments.
fn context_of(
    alloc: Global,
    endpoint: &ApiEndpoint,
    request: &RequestParts,
    request_id: RequestId,
    config: &ServerConfig,
) -> Result<RequestContext, AllocError>
    requires { request_id ≡ request.now.request_id }
    ensures { IfOk result (λ context. context ≡ context_of endpoint.now config.now request.now) }
{
    Ok(RequestContext {
        endpoint: RequestEndpointMetadata {
            operation_id: endpoint.operation_id().copy(alloc)?,
            variables: copy_variables(alloc, &request.variables)?,
            body_content_type: *endpoint.body_content_type(),
            request_body_max_bytes: endpoint.request_body_max_bytes,
        },
        request_id,
        request: request.info.copy(alloc)?,
        config: *config,
    })
}
