//! The responses that replies are sent as.
ghost use Rattle.std.specs.Prelude.{◌≡◌, IfErr, IfOk, OnErr};
ghost use Rattle.http_status.specs.Errors.{internal_error};
ghost use Rattle.handler_shapes.specs.ShapeChecks.{ContentPasses, ResponsePasses, ShapePasses};
ghost use Rattle.typed_values.specs.Checks.{TablePasses};
ghost use Rattle.api_respond.specs.Encodes.{AreSent, Encodes, RefusalEncodes, SuccessEncodes};
ghost use Rattle.api_respond.specs.Encodes.{WhyUnsent};
ghost use Rattle.api_respond.specs.NamedHeaders.{IfRefusal};
ghost use Rattle.api_respond.specs.Replies.{ContentFits, JsonFits, ReplyFits, SuccessFits};
ghost use Rattle.api_respond.specs.Responses.{content_body, content_left, json_content};
ghost use Rattle.api_respond.specs.Responses.{success_left};

use crate::error_responses::{encode_error, json_body};
use crate::handler::RouteHandler;
use crate::named_headers::{Unwritten, content_lines, insert_named, told, written_headers};
use crate::reply::{Content, ErrorReply, Reply, SuccessReply};
use flat_maps::MapError;
use handler_shapes::{ApiEndpointResponse, ContentShape, HandlerShape};
use http_status::{Body, HeaderList, HttpError, RequestId, Response};
use schema_values::Text;
use std::alloc::{AllocError, Global};
use std::mem;
use typed_values::{DescTable, Tree};

/// The response that a reply of a handler is sent as, to the request of this id. A body of a
/// success moves into it, and leaves an empty one. Where the named headers are written as no map,
/// or one is no header line, the response is that of the handler's refusal of an internal error,
/// and nothing moves. Fails only for want of memory, and the reply is as it was then.
pub fn encode_reply(
    alloc: Global,
    handler: &dyn RouteHandler,
    reply: &mut Reply,
    request_id: &RequestId,
) -> Result<Response, AllocError>
    requires shape { ShapePasses (shape_of handler.now) }
    requires reply { ReplyFits (shape_of handler.now) reply.old }
    ensures encodes { IfOk result (λ response. Encodes
        (shape_of handler.now) (turns handler.now) reply.old request_id.now response reply.new) }
    ensures err { OnErr result (reply.new ≡ reply.old) }
{
    match reply {
        Reply::Success(success) => encode_success(alloc, handler, success, request_id),
        Reply::Failure(error) => encode_error(alloc, handler.shape(), error, request_id),
    }
}

/// The response that a handler's refusal of an error is sent as, to the request of this id. Fails
/// only for want of memory.
pub fn encode_refusal(
    alloc: Global,
    handler: &dyn RouteHandler,
    error: HttpError,
    request_id: &RequestId,
) -> Result<Response, AllocError>
    requires { ShapePasses (shape_of handler.now) }
    ensures { IfOk result (RefusalEncodes
        (shape_of handler.now) (turns handler.now) error request_id.now) }
{
    match handler.refuse(alloc, error)? {
        ErrorReply::Http(error) => error.into_response(alloc, request_id),
        own => encode_error(alloc, handler.shape(), &own, request_id),
    }
}

fn encode_success(
    alloc: Global,
    handler: &dyn RouteHandler,
    success: &mut SuccessReply,
    request_id: &RequestId,
) -> Result<Response, AllocError>
    requires shape { ShapePasses (shape_of handler.now) }
    requires reply { SuccessFits
        (shape_of handler.now).table (shape_of handler.now).response success.old }
    ensures encodes { IfOk result (λ response. SuccessEncodes (shape_of handler.now)
        (turns handler.now) success.old request_id.now response success.new) }
    ensures err { OnErr result (success.new ≡ success.old) }
{
    let shape = handler.shape();
    match success_lines(alloc, &shape.table, &shape.response, success) {
        Ok(headers) => send(alloc, shape, success, headers),
        Err(Unwritten::Refused(message)) => encode_unsent(alloc, handler, message, request_id),
        Err(Unwritten::OutOfMemory) => Err(AllocError),
    }
}

// The response that tells that a success is not sent, and why.
fn encode_unsent(
    alloc: Global,
    handler: &dyn RouteHandler,
    message: Text,
    request_id: &RequestId,
) -> Result<Response, AllocError>
    requires { ShapePasses (shape_of handler.now) }
    ensures { IfOk result (RefusalEncodes
        (shape_of handler.now) (turns handler.now) (internal_error message) request_id.now) }
{
    let error = HttpError::for_internal_error(alloc, message)?;
    encode_refusal(alloc, handler, error, request_id)
}

// The header lines of a success: that of its content, the named ones and the others.
fn success_lines(
    alloc: Global,
    table: &DescTable,
    response: &ApiEndpointResponse,
    success: &SuccessReply,
) -> Result<HeaderList, Unwritten>
    requires table { TablePasses table.now }
    requires response { ResponsePasses table.now response.now }
    ensures sent { IfOk result (AreSent table.now response.now success.now) }
    ensures refused { IfErr result (λ e. IfRefusal e
        (WhyUnsent table.now response.now success.now)) }
{
    let named = match written_headers(alloc, table, &response.headers, &success.named) {
        Ok(named) => named,
        Err(MapError::Refused(text)) => {
            return Err(told(alloc, "error processing headers: ", &text));
        }
        Err(MapError::OutOfMemory) => return Err(Unwritten::OutOfMemory),
    };
    let others = success.others.copy(alloc)?;
    let mut lines = insert_named(alloc, content_lines(alloc, &success.content)?, &named)?;
    lines.extend(others)?;
    Ok(lines)
}

// The response of a success with these header lines.
fn send(
    alloc: Global,
    shape: &HandlerShape,
    success: &mut SuccessReply,
    headers: HeaderList,
) -> Result<Response, AllocError>
    requires shape { ShapePasses shape.now }
    requires reply { SuccessFits shape.now.table shape.now.response success.old }
    ensures response { IfOk result (λ response. response ≡ record {
      status = success.old.status;
      headers = headers;
      body = content_body shape.now.table shape.now.response.content success.old.content;
    }) }
    ensures left { IfOk result (λ _. success.new ≡ success_left success.old) }
    ensures err { OnErr result (success.new ≡ success.old) }
{
    let body = content_body(
        alloc,
        &shape.table,
        &shape.response.content,
        &mut success.content,
    )?;
    Ok(Response {
        status: success.status,
        headers,
        body,
    })
}

fn content_body(
    alloc: Global,
    table: &DescTable,
    shape: &ContentShape,
    content: &mut Content,
) -> Result<Body, AllocError>
    requires table { TablePasses table.now }
    requires shape { ContentPasses table.now shape.now }
    requires content { ContentFits table.now shape.now content.old }
    ensures body { IfOk result (λ body. body ≡ content_body table.now shape.now content.old) }
    ensures left { IfOk result (λ _. content.new ≡ content_left content.old) }
    ensures err { OnErr result (content.new ≡ content.old) }
{
    match content {
        Content::Json(tree) => shaped_body(alloc, table, shape, tree),
        Content::Empty => Ok(Body::empty()),
        Content::Freeform(body) => Ok(mem::replace(body, Body::empty())),
        Content::Bare(body) => Ok(mem::replace(body, Body::empty())),
    }
}

// The JSON of a tree under the shape of a content.
fn shaped_body(
    alloc: Global,
    table: &DescTable,
    shape: &ContentShape,
    tree: &Tree,
) -> Result<Body, AllocError>
    requires table { TablePasses table.now }
    requires shape { ContentPasses table.now shape.now }
    requires fits { JsonFits table.now shape.now tree.now }
    ensures { IfOk result (λ body. body ≡ json_content table.now shape.now tree.now) }
{
    match shape {
        ContentShape::Json(desc, _) => json_body(alloc, table, desc, tree),
        ContentShape::Empty => unreachable!(),
        ContentShape::Freeform => unreachable!(),
    }
}
