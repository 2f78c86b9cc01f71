//! The responses of handlers to requests. The request of a case, its body and how it is read are
//! noted as requests.rt and reading.rt of `endpoint_notation` say.
ghost use Rattle.std.specs.Prelude.{◌<◌, ◌-◌, ◌^◌, IfOk};
ghost use Rattle.handler_shapes.specs.Arguments.{ArgsFit};
ghost use Rattle.handler_shapes.specs.ShapeChecks.{ShapePasses};
ghost use Rattle.api_respond.specs.Replies.{ReplyFits};

use crate::content::content_told;
use crate::handler::handler_of;
use api_extract::{ExtractError, extract_from};
use api_respond::{
    Reply, RequestContext, RequestEndpointMetadata, RouteHandler, encode_refusal, encode_reply,
};
use case_notation::{CaseError, Record, Row, both, check_names, given, say};
use endpoint_notation::{
    Reading, are_served, body_of, bytes_noted, parts_of, reading_of, request_at, request_id_of,
    shape_of,
};
use handler_shapes::{ArgList, HandlerShape, shape_passes};
use http_status::{Body, HeaderList, HttpError, RequestId, Response};
use request_parts::{RequestParts, ServerConfig};
use schema_values::{Json, Scratch, Text, copy_variables};
use std::alloc::{AllocError, Global};
use std::num::NonZeroU32;
use tree_store::Store;

const MEMBERS: [&str; 9] = [
    "table", "slots", "response", "error", "gives", "named", "others", "status", "fails",
];

/// The response of the handler of a case to its request.
pub fn reply_told(alloc: Global, case: &Json) -> Result<Json, CaseError> {
    let noted = given(case, "handler")?;
    check_names(noted, &MEMBERS)?;
    let shape = shape_at(alloc, noted)?;
    answer_by(alloc, case, noted, &shape)
}

// A copy of the shape that is noted, without errors where none are noted.
fn shape_at(alloc: Global, noted: &Json) -> Result<Box<HandlerShape>, CaseError> {
    let mut shape = Box::new(alloc, shape_of(alloc, noted)?)?;
    if noted.get("error").is_none() {
        shape.error = None;
    }
    copied(alloc, &shape)
}

fn copied(alloc: Global, shape: &HandlerShape) -> Result<Box<HandlerShape>, CaseError> {
    Ok(Box::new(alloc, shape.copy(alloc)?)?)
}

fn answer_by(
    alloc: Global,
    case: &Json,
    noted: &Json,
    shape: &HandlerShape,
) -> Result<Json, CaseError> {
    let handler = handler_of(shape, noted)?;
    answer_of(alloc, case, &handler)
}

fn answer_of(alloc: Global, case: &Json, handler: &dyn RouteHandler) -> Result<Json, CaseError> {
    let noted = request_at(case)?;
    let request = Box::new(alloc, parts_of(alloc, case, noted)?)?;
    answered(alloc, case, handler, noted, &request)
}

fn answered(
    alloc: Global,
    case: &Json,
    handler: &dyn RouteHandler,
    noted: &Json,
    request: &RequestParts,
) -> Result<Json, CaseError> {
    let reading = reading_of(alloc, case)?;
    let id = request_id_of(alloc, request.request_id.as_str())?;
    let mut response = exchanged(alloc, handler, noted, request, reading, &id)?;
    response_told(alloc, handler.label(), &mut response)
}

fn exchanged(
    alloc: Global,
    handler: &dyn RouteHandler,
    noted: &Json,
    request: &RequestParts,
    reading: Reading,
    id: &RequestId,
) -> Result<Response, CaseError>
    requires { reading.budget < 2 ^ 64 - 1 }
{
    let mut body = body_of(alloc, noted)?;
    response_to(alloc, handler, request, reading, &mut body, id)
}

fn response_to(
    alloc: Global,
    handler: &dyn RouteHandler,
    request: &RequestParts,
    reading: Reading,
    body: &mut Body,
    id: &RequestId,
) -> Result<Response, CaseError>
    requires { reading.budget < 2 ^ 64 - 1 }
{
    let shape = handler.shape();
    if !shape_passes(shape) {
        return Err(CaseError::Expected("a shape that passes its checks"));
    }
    if !are_served(&shape.table, shape.slots.as_slice()) {
        return Err(CaseError::Expected("slots that can be served"));
    }
    match extract_from(
        alloc,
        &mut Scratch::new(alloc),
        &shape.slots,
        &shape.table,
        request,
        reading.kind,
        body,
        reading.limit,
        reading.budget,
    ) {
        Ok(args) => handled(alloc, handler, request, reading, id, args),
        Err(ExtractError::Refused(_, message)) => refused(alloc, handler, message, id),
        Err(ExtractError::OutOfMemory) => Err(CaseError::OutOfMemory),
        Err(_) => Err(CaseError::Expected("a body that can be read")),
    }
}

// The response to a request that is refused for this reason.
fn refused(
    alloc: Global,
    handler: &dyn RouteHandler,
    message: Text,
    id: &RequestId,
) -> Result<Response, CaseError>
    requires { ShapePasses (shape_of handler.now) }
{
    let error = HttpError::for_bad_request(alloc, None, message)?;
    Ok(encode_refusal(alloc, handler, error, id)?)
}

// The response to a request of these arguments.
fn handled(
    alloc: Global,
    handler: &dyn RouteHandler,
    request: &RequestParts,
    reading: Reading,
    id: &RequestId,
    args: ArgList,
) -> Result<Response, CaseError>
    requires shape { ShapePasses (shape_of handler.now) }
    requires args { ArgsFit (shape_of handler.now).table (shape_of handler.now).slots args }
{
    let mut reply = Box::new(alloc, reply_to(alloc, handler, request, reading, id, args)?)?;
    Ok(encode_reply(alloc, handler, &mut *reply, id)?)
}

fn reply_to(
    alloc: Global,
    handler: &dyn RouteHandler,
    request: &RequestParts,
    reading: Reading,
    id: &RequestId,
    args: ArgList,
) -> Result<Reply, AllocError>
    requires shape { ShapePasses (shape_of handler.now) }
    requires args { ArgsFit (shape_of handler.now).table (shape_of handler.now).slots args }
    ensures { IfOk result (λ reply. ReplyFits (shape_of handler.now) reply) }
{
    let mut args = args;
    let context = context_of(alloc, request, reading, id)?;
    handler.handle(alloc, &context, &mut Store::new(alloc), &mut args)
}

fn context_of(
    alloc: Global,
    request: &RequestParts,
    reading: Reading,
    id: &RequestId,
) -> Result<Box<RequestContext>, AllocError> {
    let context = RequestContext {
        config: config_of(reading.limit),
        request_id: id.copy(alloc)?,
        endpoint: endpoint_of(alloc, request, reading)?,
        request: request.info.copy(alloc)?,
    };
    Ok(Box::new(alloc, context)?)
}

fn config_of(limit: u64) -> ServerConfig {
    ServerConfig {
        default_request_body_max_bytes: limit,
        page_max_nitems: NonZeroU32::MIN,
        page_default_nitems: NonZeroU32::MIN,
    }
}

fn endpoint_of(
    alloc: Global,
    request: &RequestParts,
    reading: Reading,
) -> Result<RequestEndpointMetadata, AllocError> {
    Ok(RequestEndpointMetadata {
        operation_id: Text::from_str(alloc, "o")?,
        variables: copy_variables(alloc, &request.variables)?,
        body_content_type: reading.kind,
        request_body_max_bytes: None,
    })
}

fn response_told(alloc: Global, label: &str, response: &mut Response) -> Result<Json, CaseError> {
    let body = content_told(alloc, &mut response.body);
    Record::new(alloc)
        .text("by", label)
        .number("status", response.status.as_u16().into())
        .put("headers", lines_told(alloc, &response.headers))
        .put("body", body)
        .done()
}

fn lines_told(alloc: Global, lines: &HeaderList) -> Result<Json, CaseError> {
    let mut told = Row::new(alloc);
    for (name, value) in lines.lines() {
        let name = say(alloc, name.as_str());
        told.push(both(alloc, name, bytes_noted(alloc, value.as_bytes())));
    }
    told.done()
}
