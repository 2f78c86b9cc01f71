//! What an API answers the request of a case, from an empty store, or from that of the sample. The request, its body
//! and how it is read are noted as requests.rt and reading.rt of `endpoint_notation` say. Or `"requests"` are several,
//! answered in turn from one store: each is an object with its `"request"`, and beside it `"version"`, `"limit"`,
//! `"budget"` and `"calls"` as in a case. What is told is what a reply line of the tool tells, with the arguments of
//! the handler under `"args"`, or the place of the fault under `"at"`; and how many bytes of the body were not read,
//! under `"unread"`. Want of memory, which no line tells, is the outcome `out-of-memory`.
ghost use Rattle.std.specs.Prelude.{◌<◌, ◌-◌, ◌^◌};
ghost use Rattle.api_endpoints.specs.Endpoints.{boxed};
ghost use Rattle.api_descriptions.specs.Ready.{IsReady};

use crate::own_source::OwnSource;
use crate::responses::with_response;
use crate::stores::store_of;
use api_descriptions::{ApiDescription, Exchange, ExchangeError};
use api_respond::RouteHandler;
use case_notation::{CaseError, Record, Row, check_names, given_items, say};
use endpoint_notation::{Reading, args_told, body_of, parts_of, reading_of, request_at};
use handler_shapes::ArgList;
use http_bodies::{Body, DumpError, http_dump_body};
use http_status::Response;
use request_parts::{RequestParts, ServerConfig};
use sample_api::server_config;
use schema_values::{Json, Scratch};
use std::alloc::Global;
use tree_store::Store;
use typed_values::Fault;

// What may stand in one of several requests.
const MEMBERS: [&str; 5] = ["request", "version", "limit", "budget", "calls"];

/// How a body is given.
#[derive(Clone, Copy)]
pub enum Way {
    /// As a body.
    Body,
    /// As a source of frames of the program's own.
    Source,
}

/// What comes of the request of a case.
pub fn exchanged(
    alloc: Global,
    case: &Json,
    api: &ApiDescription,
    way: Way,
) -> Result<Json, CaseError>
    requires { IsReady (boxed ⟦<dyn RouteHandler as RouteHandler>⟧) api.now }
{
    let mut store = store_of(alloc, case)?;
    exchanged_with(alloc, case, api, way, &mut store)
}

/// What comes of each of the requests of a case, one behind the other.
pub fn exchanged_in_turn(
    alloc: Global,
    case: &Json,
    api: &ApiDescription,
) -> Result<Json, CaseError>
    requires { IsReady (boxed ⟦<dyn RouteHandler as RouteHandler>⟧) api.now }
{
    let requests = given_items(case, "requests")?;
    let mut store = store_of(alloc, case)?;
    let mut told = Row::new(alloc);
    for noted in requests {
        told.push(turn_told(alloc, noted, api, &mut store));
    }
    told.done()
}

// What comes of one of several requests.
fn turn_told(
    alloc: Global,
    noted: &Json,
    api: &ApiDescription,
    store: &mut Store,
) -> Result<Json, CaseError>
    requires { IsReady (boxed ⟦<dyn RouteHandler as RouteHandler>⟧) api.now }
{
    check_names(noted, &MEMBERS)?;
    exchanged_with(alloc, noted, api, Way::Body, store)
}

// What comes of the request that is noted, from this store and into it.
fn exchanged_with(
    alloc: Global,
    noted: &Json,
    api: &ApiDescription,
    way: Way,
    store: &mut Store,
) -> Result<Json, CaseError>
    requires { IsReady (boxed ⟦<dyn RouteHandler as RouteHandler>⟧) api.now }
{
    let body = body_of(alloc, request_at(noted)?)?;
    let mut source = OwnSource { body };
    let told = outcome_of(alloc, noted, api, way, store, &mut source)?;
    told.put("unread", unread_told(alloc, &mut source.body))
        .done()
}

fn unread_told(alloc: Global, body: &mut Body) -> Result<Json, CaseError> {
    match http_dump_body(alloc, body, 1_000) {
        Ok(bytes) => Ok(Json::Int(bytes.into())),
        Err(DumpError::Failed) => say(alloc, "fails"),
        Err(DumpError::FrameBudget) => Err(CaseError::Expected("fewer frames")),
        Err(DumpError::OutOfMemory) => Err(CaseError::OutOfMemory),
    }
}

fn outcome_of(
    alloc: Global,
    noted: &Json,
    api: &ApiDescription,
    way: Way,
    store: &mut Store,
    source: &mut OwnSource,
) -> Result<Record, CaseError>
    requires { IsReady (boxed ⟦<dyn RouteHandler as RouteHandler>⟧) api.now }
{
    let reading = reading_of(alloc, noted)?;
    let request = Box::new(alloc, parts_of(alloc, noted, request_at(noted)?)?)?;
    let outcome = outcome_by(alloc, api, way, reading, store, &request, source);
    Ok(outcome_told(alloc, outcome, reading.calls))
}

fn outcome_by(
    alloc: Global,
    api: &ApiDescription,
    way: Way,
    reading: Reading,
    store: &mut Store,
    request: &RequestParts,
    source: &mut OwnSource,
) -> Result<Exchange, ExchangeError>
    requires ready { IsReady (boxed ⟦<dyn RouteHandler as RouteHandler>⟧) api.now }
    requires budget { reading.budget < 2 ^ 64 - 1 }
{
    let budget = reading.budget;
    let config = config_of(reading.limit);
    let room = &mut Scratch::new(alloc);
    match way {
        Way::Body => api.exchange(
            alloc,
            room,
            store,
            request,
            &mut source.body,
            budget,
            &config,
        ),
        Way::Source => api.exchange_from(alloc, room, store, request, source, budget, &config),
    }
}

fn config_of(limit: u64) -> ServerConfig {
    ServerConfig {
        default_request_body_max_bytes: limit,
        ..server_config()
    }
}

fn outcome_told(alloc: Global, outcome: Result<Exchange, ExchangeError>, calls: u64) -> Record {
    match outcome {
        Ok(exchange) => exchange_told(alloc, exchange, calls),
        Err(error) => error_told(alloc, error),
    }
}

fn exchange_told(alloc: Global, exchange: Exchange, calls: u64) -> Record {
    match exchange {
        Exchange::Handled {
            args,
            reply,
            response,
        } => {
            drop(reply);
            handled_told(alloc, args, response, calls)
        }
        Exchange::Refused { fault, response } => refused_told(alloc, &fault, response),
    }
}

fn handled_told(alloc: Global, args: ArgList, response: Response, calls: u64) -> Record {
    let told = Record::new(alloc)
        .text("outcome", "handled")
        .put("args", args_told(alloc, args, calls));
    with_response(alloc, told, response)
}

fn refused_told(alloc: Global, fault: &Fault, response: Response) -> Record {
    let told = Record::new(alloc)
        .text("outcome", "refused")
        .text("at", fault.path.as_str());
    with_response(alloc, told, response)
}

fn error_told(alloc: Global, error: ExchangeError) -> Record {
    let told = Record::new(alloc);
    match error {
        ExchangeError::BadRequestId => told.text("outcome", "bad-request-id"),
        ExchangeError::NoSuchOperation => told.text("outcome", "no-such-operation"),
        ExchangeError::WrongVariables => told.text("outcome", "wrong-variables"),
        ExchangeError::BodyFault(response) => {
            with_response(alloc, told.text("outcome", "body-fault"), response)
        }
        ExchangeError::BodyTooLarge(sum, response) => {
            let told = told
                .text("outcome", "body-too-large")
                .number("sum", sum.into());
            with_response(alloc, told, response)
        }
        ExchangeError::FrameBudget(count) => told
            .text("outcome", "frame-budget")
            .number("count", count.into()),
        ExchangeError::OutOfMemory => told.text("outcome", "out-of-memory"),
    }
}
