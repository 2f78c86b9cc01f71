//! Calls over an API of the endpoints of a case: of all, where they may all be registered, else the first refusal is
//! told; or, with `"one_by_one"`, of those that may be.
ghost use Rattle.api_endpoints.specs.Endpoints.{boxed};
ghost use Rattle.api_descriptions.specs.Ready.{IsReady};

use crate::admission::admits;
use crate::documents::{document, document_text, written};
use crate::exchanges::{Way, exchanged, exchanged_in_turn};
use crate::information::document_said;
use crate::parts::all_shown;
use crate::registering::{outcome_told, refusal_told};
use api_descriptions::{ApiDescription, ApiEndpoint};
use api_respond::RouteHandler;
use case_notation::{CaseError, Row, labelled};
use endpoint_notation::settings_at;
use schema_values::Json;
use std::alloc::Global;

/// A call over an API.
#[derive(Clone, Copy)]
pub enum ApiCall {
    /// What comes of a request with its body.
    Exchange,
    /// What comes of requests with their bodies, one behind the other.
    Exchanges,
    /// What comes of a request whose body is a source.
    ExchangeFrom,
    /// The document.
    Document,
    /// The document, where something was said of the API as a whole.
    DocumentSaid,
    /// The text of the document.
    Text,
    /// How the document is written to a sink.
    Write,
    /// Whether the document admits a request.
    Admits,
}

/// What is asked behind the last endpoint that was registered.
#[derive(Clone, Copy)]
pub enum Asked {
    /// What was told of each.
    Told,
    /// The parts of those that the API then has.
    Endpoints,
    /// A call over the API.
    Call(ApiCall),
}

/// What a call answers over an API of endpoints.
pub fn over_accepted(
    alloc: Global,
    case: &Json,
    call: ApiCall,
    endpoints: Vec<ApiEndpoint>,
) -> Result<Json, CaseError> {
    match case.get("one_by_one") {
        Some(_) => over_registered(alloc, case, Asked::Call(call), endpoints),
        None => over_all(alloc, case, call, endpoints),
    }
}

/// What is answered over endpoints that are registered one by one.
pub fn over_registered(
    alloc: Global,
    case: &Json,
    asked: Asked,
    endpoints: Vec<ApiEndpoint>,
) -> Result<Json, CaseError> {
    let settings = settings_at(alloc, case)?;
    let mut told = Row::new(alloc);
    let mut api = ApiDescription::new(alloc).tag_config(settings);
    for endpoint in endpoints {
        told.push(outcome_told(alloc, api.register(endpoint)));
    }
    match told.done() {
        Ok(told) => asked_of(alloc, case, asked, &api, told),
        Err(error) => Err(error),
    }
}

// What is answered behind the last of them, where none failed for want of memory.
fn asked_of(
    alloc: Global,
    case: &Json,
    asked: Asked,
    api: &ApiDescription,
    told: Json,
) -> Result<Json, CaseError>
    requires { IsReady (boxed ⟦<dyn RouteHandler as RouteHandler>⟧) api.now }
{
    match asked {
        Asked::Told => Ok(told),
        Asked::Endpoints => all_shown(alloc, api.endpoints()),
        Asked::Call(call) => over_api(alloc, case, call, api),
    }
}

fn over_all(
    alloc: Global,
    case: &Json,
    call: ApiCall,
    endpoints: Vec<ApiEndpoint>,
) -> Result<Json, CaseError> {
    let settings = settings_at(alloc, case)?;
    match ApiDescription::of_endpoints(alloc, settings, endpoints) {
        Ok(api) => over_api(alloc, case, call, &api),
        Err(error) => labelled(alloc, "refused", refusal_told(alloc, &error)),
    }
}

fn over_api(
    alloc: Global,
    case: &Json,
    call: ApiCall,
    api: &ApiDescription,
) -> Result<Json, CaseError>
    requires { IsReady (boxed ⟦<dyn RouteHandler as RouteHandler>⟧) api.now }
{
    match call {
        ApiCall::Exchange => exchanged(alloc, case, api, Way::Body),
        ApiCall::Exchanges => exchanged_in_turn(alloc, case, api),
        ApiCall::ExchangeFrom => exchanged(alloc, case, api, Way::Source),
        ApiCall::Document => document(alloc, case, api),
        ApiCall::DocumentSaid => document_said(alloc, case, api),
        ApiCall::Text => Ok(Json::Text(document_text(alloc, case, api)?)),
        ApiCall::Write => written(alloc, case, api),
        ApiCall::Admits => admits(alloc, case, api),
    }
}
