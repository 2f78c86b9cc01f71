//! What answers the lines of a session: the endpoints of an API, at one version.
ghost use Rattle.std.specs.Prelude.{◌≡◌, ◌⊎◌, ◌-◌, ◌^◌, ◌<◌, IfOk, OnErr, Result};
ghost use Rattle.schema_values.specs.declared.json_value.Json.{Json as JsonValue};
ghost use Rattle.semver.specs.Identifiers.{parts_of};
ghost use Rattle.api_endpoints.specs.Endpoints.{boxed};
ghost use Rattle.endpoint_answers.specs.Exchanges.{Answers};
ghost use Rattle.endpoint_answers.specs.declared.outcome.Exchange.{Exchange as ExchangeValue};
ghost use Rattle.endpoint_answers.specs.declared.outcome.ExchangeError.{ExchangeError as ErrorValue};
ghost use Rattle.api_descriptions.specs.Ready.{IsReady};
ghost use Rattle.reply_lines.specs.ReplyLines.{bytes_of_line};
ghost use Rattle.contract_tool.specs.LineAnswers.{LineAnswers, LineIsLost, asked_with, service};
ghost use Rattle.contract_tool.specs.Outcomes.{Tells};

use crate::reply_line::reply_line;
use api_descriptions::ApiDescription;
use api_respond::RouteHandler;
use command_line::ToolConfig;
use http_bodies::{Body, SafeFrames};
use line_session::Answering;
use reply_lines::outcome_line;
use request_lines::{AskedRequest, LineError, read_line};
use schema_values::{List, Scratch};
use semver::Version;
use std::alloc::{AllocError, Global};
use std::marker::PhantomData;
use tree_store::Store;

/// Answers request lines by the endpoints of an API, at one version.
#[derive(Drop)]
pub(crate) struct LineAnswerer<'a> {
    pub api: &'a ApiDescription,
    pub config: &'a ToolConfig,
    pub version: &'a Version,
    // so that the ghost members below may name what a boxed handler means
    pub handlers: PhantomData<Box<dyn RouteHandler>>,
}

impl Answering for LineAnswerer<'_> {
    ghost use Rattle.std.specs.Prelude.{◌-◌, ◌^◌, ◌<◌};
    ghost use Rattle.semver.specs.Identifiers.{parts_of};
    ghost use Rattle.api_descriptions.specs.Ready.{IsReady};
    ghost use Rattle.contract_tool.specs.LineAnswers.{LineAnswers, LineIsLost, service};

    type State = Store;

    // What lines are read in, and the bodies of their requests.
    type Room = Scratch;

    ghost can_answer = { λ answerer. IsReady (λ e. RouteHandler-box e.handler) answerer.api.now
        × (answerer.config.now.frame_budget < 2 ^ 64 - 1) };

    ghost answers = { λ answerer. LineAnswers (λ e. RouteHandler-box e.handler)
        (service answerer.config.now answerer.api.now.tags answerer.api.now.endpoints.items
        (parts_of answerer.version.now)) };

    ghost lost = { λ answerer. LineIsLost (λ e. RouteHandler-box e.handler)
        (service answerer.config.now answerer.api.now.tags answerer.api.now.endpoints.items
        (parts_of answerer.version.now)) };

    fn room(&self, alloc: Global) -> Result<Scratch, AllocError> {
        Ok(Scratch::new(alloc))
    }

    fn answer(
        &self,
        alloc: Global,
        room: &mut Scratch,
        state: &mut Store,
        line: &[u8],
    ) -> Result<List<u8>, AllocError> {
        answer_line(alloc, self, room, state, line)
    }
}

fn answer_line(
    alloc: Global,
    answerer: &LineAnswerer<'_>,
    room: &mut Scratch,
    store: &mut Store,
    line: &[u8],
) -> Result<List<u8>, AllocError>
    requires ready { IsReady (boxed ⟦<dyn RouteHandler as RouteHandler>⟧) answerer.now.api.now }
    requires budget { answerer.now.config.now.frame_budget < 2 ^ 64 - 1 }
    ensures ok { IfOk result (λ reply. LineAnswers (boxed ⟦<dyn RouteHandler as RouteHandler>⟧)
        (service answerer.now.config.now answerer.now.api.now.tags answerer.now.api.now.endpoints.items
        (parts_of answerer.now.version.now)) store.old line.now reply store.new) }
    ensures err { OnErr result ((store.new ≡ store.old)
        ⊎ LineIsLost (boxed ⟦<dyn RouteHandler as RouteHandler>⟧)
        (service answerer.now.config.now answerer.now.api.now.tags answerer.now.api.now.endpoints.items
        (parts_of answerer.now.version.now)) store.old line.now store.new) }
{
    match read_line(alloc, room, line, answerer.version) {
        Ok(asked) => answer_request(alloc, room, answerer.api, answerer.config, store, asked),
        Err(LineError::Bad) => outcome_line(alloc, "bad-line"),
        Err(LineError::OutOfMemory) => Err(AllocError),
    }
}

// Answers a request, and tells the outcome. Where no line tells it, there was one all the same.
fn answer_request(
    alloc: Global,
    room: &mut Scratch,
    api: &ApiDescription,
    config: &ToolConfig,
    store: &mut Store,
    asked: AskedRequest,
) -> Result<List<u8>, AllocError>
    requires ready { IsReady (boxed ⟦<dyn RouteHandler as RouteHandler>⟧) api.now }
    requires budget { config.now.frame_budget < 2 ^ 64 - 1 }
    ensures ok { IfOk result (λ reply. (outcome : Result ExchangeValue ErrorValue) × (json : JsonValue)
        × Answers (boxed ⟦<dyn RouteHandler as RouteHandler>⟧) api.now.endpoints.items
        (asked_with config.now asked.request asked.frames store.old) outcome store.new
        × Tells config.now.frame_budget outcome json × (reply ≡ bytes_of_line json)) }
    ensures err { (outcome : Result ExchangeValue ErrorValue)
        × Answers (boxed ⟦<dyn RouteHandler as RouteHandler>⟧) api.now.endpoints.items
        (asked_with config.now asked.request asked.frames store.old) outcome store.new }
{
    let AskedRequest { request, frames } = asked;
    let mut body = Body::with_frames(SafeFrames::new(frames));
    let budget = config.frame_budget;
    let outcome = api.exchange(
        alloc,
        room,
        store,
        &request,
        &mut body,
        budget,
        &config.server,
    );
    reply_line(alloc, outcome, budget)
}
