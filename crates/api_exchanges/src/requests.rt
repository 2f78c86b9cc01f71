//! What comes of a request.
ghost use Rattle.std.specs.Prelude.{◌≡◌, ◌⊎◌, ◌+◌, ◌-◌, ◌^◌, ◌<◌, ◌≤◌, [], IsErrAnd, Some};
ghost use Rattle.http_bodies.specs.Bodies.{calls_of, frames_of, never_failing, state_of};
ghost use Rattle.http_bodies.specs.Sources.{CalledFor, GoesOn, HasFailed};
ghost use Rattle.body_reading.specs.Whole.{TakesAtMost};
ghost use Rattle.api_endpoints.specs.Endpoints.{boxed};
ghost use Rattle.endpoint_answers.specs.Denoting.{IsFault, IsHandledAsDenoted, IsHandledOrRefused};
ghost use Rattle.endpoint_answers.specs.Denoting.{IsOutcomeCutShort, WasHandled};
ghost use Rattle.endpoint_answers.specs.BodyReads.{ReadsBodyFor};
ghost use Rattle.endpoint_answers.specs.Exchanges.{Answers, AreIndexed, AreServable, TakesBody};
ghost use Rattle.endpoint_answers.specs.Exchanges.{asked, called};
ghost use Rattle.api_exchanges.specs.SourceExchanges.{AnswersFrom, StreamsBody};

use crate::reaching::reached;
use api_endpoints::ApiEndpoint;
use api_extract::{answers_have_causes, extract, extract_from};
use api_respond::RouteHandler;
use endpoint_answers::{Exchange, ExchangeError, answer, limit_at};
use http_bodies::{Body, FrameSource};
use path_templates::PlaceIndex;
use request_parts::{RequestParts, ServerConfig};
use schema_values::Scratch;
use std::alloc::Global;
use tree_store::Store;

/// Answers a request with this body, from the store and into it, by the endpoint that it names. The index is that of
/// the templates of the endpoints.
///
/// A typed or raw body is read whole: at most as many bytes as the endpoint's limit, or the server's, in at most
/// `budget` frames. A handler that takes a stream gets the very body, unread, and an empty one is left. The room is
/// what reading JSON needs; a caller keeps one from request to request.
pub fn exchange(
    alloc: Global,
    room: &mut Scratch,
    endpoints: &[ApiEndpoint],
    index: &PlaceIndex,
    store: &mut Store,
    request: &RequestParts,
    body: &mut Body,
    budget: u64,
    config: &ServerConfig,
) -> Result<Exchange, ExchangeError>
    requires servable { AreServable (boxed ⟦<dyn RouteHandler as RouteHandler>⟧) endpoints.now }
    requires indexed { AreIndexed (boxed ⟦<dyn RouteHandler as RouteHandler>⟧) endpoints.now index.now }
    requires budget { budget < 2 ^ 64 - 1 }

    // What the outcome says of the request, of what it denotes, of the reply and of the store.
    ensures answers { Answers (boxed ⟦<dyn RouteHandler as RouteHandler>⟧) endpoints.now
        (asked (called config.now request.now store.old) body.old budget) result store.new }

    // Whatever endpoint it names, a valid request is handled exactly where it denotes arguments, unless memory
    // ran out or a call on the body failed.
    ensures handled { IsHandledAsDenoted (boxed ⟦<dyn RouteHandler as RouteHandler>⟧) endpoints.now
        (asked (called config.now request.now store.old) body.old budget) result }

    // Where it is not handled, it is refused, unless memory ran out or a call on the body failed.
    ensures told { IsHandledOrRefused (boxed ⟦<dyn RouteHandler as RouteHandler>⟧) endpoints.now
        (asked (called config.now request.now store.old) body.old budget) result }

    // A fault comes only where the count of faults rose, or stands at its last value. A count that rose is told
    // as that fault, but where memory ran out, or where the body went into a stream.
    ensures fault { IsErrAnd result IsFault → HasFailed (state_of body.old) (state_of body.new) }
    ensures counts { ¬ IsOutcomeCutShort result
        → StreamsBody (boxed ⟦<dyn RouteHandler as RouteHandler>⟧) endpoints.now request.now
        ⊎ ((state_of body.new).faults ≡ (state_of body.old).faults) }

    // The body is touched only where a slot asks for it, behind slots that are given their arguments. At most
    // one frame more than the budget is taken, but where a stream takes it whole.
    ensures untouched { ¬ TakesBody (boxed ⟦<dyn RouteHandler as RouteHandler>⟧) endpoints.now request.now
        → body.new ≡ body.old }
    ensures most { StreamsBody (boxed ⟦<dyn RouteHandler as RouteHandler>⟧) endpoints.now request.now
        × (body.new ≡ never_failing []) ⊎ TakesAtMost (budget + 1)
        (Some (frames_of body.old)) (Some (frames_of body.new)) }
    ensures moved { WasHandled result
        → StreamsBody (boxed ⟦<dyn RouteHandler as RouteHandler>⟧) endpoints.now request.now
        → body.new ≡ never_failing [] }

    // A body that a slot reads was read to its end where the request was handled or refused; behind a size and a
    // number of frames the rest was thrown away within the budget.
    ensures read { ReadsBodyFor (boxed ⟦<dyn RouteHandler as RouteHandler>⟧) endpoints.now
        (called config.now request.now store.old) budget
        (Some (frames_of body.old)) (Some (frames_of body.new)) result }

    // The body, where it counts its calls, is called at most once more than the budget, and not again behind the
    // end or an error, but for what a handler calls of a stream.
    ensures calls { calls_of body.new ≤ calls_of body.old + budget + 1 }
    ensures called { CalledFor (Some (frames_of body.old)) (Some (frames_of body.new))
        (calls_of body.old) (calls_of body.new) }
{
    // It does nothing: the causes in `answers`, and `handled`, rest on its clause.
    answers_have_causes();
    let (endpoint, request_id) = reached(alloc, endpoints, index, request)?;
    let (shape, limit) = (endpoint.shape(), limit_at(endpoint, config));
    let (slots, table, kind) = (&shape.slots, &shape.table, *endpoint.body_content_type());
    let given = extract(
        alloc, room, slots, table, request, kind, body, limit, budget,
    );
    answer(alloc, endpoint, store, request, request_id, config, given)
}

/// Answers a request whose body comes of a source of one's own, as `exchange` does. A handler that takes a
/// stream gets the frames of the source, gathered in memory: at most one more than the budget, with a call that
/// failed at its place. The clauses speak of the frames of a source that tells what is left of it; of one that does
/// not, the body is any that fits the answer.
pub fn exchange_from<S: FrameSource>(
    alloc: Global,
    room: &mut Scratch,
    endpoints: &[ApiEndpoint],
    index: &PlaceIndex,
    store: &mut Store,
    request: &RequestParts,
    source: &mut S,
    budget: u64,
    config: &ServerConfig,
) -> Result<Exchange, ExchangeError>
    requires servable { AreServable (boxed ⟦<dyn RouteHandler as RouteHandler>⟧) endpoints.now }
    requires indexed { AreIndexed (boxed ⟦<dyn RouteHandler as RouteHandler>⟧) endpoints.now index.now }
    requires budget { budget < 2 ^ 64 - 1 }

    // What the outcome says, with the frames that came as the body.
    ensures answers { AnswersFrom (boxed ⟦<dyn RouteHandler as RouteHandler>⟧) endpoints.now
        (called config.now request.now store.old) budget
        (S.state source.old) (S.state source.new) result store.new }
    ensures fault { IsErrAnd result IsFault → HasFailed (S.state source.old) (S.state source.new) }
    ensures counts { ¬ IsOutcomeCutShort result
        → StreamsBody (boxed ⟦<dyn RouteHandler as RouteHandler>⟧) endpoints.now request.now
        ⊎ ((S.state source.new).faults ≡ (S.state source.old).faults) }
    ensures untouched { ¬ TakesBody (boxed ⟦<dyn RouteHandler as RouteHandler>⟧) endpoints.now request.now
        → source.new ≡ source.old }

    // A source that a slot reads, and that tells its frames, was read to its end where the request was handled or
    // refused; behind a size and a number of frames the rest was thrown away within the budget.
    ensures read { ReadsBodyFor (boxed ⟦<dyn RouteHandler as RouteHandler>⟧) endpoints.now
        (called config.now request.now store.old) budget
        (S.state source.old).left (S.state source.new).left result }
    ensures goes_on { GoesOn (S.state source.old) (S.state source.new) }

    // The source, where it counts its calls, is called at most once more than the budget, to gather frames too,
    // and one that tells its frames not again behind the end or an error.
    ensures calls { S.calls source.new ≤ S.calls source.old + budget + 1 }
    ensures called { CalledFor (S.state source.old).left (S.state source.new).left
        (S.calls source.old) (S.calls source.new) }
{
    answers_have_causes();
    let (endpoint, request_id) = reached(alloc, endpoints, index, request)?;
    let (shape, limit) = (endpoint.shape(), limit_at(endpoint, config));
    let (slots, table, kind) = (&shape.slots, &shape.table, *endpoint.body_content_type());
    let given = extract_from(
        alloc, room, slots, table, request, kind, source, limit, budget,
    );
    answer(alloc, endpoint, store, request, request_id, config, given)
}
