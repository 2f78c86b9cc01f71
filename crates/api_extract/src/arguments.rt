//! The arguments that a request gives the slots of a handler.
ghost use Rattle.std.specs.Prelude.{◌≡◌, ◌⊎◌, ◌+◌, ◌-◌, ◌^◌, ◌<◌, ◌≤◌, [], ℕ, List, Some, false};
ghost use Rattle.std.specs.Prelude.{IfOk, IsErrAnd, IsErrOf, IsTrue, OnOk};
ghost use Rattle.std.specs.List.{list_any};
ghost use Rattle.http_bodies.specs.Bodies.{calls_of, frames_of, never_failing, state_of};
ghost use Rattle.http_bodies.specs.Frames.{all_data};
ghost use Rattle.http_bodies.specs.Sources.{CalledFor, HasFailed};
ghost use Rattle.body_reading.specs.Whole.{TakesAtMost};
ghost use Rattle.request_parts.specs.Wire.{wire_of};
ghost use Rattle.typed_values.specs.declared.fault.Fault.{Fault as FaultValue};
ghost use Rattle.handler_shapes.specs.Arguments.{ArgsFit};
ghost use Rattle.handler_shapes.specs.BodySlots.{takes_body};
ghost use Rattle.api_extract.specs.declared.extract_error.ExtractError.{ExtractError as Extract};
ghost use Rattle.api_extract.specs.Denotes.{Denotes, args_told, terms};
ghost use Rattle.api_extract.specs.Extraction.{AreServed, AsksForBody, ComesTo, IsOfReading};
ghost use Rattle.api_extract.specs.Extraction.{ReadsFor, extracted, shared_told, takes_stream};

use crate::bodies::{Reading, body_argument};
use crate::extract_error::ExtractError;
use crate::shared::shared_arguments;
use crate::slots::{pushed, without_body};
use handler_shapes::{ArgList, Slot};
use http_bodies::Body;
use request_parts::{ApiEndpointBodyContentType, RequestParts};
use schema_values::{List, Scratch};
use std::alloc::Global;
use typed_values::DescTable;

/// The arguments that a request denotes: one for each slot, in order.
///
/// The slots of path, query and headers come first, and the body is not touched unless each of
/// them is given its argument. A typed or raw body is read whole then: at most `limit` bytes, in at
/// most `budget` frames. A slot for a stream takes the body as it stands, with this limit and this
/// budget, and leaves an empty one. The room is what reading JSON needs; a caller keeps one from
/// request to request.
pub fn extract(
    alloc: Global,
    room: &mut Scratch,
    slots: &List<Slot>,
    table: &DescTable,
    request: &RequestParts,
    content_type: ApiEndpointBodyContentType,
    body: &mut Body,
    limit: u64,
    budget: u64,
) -> Result<ArgList, ExtractError>
    requires served { AreServed table.now slots.now }
    requires budget { budget < 2 ^ 64 - 1 }

    // The answer is what the request and the frames of its body call for, unless a call on the
    // body failed or memory ran out.
    ensures outcome { ComesTo result
        (extracted (terms table.now content_type limit budget) slots.now request.now body.old) }

    // Arguments are exactly those that the request denotes, and are of the slots.
    ensures denotes { IfOk result (Denotes (terms table.now content_type limit budget) slots.now
        (wire_of request.now (all_data (frames_of body.old))) body.old) }
    ensures fits { IfOk result (ArgsFit table.now slots.now) }

    // A refusal is of the fault that is told first; then nothing is denoted.
    ensures refused { (fault : FaultValue) (message : List ℕ)
        → result ≡ Err (ExtractError.Refused fault message)
        → args_told (terms table.now content_type limit budget) slots.now
        (wire_of request.now (all_data (frames_of body.old))) body.old
        ≡ Err (ExtractError.Refused fault message) }

    // Where a path, a query or headers denote nothing, it is that refusal, and the body stays.
    ensures early { (error : Extract)
        → shared_told table.now slots.now request.now ≡ Err error
        → (result ≡ Err error) ⊎ (result ≡ Err ExtractError.OutOfMemory) }
    ensures untouched { (error : Extract)
        → shared_told table.now slots.now request.now ≡ Err error
        → body.new ≡ body.old }
    ensures unasked { list_any takes_body slots.now ≡ false → body.new ≡ body.old }

    // At most one frame more than the budget is taken of the body, but where a stream takes it
    // whole.
    ensures most { IsTrue (list_any takes_stream slots.now) × (body.new ≡ never_failing [])
        ⊎ TakesAtMost (budget + 1) (Some (frames_of body.old)) (Some (frames_of body.new)) }
    ensures moved { OnOk result
        (IsTrue (list_any takes_stream slots.now) → body.new ≡ never_failing []) }

    // A fault of the body, its size and the number of its frames are told only where a slot reads
    // it, behind slots that are given their arguments. There each of them has its cause in the
    // frames that came, and else the body was read to its end.
    ensures asked { IsErrAnd result IsOfReading → AsksForBody table.now slots.now request.now }
    ensures read { AsksForBody table.now slots.now request.now
        → ReadsFor limit budget (Some (frames_of body.old)) (Some (frames_of body.new)) result }

    // A fault comes only where the count of faults rose; a count that rose is told as that fault,
    // but where the body went into a stream.
    ensures fault { IsErrOf result ExtractError.BodyFault
        → HasFailed (state_of body.old) (state_of body.new) }
    ensures counts { ¬ IsErrOf result ExtractError.BodyFault
        → IsTrue (list_any takes_stream slots.now)
        ⊎ ((state_of body.new).faults ≡ (state_of body.old).faults) }

    // The body, where it counts its calls, is called at most once more than the budget, and not
    // again behind the end or an error; one that a stream takes is not called.
    ensures calls { calls_of body.new ≤ calls_of body.old + budget + 1 }
    ensures called { CalledFor (Some (frames_of body.old)) (Some (frames_of body.new))
        (calls_of body.old) (calls_of body.new) }
{
    let (shared, last) = without_body(slots.as_slice());
    let args = shared_arguments(alloc, table, request, shared)?;
    let reading = Reading {
        content_type,
        limit,
        budget,
    };
    match last {
        Some(slot) => pushed(
            args,
            body_argument(alloc, room, table, request, reading, slot, body),
        ),
        None => Ok(args),
    }
}
