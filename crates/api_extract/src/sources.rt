//! The same of a source of frames of one's own.
ghost use Rattle.std.specs.Prelude.{◌≡◌, ◌⊎◌, ◌+◌, ◌-◌, ◌^◌, ◌<◌, ◌≤◌, false};
ghost use Rattle.std.specs.Prelude.{IfOk, IsErrAnd, IsErrOf, IsTrue};
ghost use Rattle.std.specs.List.{list_any};
ghost use Rattle.http_bodies.specs.Sources.{CalledFor, GoesOn, HasFailed};
ghost use Rattle.handler_shapes.specs.Arguments.{ArgsFit};
ghost use Rattle.handler_shapes.specs.BodySlots.{takes_body};
ghost use Rattle.api_extract.specs.declared.extract_error.ExtractError.{ExtractError as Extract};
ghost use Rattle.api_extract.specs.Denotes.{terms};
ghost use Rattle.api_extract.specs.Extraction.{AreServed, AsksForBody, ComesFrom, IsOfReading};
ghost use Rattle.api_extract.specs.Extraction.{ReadsFor, shared_told, takes_stream};

use crate::bodies::{Reading, source_argument};
use crate::extract_error::ExtractError;
use crate::shared::shared_arguments;
use crate::slots::{pushed, without_body};
use handler_shapes::{ArgList, Slot};
use http_bodies::FrameSource;
use request_parts::{ApiEndpointBodyContentType, RequestParts};
use schema_values::{List, Scratch};
use std::alloc::Global;
use typed_values::DescTable;

/// The arguments that a request denotes whose body comes of a source, as `extract` gives them. A
/// slot for a stream is given the frames of the source, gathered in memory: at most one more than
/// the budget, with a call that failed at its place.
pub fn extract_from<S: FrameSource>(
    alloc: Global,
    room: &mut Scratch,
    slots: &List<Slot>,
    table: &DescTable,
    request: &RequestParts,
    content_type: ApiEndpointBodyContentType,
    source: &mut S,
    limit: u64,
    budget: u64,
) -> Result<ArgList, ExtractError>
    requires served { AreServed table.now slots.now }
    requires budget { budget < 2 ^ 64 - 1 }

    // The answer is what the request and the frames that came call for, unless a call on the
    // source failed or memory ran out: arguments are exactly those that the request denotes with
    // these frames, and a refusal is of the fault that is told first.
    ensures came { ComesFrom (terms table.now content_type limit budget) slots.now request.now
        (S.state source.old) (S.state source.new) result }
    ensures fits { IfOk result (ArgsFit table.now slots.now) }

    // Where a path, a query or headers denote nothing, it is that refusal, and the source stays.
    ensures early { (error : Extract) → shared_told table.now slots.now request.now ≡ Err error
        → (result ≡ Err error) ⊎ (result ≡ Err ExtractError.OutOfMemory) }
    ensures untouched { (error : Extract) → shared_told table.now slots.now request.now ≡ Err error
        → source.new ≡ source.old }
    ensures unasked { list_any takes_body slots.now ≡ false → source.new ≡ source.old }

    // A fault of the body, its size and the number of its frames are told only where a slot reads
    // it, behind slots that are given their arguments. There each of them has its cause in the
    // frames that came, and else the body was read to its end.
    ensures asked { IsErrAnd result IsOfReading → AsksForBody table.now slots.now request.now }
    ensures read { AsksForBody table.now slots.now request.now
        → ReadsFor limit budget (S.state source.old).left (S.state source.new).left result }

    // A fault comes only where the count of faults rose; a count that rose is told as that fault,
    // but where the body went into a stream.
    ensures fault { IsErrOf result ExtractError.BodyFault
        → HasFailed (S.state source.old) (S.state source.new) }
    ensures counts { ¬ IsErrOf result ExtractError.BodyFault
        → IsTrue (list_any takes_stream slots.now)
        ⊎ ((S.state source.new).faults ≡ (S.state source.old).faults) }
    ensures goes_on { GoesOn (S.state source.old) (S.state source.new) }

    // It calls the source at most once more than the budget, to gather frames too, and one that
    // tells its frames not again behind the end or an error.
    ensures calls { S.calls source.new ≤ S.calls source.old + budget + 1 }
    ensures called { CalledFor (S.state source.old).left (S.state source.new).left
        (S.calls source.old) (S.calls source.new) }
{
    let (shared, last) = without_body(slots.as_slice());
    let args = shared_arguments(alloc, table, request, shared)?;
    let reading = Reading {
        content_type,
        limit,
        budget,
    };
    match last {
        Some(slot) => pushed(
            args,
            source_argument(alloc, room, table, request, reading, slot, source),
        ),
        None => Ok(args),
    }
}
