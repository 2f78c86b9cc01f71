// The argument of the slot that takes the body.
ghost use Rattle.std.specs.Prelude.{◌≡◌, ◌⊎◌, ◌+◌, ◌-◌, ◌^◌, ◌<◌, ◌≤◌, [], ℕ, true, false};
ghost use Rattle.std.specs.Prelude.{IfSome, IsErrAnd, IsErrOf, Some};
ghost use Rattle.http_bodies.specs.Bodies.{BodyState, calls_of, frames_of, never_failing, state_of};
ghost use Rattle.http_bodies.specs.Sources.{CalledFor, GoesOn, HasFailed};
ghost use Rattle.body_reading.specs.Whole.{TakesAtMost, whole};
ghost use Rattle.request_parts.specs.Wire.{wire_of};
ghost use Rattle.typed_values.specs.Checks.{TablePasses};
ghost use Rattle.handler_shapes.specs.BodySlots.{takes_body};
ghost use Rattle.handler_shapes.specs.ShapeChecks.{SlotPasses};
ghost use Rattle.api_extract.specs.Answers.{IsGiven};
ghost use Rattle.api_extract.specs.Denotes.{slot_told, terms};
ghost use Rattle.api_extract.specs.Extraction.{ComesOf, ComesTo, IsOfReading, ReadsFor};
ghost use Rattle.api_extract.specs.Extraction.{reads_body, slot_extracted, slot_given, takes_stream};

use crate::extract_error::ExtractError;
use crate::typed_body::typed_argument;
use body_reading::{StreamingBody, gather_frames, read_whole};
use handler_shapes::{Arg, Slot};
use http_bodies::{Body, FrameSource};
use request_parts::{ApiEndpointBodyContentType, RequestParts};
use schema_values::{List, Scratch};
use std::alloc::Global;
use std::mem;
use typed_values::DescTable;

/// How a body is read: the kind of a typed one, and the limit and the budget of frames.
#[derive(Clone, Copy)]
pub(crate) struct Reading {
    pub content_type: ApiEndpointBodyContentType,
    pub limit: u64,
    pub budget: u64,
}

/// The argument of the slot that takes the body.
pub(crate) fn body_argument(
    alloc: Global,
    room: &mut Scratch,
    table: &DescTable,
    request: &RequestParts,
    reading: Reading,
    slot: &Slot,
    body: &mut Body,
) -> Result<Arg, ExtractError>
    requires table { TablePasses table.now }
    requires slot { SlotPasses table.now slot.now }
    requires takes { takes_body slot.now ≡ true }
    requires budget { reading.budget < 2 ^ 64 - 1 }
    ensures outcome { ComesTo result (slot_extracted (terms table.now reading.content_type
        reading.limit reading.budget) request.now body.old slot.now) }
    ensures most { (takes_stream slot.now ≡ true) × (body.new ≡ never_failing [])
        ⊎ TakesAtMost (reading.budget + 1) (Some (frames_of body.old)) (Some (frames_of body.new)) }
    ensures moved { takes_stream slot.now ≡ true → body.new ≡ never_failing [] }
    ensures asked { IsErrAnd result IsOfReading → reads_body slot.now ≡ true }
    ensures read { reads_body slot.now ≡ true → ReadsFor reading.limit reading.budget
        (Some (frames_of body.old)) (Some (frames_of body.new)) result }
    ensures fault { IsErrOf result ExtractError.BodyFault
        → HasFailed (state_of body.old) (state_of body.new) }
    ensures counts { ¬ IsErrOf result ExtractError.BodyFault
        → (takes_stream slot.now ≡ true)
        ⊎ ((state_of body.new).faults ≡ (state_of body.old).faults) }
    ensures calls { calls_of body.new ≤ calls_of body.old + reading.budget + 1 }
    ensures called { CalledFor (Some (frames_of body.old)) (Some (frames_of body.new))
        (calls_of body.old) (calls_of body.new) }
{
    match slot {
        Slot::StreamBody => {
            let whole = mem::replace(body, Body::empty());
            let stream = StreamingBody::new(whole, reading.limit, reading.budget);
            Ok(Arg::Stream(stream))
        }
        _ => whole_argument(alloc, room, table, request, reading, slot, body),
    }
}

/// The argument of the slot that takes the body, of a source. A stream is of frames that are
/// gathered first.
pub(crate) fn source_argument<S: FrameSource>(
    alloc: Global,
    room: &mut Scratch,
    table: &DescTable,
    request: &RequestParts,
    reading: Reading,
    slot: &Slot,
    source: &mut S,
) -> Result<Arg, ExtractError>
    requires table { TablePasses table.now }
    requires slot { SlotPasses table.now slot.now }
    requires takes { takes_body slot.now ≡ true }
    requires budget { reading.budget < 2 ^ 64 - 1 }
    ensures came { ComesOf reading.budget (takes_stream slot.now) (S.state source.old)
        (S.state source.new) (λ body. slot_extracted (terms table.now reading.content_type
        reading.limit reading.budget) request.now body slot.now) result }
    ensures asked { IsErrAnd result IsOfReading → reads_body slot.now ≡ true }
    ensures read { reads_body slot.now ≡ true → ReadsFor reading.limit reading.budget
        (S.state source.old).left (S.state source.new).left result }
    ensures fault { IsErrOf result ExtractError.BodyFault
        → HasFailed (S.state source.old) (S.state source.new) }
    ensures counts { ¬ IsErrOf result ExtractError.BodyFault
        → (takes_stream slot.now ≡ true)
        ⊎ ((S.state source.new).faults ≡ (S.state source.old).faults) }
    ensures goes_on { GoesOn (S.state source.old) (S.state source.new) }
    ensures calls { S.calls source.new ≤ S.calls source.old + reading.budget + 1 }
    ensures called { CalledFor (S.state source.old).left (S.state source.new).left
        (S.calls source.old) (S.calls source.new) }
{
    match slot {
        Slot::StreamBody => {
            let body = gather_frames(alloc, source, reading.budget)?;
            let stream = StreamingBody::new(body, reading.limit, reading.budget);
            Ok(Arg::Stream(stream))
        }
        _ => whole_argument(alloc, room, table, request, reading, slot, source),
    }
}

// The argument that is made of the whole content of a source.
fn whole_argument<S: FrameSource>(
    alloc: Global,
    room: &mut Scratch,
    table: &DescTable,
    request: &RequestParts,
    reading: Reading,
    slot: &Slot,
    source: &mut S,
) -> Result<Arg, ExtractError>
    requires table { TablePasses table.now }
    requires slot { SlotPasses table.now slot.now }
    requires reads { reads_body slot.now ≡ true }
    requires budget { reading.budget < 2 ^ 64 - 1 }
    ensures outcome { IfSome (S.state source.old).left (λ frames. ComesTo result
        (slot_given (terms table.now reading.content_type reading.limit reading.budget)
        request.now (whole reading.limit reading.budget frames) (never_failing []) slot.now)) }
    ensures came { ComesOf reading.budget false (S.state source.old) (S.state source.new)
        (λ body. slot_extracted (terms table.now reading.content_type reading.limit reading.budget)
        request.now body slot.now) result }
    ensures read { ReadsFor reading.limit reading.budget (S.state source.old).left
        (S.state source.new).left result }
    ensures fault { IsErrOf result ExtractError.BodyFault
        → HasFailed (S.state source.old) (S.state source.new) }
    ensures counts { ¬ IsErrOf result ExtractError.BodyFault
        → (S.state source.new).faults ≡ (S.state source.old).faults }
    ensures goes_on { GoesOn (S.state source.old) (S.state source.new) }
    ensures calls { S.calls source.new ≤ S.calls source.old + reading.budget + 1 }
    ensures called { CalledFor (S.state source.old).left (S.state source.new).left
        (S.calls source.old) (S.calls source.new) }
{
    let content = read_whole(alloc, source, reading.limit, reading.budget)?;
    content_argument(
        alloc,
        room,
        table,
        request,
        reading.content_type,
        slot,
        content,
    )
}

// The argument that a content gives a slot.
fn content_argument(
    alloc: Global,
    room: &mut Scratch,
    table: &DescTable,
    request: &RequestParts,
    content_type: ApiEndpointBodyContentType,
    slot: &Slot,
    content: List<u8>,
) -> Result<Arg, ExtractError>
    requires table { TablePasses table.now }
    requires slot { SlotPasses table.now slot.now }
    requires reads { reads_body slot.now ≡ true }
    ensures { (limit budget : ℕ) (body : BodyState) → IsGiven result
        (slot_told (terms table.now content_type limit budget) (wire_of request.now content) body
        slot.now) }
{
    match slot {
        Slot::TypedBody(desc, _) => {
            let headers = request.info.headers();
            typed_argument(
                alloc,
                room,
                table,
                desc,
                content_type,
                headers,
                content.as_slice(),
            )
        }
        _ => Ok(Arg::Raw(content)),
    }
}
