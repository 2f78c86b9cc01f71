//! The frames of a request's body, made of the values of a line.
ghost use Rattle.std.specs.Prelude.{◌≡◌, IfOk, IsErrOf, List as ListOf, OnErr, Some, codes, ℕ};
ghost use Rattle.std.specs.List.{AllZip};
ghost use Rattle.schema_values.specs.declared.json_value.Json.TheVariants as jsons;
ghost use Rattle.typed_values.specs.Denotes.{value_named};
ghost use Rattle.http_bodies.specs.declared.frame.Frame.{Frame as FrameValue};
ghost use Rattle.request_lines.specs.RequestLines.{IsFrame, WrittenFrame, as_hex};
ghost use Rattle.request_lines.specs.Said.{IsFrameOf, SaysFrame};

use crate::line_error::LineError;
use crate::members::text_named;
use http_bodies::Frame;
use schema_values::{Json, List, Member, Text};
use std::alloc::Global;

/// The frames of some values.
pub(crate) fn frames_of(alloc: Global, items: List<Json>) -> Result<List<Frame>, LineError>
    ensures frames { IfOk result (AllZip IsFrameOf items) }
    ensures bad { IsErrOf result LineError.Bad → (frames : ListOf FrameValue) → ¬ AllZip IsFrameOf items frames }
{
    let mut frames = List::new(alloc);
    for item in items.into_vec() {
        frames.push(frame_of(alloc, item)?)?;
    }
    Ok(frames)
}

// The frame of a text, or of digits. Where a value is neither, it takes no memory.
fn frame_of(alloc: Global, json: Json) -> Result<Frame, LineError>
    ensures frame { IfOk result (IsFrameOf json) }
    ensures bad { IsErrOf result LineError.Bad → (frame : FrameValue) → ¬ IsFrameOf json frame }
    ensures memory { IsErrOf result LineError.OutOfMemory → (written : WrittenFrame) × SaysFrame json written }
{
    match json {
        Json::Text(text) => Ok(Frame::Bytes(text.into_bytes())),
        Json::Object(members) => frame_of_digits(alloc, &digits_of(members)?),
        _ => Err(LineError::Bad),
    }
}

// The text under `hex`. It takes no memory.
fn digits_of(members: List<Member>) -> Result<Text, LineError>
    ensures digits { IfOk result (λ digits. value_named members (codes "hex") ≡ Some (jsons.Text digits)) }
    ensures bad { OnErr result ((digits : ListOf ℕ)
        → ¬ (value_named members (codes "hex") ≡ Some (jsons.Text digits))) }
    ensures told { OnErr result (IsErrOf result LineError.Bad) }
{
    let mut members = members.into_vec();
    text_named(&mut members, "hex")
}

fn frame_of_digits(alloc: Global, digits: &Text) -> Result<Frame, LineError>
    ensures frame { IfOk result (IsFrame (as_hex digits.now)) }
    ensures bad { IsErrOf result LineError.Bad → (frame : FrameValue) → ¬ IsFrame (as_hex digits.now) frame }
{
    let bytes = hex::decode(alloc, digits.as_bytes())?;
    Ok(Frame::Bytes(List::from_vec(bytes)))
}
