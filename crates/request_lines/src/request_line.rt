//! Request lines: what they ask for, moved out of their JSON.
ghost use Rattle.std.specs.Prelude.{◌≡◌, IfOk, IsErrOf, IsUtf8, List as ListOf};
ghost use Rattle.semver.specs.Identifiers.{parts_of};
ghost use Rattle.semver.specs.Parse.{Parts};
ghost use Rattle.schema_values.specs.declared.json_value.Json.TheVariants as jsons;
ghost use Rattle.schema_values.specs.declared.json_value.Member.{Member as MemberValue};
ghost use Rattle.schema_values.specs.Sound.{IsSound};
ghost use Rattle.schema_values.specs.SoundMembers.{HasSoundMembers};
ghost use Rattle.http_bodies.specs.declared.frame.Frame.{Frame as FrameValue};
ghost use Rattle.request_parts.specs.Requests.{Request};
ghost use Rattle.request_lines.specs.RequestLines.{AreMade, AsksFor, IsBadLine, Members};
ghost use Rattle.request_lines.specs.Said.{Says, SaysMembers};

use crate::line_error::LineError;
use crate::members::{items_named, members_named, text_named};
use crate::request_frames::frames_of;
use crate::request_head::head_of;
use crate::request_variables::variables_of;
use http_bodies::Frame;
use request_parts::{RequestParts, copy_version};
use schema_values::{Json, List, Member, Scratch};
use semver::Version;
use std::alloc::Global;

/// What a line asks for.
#[derive(Drop)]
pub struct AskedRequest {
    /// The request.
    pub request: RequestParts,
    /// The frames of its body.
    pub frames: List<Frame>,
}

/// What a line asks of a version of the API; `Bad` comes only where it asks for nothing, and always where it is no
/// UTF-8, whatever memory there is. It is read in room that is kept from line to line. The texts of its JSON are moved
/// into the request, and are not copied out of it.
pub fn read_line(
    alloc: Global,
    room: &mut Scratch,
    line: &[u8],
    version: &Version,
) -> Result<AskedRequest, LineError>
    ensures asks { IfOk result (λ asked. AsksFor (parts_of version.now) line.now asked.request asked.frames) }
    ensures bad { IsErrOf result LineError.Bad → IsBadLine line.now }
    ensures no_text { ¬ IsUtf8 line.now → IsErrOf result LineError.Bad }
{
    let json = Json::read_with(alloc, room, line)?;
    request_in(alloc, version, json)
}

// What a JSON value asks for. Where it is no object, it takes no memory.
fn request_in(alloc: Global, version: &Version, json: Json) -> Result<AskedRequest, LineError>
    requires { IsSound json }
    ensures made { IfOk result (λ asked. (said : Members) × SaysMembers json said
        × AreMade (parts_of version.now) said asked.request asked.frames) }
    ensures bad { IsErrOf result LineError.Bad → (said : Members) → SaysMembers json said
        → (at : Parts) (request : Request) (frames : ListOf FrameValue)
        → ¬ AreMade at said request frames }
    ensures memory { IsErrOf result LineError.OutOfMemory
        → (members : ListOf MemberValue) × (json ≡ jsons.Object members) }
{
    let Json::Object(members) = json else {
        return Err(LineError::Bad);
    };
    let mut members = members.into_vec();
    request_of(alloc, version, &mut members)
}

// What the members of an object ask for, moved out of them. The head is the largest part, and made last.
fn request_of(
    alloc: Global,
    version: &Version,
    members: &mut Vec<Member>,
) -> Result<AskedRequest, LineError>
    requires { HasSoundMembers members.old.items }
    ensures made { IfOk result (λ asked. (said : Members) × Says members.old.items said
        × AreMade (parts_of version.now) said asked.request asked.frames) }
    ensures bad { IsErrOf result LineError.Bad → (said : Members) → Says members.old.items said
        → (at : Parts) (request : Request) (frames : ListOf FrameValue)
        → ¬ AreMade at said request frames }
{
    let template = text_named(members, "template")?;
    let request_id = text_named(members, "request_id")?;
    let frames = frames_of(alloc, items_named(alloc, members, "frames")?)?;
    let variables = variables_of(alloc, members_named(alloc, members, "variables")?)?;
    let version = copy_version(version)?;
    let info = head_of(alloc, members)?;
    let request = RequestParts {
        version,
        template,
        variables,
        request_id,
        info,
    };
    Ok(AskedRequest { request, frames })
}
