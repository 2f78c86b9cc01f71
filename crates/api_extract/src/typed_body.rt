// What the content of a body denotes under a type.
ghost use Rattle.std.specs.Prelude.{◌≡◌, true, IfOk, map};
ghost use Rattle.typed_values.specs.Checks.{TablePasses, DescPasses};
ghost use Rattle.typed_values.specs.declared.fault.FaultKind.TheVariants.{ContentTypeMismatch};
ghost use Rattle.request_parts.specs.ContentTypes.{kind_of, mime_of};
ghost use Rattle.request_parts.specs.Wire.{wire_line};
ghost use Rattle.request_words.specs.HeaderLines.{all_shown};
ghost use Rattle.request_words.specs.Pairs.{form_pairs};
ghost use Rattle.flat_maps.specs.declared.repeats.Repeats.TheVariants.{Refuse};
ghost use Rattle.flat_maps.specs.Pairs.{pairs_told};
ghost use Rattle.api_extract.specs.Answers.{IsGiven, IsTold};
ghost use Rattle.api_extract.specs.Readings.{value_read};
ghost use Rattle.api_extract.specs.TypedBodies.{body_by_given, body_by_kinds, form_body, json_body};
ghost use Rattle.api_extract.specs.TypedBodies.{read_told, typed_body};

use crate::extract_error::ExtractError;
use crate::media::{media_text, request_media};
use crate::refusals::{refuse_plainly, tree_argument, whole_fault};
use flat_maps::{Repeats, decode_pairs};
use handler_shapes::Arg;
use header_lists::HeaderList;
use request_parts::ApiEndpointBodyContentType;
use request_words::form_pairs;
use schema_values::{Json, ReadError, Scratch, Text};
use std::alloc::{AllocError, Global};
use typed_values::{DecodeError, Desc, DescTable, FaultKind, Tree, decode_json};

/// The argument that the content of a body denotes. The media type of the request has to be of the
/// kind that the endpoint expects.
pub(crate) fn typed_argument(
    alloc: Global,
    room: &mut Scratch,
    table: &DescTable,
    desc: &Desc,
    expected: ApiEndpointBodyContentType,
    headers: &HeaderList,
    content: &[u8],
) -> Result<Arg, ExtractError>
    requires table { TablePasses table.now }
    requires desc { DescPasses table.now desc.now }
    ensures { IsGiven result
        (typed_body table.now desc.now expected (map wire_line headers.now) content.now) }
{
    match request_media(alloc, headers)? {
        Some(media) => {
            argument_by_media(
                alloc,
                room,
                table,
                desc,
                expected,
                media.as_slice(),
                content,
            )
        }
        None => refuse_plainly(alloc, FaultKind::ContentTypeBytes),
    }
}

fn argument_by_media(
    alloc: Global,
    room: &mut Scratch,
    table: &DescTable,
    desc: &Desc,
    expected: ApiEndpointBodyContentType,
    media: &[u8],
    content: &[u8],
) -> Result<Arg, ExtractError>
    requires table { TablePasses table.now }
    requires desc { DescPasses table.now desc.now }
    requires shown { all_shown media.now ≡ true }
    ensures { IsGiven result
        (body_by_given table.now desc.now content.now expected media.now (kind_of media.now)) }
{
    let media = media_text(media);
    match ApiEndpointBodyContentType::from_mime_type(media) {
        Ok(given) => argument_by_kinds(alloc, room, table, desc, expected, given, content),
        Err(_) => {
            let media = Text::from_str(alloc, media)?;
            refuse_plainly(alloc, FaultKind::ContentTypeUnsupported(media))
        }
    }
}

fn argument_by_kinds(
    alloc: Global,
    room: &mut Scratch,
    table: &DescTable,
    desc: &Desc,
    expected: ApiEndpointBodyContentType,
    given: ApiEndpointBodyContentType,
    content: &[u8],
) -> Result<Arg, ExtractError>
    requires table { TablePasses table.now }
    requires desc { DescPasses table.now desc.now }
    ensures { IsGiven result (body_by_kinds table.now desc.now content.now expected given) }
{
    match (expected, given) {
        (ApiEndpointBodyContentType::Json, ApiEndpointBodyContentType::Json) => {
            json_argument(alloc, room, table, desc, content)
        }
        (ApiEndpointBodyContentType::UrlEncoded, ApiEndpointBodyContentType::UrlEncoded) => {
            form_argument(alloc, table, desc, content)
        }
        _ => refuse_plainly(alloc, mismatch(alloc, expected, given)?),
    }
}

// The fault of a body of another kind than is expected.
fn mismatch(
    alloc: Global,
    expected: ApiEndpointBodyContentType,
    given: ApiEndpointBodyContentType,
) -> Result<FaultKind, AllocError>
    ensures { IfOk result (λ kind. kind ≡ ContentTypeMismatch (mime_of expected) (mime_of given)) }
{
    Ok(FaultKind::ContentTypeMismatch(
        Text::from_ascii(alloc, expected.mime_type())?,
        Text::from_ascii(alloc, given.mime_type())?,
    ))
}

fn json_argument(
    alloc: Global,
    room: &mut Scratch,
    table: &DescTable,
    desc: &Desc,
    content: &[u8],
) -> Result<Arg, ExtractError>
    requires table { TablePasses table.now }
    requires desc { DescPasses table.now desc.now }
    ensures { IsGiven result (json_body table.now desc.now content.now) }
{
    let answer = decode_content(alloc, room, table, desc, content);
    tree_argument(alloc, "unable to parse JSON body: ", answer)
}

// The tree that bytes denote as JSON.
fn decode_content(
    alloc: Global,
    room: &mut Scratch,
    table: &DescTable,
    desc: &Desc,
    content: &[u8],
) -> Result<Tree, DecodeError>
    requires table { TablePasses table.now }
    requires desc { DescPasses table.now desc.now }
    ensures { IsTold result (read_told table.now desc.now (value_read content.now)) }
{
    match Json::read_with(alloc, room, content) {
        Ok(json) => decode_json(alloc, table, desc, &json),
        Err(ReadError::Unreadable) => Err(whole_fault(alloc, FaultKind::NotJson)),
        Err(ReadError::OutOfMemory) => Err(DecodeError::OutOfMemory),
    }
}

fn form_argument(
    alloc: Global,
    table: &DescTable,
    desc: &Desc,
    content: &[u8],
) -> Result<Arg, ExtractError>
    requires table { TablePasses table.now }
    requires desc { DescPasses table.now desc.now }
    ensures { IsGiven result (form_body table.now desc.now content.now) }
{
    let answer = decode_form(alloc, table, desc, content);
    tree_argument(alloc, "unable to parse URL-encoded body: ", answer)
}

// The tree that bytes denote as a form.
fn decode_form(
    alloc: Global,
    table: &DescTable,
    desc: &Desc,
    content: &[u8],
) -> Result<Tree, DecodeError>
    requires table { TablePasses table.now }
    requires desc { DescPasses table.now desc.now }
    ensures { IsTold result (pairs_told table.now Refuse (form_pairs content.now) desc.now) }
{
    let pairs = form_pairs(alloc, content)?;
    decode_pairs(alloc, table, desc, &pairs, Repeats::Refuse)
}
