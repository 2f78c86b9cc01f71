//! Whether the body of a request holds.

ghost use Rattle.std.specs.Prelude.{◌≡◌, ◌↔◌, IfOk, IsTrue, false, option_map};
ghost use Rattle.std.specs.Option.{option_map_or};
ghost use Rattle.schema_values.specs.Ascii.{all_ascii};
ghost use Rattle.schema_values.specs.Sound.{IsSound};
ghost use Rattle.request_words.specs.MediaTypes.{media_type as type_of_lines};
ghost use Rattle.request_words.specs.MediaTypes.{is_json_type as names_json, is_form_type as names_forms};
ghost use Rattle.openapi_values.specs.RequestBodies.{media_in, schema_under, IsJsonOf, IsFormOf};
ghost use Rattle.openapi_values.specs.RequestBodies.{IsJsonBody, IsFormBody, BodyHolds};

use crate::forms::form_admitted;
use openapi_values::{WireRequest, get_word, json_admits};
use request_words::{SortedPairs, form_pairs, is_form_type, is_json_type, media_type};
use schema_values::{Json, List, ReadError};
use std::alloc::{AllocError, Global};

/// Whether a request holds of what an operation says of its body. Fails only for want of memory.
pub(crate) fn body_holds(
    alloc: Global,
    doc: &Json,
    request: &WireRequest,
    body: &Json,
) -> Result<bool, AllocError>
    requires doc { IsSound doc.now }
    requires body { IsSound body.now }
    ensures { IfOk result (λ holds. IsTrue holds ↔ BodyHolds doc.now request.now body.now) }
{
    if media_in(body, "application/octet-stream").is_some() {
        return Ok(true);
    }
    let media = media_type(alloc, request.headers.as_slice())?;
    if json_body_holds(alloc, doc, request, &media, body)? {
        return Ok(true);
    }
    form_body_holds(alloc, doc, request, &media, body)
}

// What stands under a media type.
fn media_in<'a>(body: &'a Json, media: &str) -> Option<&'a Json>
    requires { IsTrue (all_ascii media.now) }
    ensures { option_map (λ json. json.now) result ≡ media_in media.now body.now }
{
    get_word(get_word(body, "content")?, media)
}

// The schema under a media type.
fn schema_under<'a>(body: &'a Json, media: &str) -> Option<&'a Json>
    requires { IsTrue (all_ascii media.now) }
    ensures { option_map (λ json. json.now) result ≡ schema_under media.now body.now }
{
    get_word(media_in(body, media)?, "schema")
}

fn json_body_holds(
    alloc: Global,
    doc: &Json,
    request: &WireRequest,
    media: &Option<List<u8>>,
    body: &Json,
) -> Result<bool, AllocError>
    requires media { media.now ≡ type_of_lines request.now.headers }
    ensures { IfOk result (λ holds. IsTrue holds ↔ IsJsonBody doc.now request.now body.now) }
{
    match schema_under(body, "application/json") {
        Some(schema) => is_json_of(alloc, doc, request, media, schema),
        None => Ok(false),
    }
}

// Whether the media type is one of JSON, and the body JSON that a schema admits.
fn is_json_of(
    alloc: Global,
    doc: &Json,
    request: &WireRequest,
    media: &Option<List<u8>>,
    schema: &Json,
) -> Result<bool, AllocError>
    requires media { media.now ≡ type_of_lines request.now.headers }
    ensures { IfOk result (λ holds. IsTrue holds ↔ IsJsonOf doc.now request.now schema.now) }
{
    if !is_json(media) {
        return Ok(false);
    }
    match Json::read(alloc, request.body.as_slice()) {
        Ok(json) => Ok(json_admits(doc, schema, &json)),
        Err(ReadError::Unreadable) => Ok(false),
        Err(ReadError::OutOfMemory) => Err(AllocError),
    }
}

fn is_json(media: &Option<List<u8>>) -> bool
    ensures { result ≡ option_map_or names_json media.now false }
{
    match media {
        Some(media) => is_json_type(media.as_slice()),
        None => false,
    }
}

fn form_body_holds(
    alloc: Global,
    doc: &Json,
    request: &WireRequest,
    media: &Option<List<u8>>,
    body: &Json,
) -> Result<bool, AllocError>
    requires media { media.now ≡ type_of_lines request.now.headers }
    requires doc { IsSound doc.now }
    requires body { IsSound body.now }
    ensures { IfOk result (λ holds. IsTrue holds ↔ IsFormBody doc.now request.now body.now) }
{
    match schema_under(body, "application/x-www-form-urlencoded") {
        Some(schema) => is_form_of(alloc, doc, request, media, schema),
        None => Ok(false),
    }
}

// Whether the media type is that of forms, and the body a form that a schema admits.
fn is_form_of(
    alloc: Global,
    doc: &Json,
    request: &WireRequest,
    media: &Option<List<u8>>,
    schema: &Json,
) -> Result<bool, AllocError>
    requires media { media.now ≡ type_of_lines request.now.headers }
    requires doc { IsSound doc.now }
    requires schema { IsSound schema.now }
    ensures { IfOk result (λ holds. IsTrue holds ↔ IsFormOf doc.now request.now schema.now) }
{
    if !is_form(media) {
        return Ok(false);
    }
    let pairs = form_pairs(alloc, request.body.as_slice())?;
    let pairs = SortedPairs::new(alloc, pairs.as_slice())?;
    Ok(form_admitted(doc, schema, &pairs))
}

fn is_form(media: &Option<List<u8>>) -> bool
    ensures { result ≡ option_map_or names_forms media.now false }
{
    match media {
        Some(media) => is_form_type(media.as_slice()),
        None => false,
    }
}
