//! The media type of a request.

ghost use Rattle.std.specs.Prelude.{◌≡◌, IfOk, None, Ok, option_map};
ghost use Rattle.request_words.specs.HeaderLines.{is_blank};
ghost use Rattle.request_words.specs.MediaTypes.{before_parameters, without_end, type_of_value, media_type};
ghost use Rattle.request_words.specs.MediaTypes.{after_plus, ends_in_json, has_json_suffix};
ghost use Rattle.request_words.specs.MediaTypes.{is_json_type, is_form_type};

use crate::headers::{all_shown, first_line};
use crate::request::HeaderLine;
use crate::words::bytes_after;
use schema_values::List;
use std::alloc::{AllocError, Global};

/// The media type of a request with these header lines, in lower case: that of its first `content-type` line,
/// none where a byte of its value is not shown, and `application/json` where there is no such line (RFC 9110,
/// section 8.3). Fails only for want of memory, and never where there is none.
pub fn media_type(alloc: Global, lines: &[HeaderLine]) -> Result<Option<List<u8>>, AllocError>
    ensures media { IfOk result (λ media. media ≡ media_type lines.now) }
    ensures hidden { media_type lines.now ≡ None → result ≡ Ok None }
{
    match first_line(lines, b"content-type") {
        Some(value) => type_of_value(alloc, value),
        None => Ok(Some(List::from_bytes(alloc, b"application/json")?)),
    }
}

// The media type that a value gives.
fn type_of_value(alloc: Global, value: &[u8]) -> Result<Option<List<u8>>, AllocError>
    ensures media { IfOk result (λ media. media ≡ type_of_value value.now) }
    ensures hidden { type_of_value value.now ≡ None → result ≡ Ok None }
{
    if !all_shown(value) {
        return Ok(None);
    }
    let mut lower = without_end(before_parameters(value)).to_vec(alloc)?;
    lower.as_mut_slice().make_ascii_lowercase();
    Ok(Some(List::from_vec(lower)))
}

fn before_parameters(value: &[u8]) -> &[u8]
    ensures { result.now ≡ before_parameters value.now }
{
    match value.iter().position(|&byte| byte == b';') {
        Some(index) => &value[..index],
        None => value,
    }
}

fn without_end(value: &[u8]) -> &[u8]
    ensures { result.now ≡ without_end value.now }
{
    let mut value = value;
    while let Some((last, front)) = value.split_last() {
        if !is_blank(*last) {
            return value;
        }
        value = front;
    }
    value
}

fn is_blank(byte: u8) -> bool
    ensures { result ≡ is_blank byte }
{
    byte == b' ' || byte == b'\t'
}

/// Whether a media type, in lower case, is one of JSON: `application/json`, or one under `application/` whose
/// whole text after the first `+` is `json`.
pub fn is_json_type(media: &[u8]) -> bool
    ensures { result ≡ is_json_type media.now }
{
    media == b"application/json".as_slice() || has_json_suffix(media)
}

/// Whether a media type, in lower case, is that of forms.
pub fn is_form_type(media: &[u8]) -> bool
    ensures { result ≡ is_form_type media.now }
{
    media == b"application/x-www-form-urlencoded".as_slice()
}

fn has_json_suffix(media: &[u8]) -> bool
    ensures { result ≡ has_json_suffix media.now }
{
    match bytes_after(media, b"application/") {
        Some(subtype) => ends_in_json(subtype),
        None => false,
    }
}

fn ends_in_json(subtype: &[u8]) -> bool
    ensures { result ≡ ends_in_json subtype.now }
{
    match after_plus(subtype) {
        Some(suffix) => suffix == b"json".as_slice(),
        None => false,
    }
}

// What follows the first `+`.
fn after_plus(bytes: &[u8]) -> Option<&[u8]>
    ensures { option_map (λ rest. rest.now) result ≡ after_plus bytes.now }
{
    let mut bytes = bytes;
    while let Some((byte, rest)) = bytes.split_first() {
        if *byte == b'+' {
            return Some(rest);
        }
        bytes = rest;
    }
    None
}
