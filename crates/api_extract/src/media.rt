// The media type of a request.
ghost use Rattle.std.specs.Prelude.{◌≡◌, true, IfOk, IfSome, map, option_map};
ghost use Rattle.std.specs.Str.{chars};
ghost use Rattle.request_parts.specs.Wire.{wire_line};
ghost use Rattle.request_words.specs.HeaderLines.{all_shown};
ghost use Rattle.request_words.specs.MediaTypes.{media_type};
ghost use Rattle.api_extract.specs.TypedBodies.{media_by_value};

use header_lists::HeaderList;
use header_texts::first_line;
use http_header::HeaderValue;
use request_words::{HeaderLine, media_type};
use schema_values::{List, Text};
use std::alloc::{AllocError, Global};
use std::{slice, str};

/// The media type of a request with these header lines: that of its first `content-type` line, none
/// where a byte of it is not shown, and `application/json` where there is no such line.
pub(crate) fn request_media(
    alloc: Global,
    headers: &HeaderList,
) -> Result<Option<List<u8>>, AllocError>
    ensures media { IfOk result (λ media. media ≡ media_type (map wire_line headers.now)) }
    ensures shown { IfOk result (λ media. IfSome media (λ media. all_shown media ≡ true)) }
{
    media_of(alloc, first_line(headers.lines(), b"content-type"))
}

// The media type that the value of a line gives, or that of no line.
fn media_of(alloc: Global, value: Option<&HeaderValue>) -> Result<Option<List<u8>>, AllocError>
    ensures media { IfOk result (λ media.
        media ≡ media_by_value (option_map (λ value. value.now.bytes) value.entry)) }
    ensures shown { IfOk result (λ media. IfSome media (λ media. all_shown media ≡ true)) }
{
    match value {
        Some(value) => {
            let line = HeaderLine {
                name: Text::from_ascii(alloc, "content-type")?,
                value: List::from_bytes(alloc, value.as_bytes())?,
            };
            media_type(alloc, slice::from_ref(&line))
        }
        None => media_type(alloc, &[]),
    }
}

/// Bytes that are shown, as a text.
pub(crate) fn media_text(media: &[u8]) -> &str
    requires { all_shown media.now ≡ true }
    ensures bytes { result.now ≡ media.now }
    ensures characters { chars result.now ≡ media.now }
{
    match str::from_utf8(media) {
        Ok(text) => text,
        Err(_) => unreachable!(),
    }
}
