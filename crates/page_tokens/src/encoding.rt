// Base64 of JSON.
ghost use Rattle.std.specs.Prelude.{◌≡◌, ◌<◌, ◌≤◌, IfOk, IfErr, Ok, length};
ghost use Rattle.std.specs.Str.{encode_utf8_all};
ghost use Rattle.base64.specs.Engines.{url_safe};
ghost use Rattle.base64.specs.GeneralPurpose.{decode_of};
ghost use Rattle.schema_values.specs.Depth.{depth};
ghost use Rattle.schema_values.specs.Sound.{IsSound};
ghost use Rattle.schema_values.specs.SortedMembers.{sorted_members};
ghost use Rattle.page_tokens.specs.Encoded.{EncodesJson, IsTold, IsUndecoded, IsUnwritten};
ghost use Rattle.page_tokens.specs.Encoded.{encoding_of};
ghost use Rattle.page_tokens.specs.declared.token_error.TokenError.{TokenError};

use crate::token_error::TokenError;
use base64::DecodeAllocError;
use base64::engine::general_purpose::URL_SAFE;
use schema_values::{Json, Text};
use std::alloc::Global;

/// The largest token, in bytes.
pub(crate) const LARGEST: usize = 512;

/// The base64 of the compact text of a value.
pub(crate) fn encoded(alloc: Global, json: &Json) -> Result<Text, TokenError>
    ensures text { IfOk result (λ text. text ≡ encoding_of json.now) }
    ensures bytes { IfOk result (λ text. encode_utf8_all text ≡ encoding_of json.now) }
    ensures small { IfOk result (λ text. length (encode_utf8_all text) ≤ 512) }
    ensures refused { IfErr result (IsUnwritten (encoding_of json.now)) }
    ensures too_large { 512 < length (encoding_of json.now)
        → IsTold result (TokenError.TooLarge (length (encoding_of json.now))) }
    ensures again { IsSound json.now → depth json.now ≤ 127
        → IfOk result (λ text. EncodesJson (encode_utf8_all text) (sorted_members json.now)) }
{
    let text = json.compact(alloc)?;
    let token = URL_SAFE.encode(alloc, text.as_bytes())?;
    if token.len() > LARGEST {
        return Err(TokenError::TooLarge(token.len() as u64));
    }
    Ok(Text::from_string(token))
}

/// The bytes that a token encodes.
pub(crate) fn decoded(alloc: Global, token: &str) -> Result<Vec<u8>, TokenError>
    ensures ok { IfOk result (λ bytes. decode_of url_safe token.now ≡ Ok bytes.items) }
    ensures refused { IfErr result (IsUndecoded token.now) }
{
    match URL_SAFE.decode(alloc, token.as_bytes()) {
        Ok(bytes) => Ok(bytes),
        Err(DecodeAllocError::OutOfMemory) => Err(TokenError::OutOfMemory),
        Err(DecodeAllocError::DecodeError(_)) => Err(TokenError::NotBase64),
    }
}
