//! Tokens: where the next page starts, as a client gets it and sends it back.
ghost use Rattle.std.specs.Prelude.{◌≡◌, ◌⊎◌, ◌<◌, ◌≤◌, IfOk, IfErr, Ok, Err, length};
ghost use Rattle.std.specs.Str.{encode_utf8_all};
ghost use Rattle.schema_values.specs.Depth.{depth};
ghost use Rattle.schema_values.specs.Sound.{IsSound};
ghost use Rattle.descriptors.specs.declared.tree.Tree.{Tree as TreeValue};
ghost use Rattle.typed_values.specs.Checks.{DescPasses, TablePasses};
ghost use Rattle.typed_values.specs.Denotes.{JsonDenotes};
ghost use Rattle.typed_values.specs.Encoding.{json_of_tree};
ghost use Rattle.typed_values.specs.Fits.{Fits};
ghost use Rattle.typed_values.specs.Reached.{ReachesNoUntagged};
ghost use Rattle.page_tokens.specs.Encoded.{IsTold, IsUnwritten};
ghost use Rattle.page_tokens.specs.Forms.{v1};
ghost use Rattle.page_tokens.specs.Reaching.{ReachesNoAny};
ghost use Rattle.page_tokens.specs.Tokens.{AreBytesRefused, HoldsStart, IsStartRefused};
ghost use Rattle.page_tokens.specs.Tokens.{IsTokenRefused, TokenReads, token_of};

use crate::encoding::{LARGEST, decoded, encoded};
use crate::form::{object_of, start_in};
use crate::token_error::TokenError;
use schema_values::{Json, ReadError, Text};
use std::alloc::Global;
use typed_values::{DecodeError, Desc, DescTable, Tree, decode_json, encode_json};

/// The token of a tree of the selector's descriptor: the base64, of the URL-safe alphabet with
/// padding (RFC 4648, section 5), of the compact JSON `{"v":"v1","page_start":S}`, where S is the
/// JSON of the tree.
///
/// `TooLarge`, with the token's length in bytes, exactly where it is above 512.
pub fn write_token(
    alloc: Global,
    table: &DescTable,
    selector: &Desc,
    tree: &Tree,
) -> Result<Text, TokenError>
    requires table { TablePasses table.now }
    requires desc { DescPasses table.now selector.now }
    requires fits { Fits table.now selector.now tree.now }
    ensures text { IfOk result (λ text. text ≡ token_of v1 table.now selector.now tree.now) }
    ensures bytes { IfOk result (λ text. encode_utf8_all text
        ≡ token_of v1 table.now selector.now tree.now) }
    ensures small { IfOk result (λ text. length (encode_utf8_all text) ≤ 512) }
    ensures refused { IfErr result (IsUnwritten (token_of v1 table.now selector.now tree.now)) }
    ensures too_large { 512 < length (token_of v1 table.now selector.now tree.now)
        → IsTold result
        (TokenError.TooLarge (length (token_of v1 table.now selector.now tree.now))) }
    // The token is read as the tree.
    ensures again { ReachesNoAny table.now selector.now → ReachesNoUntagged table.now selector.now
        → depth (json_of_tree table.now selector.now tree.now) ≤ 126
        → IfOk result (λ text.
        TokenReads v1 table.now selector.now (encode_utf8_all text) tree.now) }
{
    let start = encode_json(alloc, table, selector, tree)?;
    encoded(alloc, &object_of(alloc, start)?)
}

/// The tree of the selector's descriptor that a token reads as. Other members of the object than
/// `v` and `page_start` are not looked at.
///
/// `TooLarge`, with the token's length in bytes, exactly where it is above 512; the token is not
/// read then. `NotBase64` exactly where it is no base64 of the URL-safe alphabet with padding.
/// `Corrupted` exactly where the bytes that it encodes are no JSON object in which `v` is the text
/// `v1` and `page_start` denotes a tree.
pub fn read_token(
    alloc: Global,
    table: &DescTable,
    selector: &Desc,
    token: &str,
) -> Result<Tree, TokenError>
    requires table { TablePasses table.now }
    requires desc { DescPasses table.now selector.now }
    ensures reads { IfOk result (TokenReads v1 table.now selector.now token.now) }
    ensures fits { IfOk result (Fits table.now selector.now) }
    ensures complete { (tree : TreeValue) → TokenReads v1 table.now selector.now token.now tree
        → (result ≡ Ok tree) ⊎ (result ≡ Err TokenError.OutOfMemory) }
    ensures refused { IfErr result (IsTokenRefused v1 table.now selector.now token.now) }
    ensures too_large { 512 < length token.now
        → result ≡ Err (TokenError.TooLarge (length token.now)) }
    ensures not_base64 { IsTokenRefused v1 table.now selector.now token.now TokenError.NotBase64
        → IsTold result TokenError.NotBase64 }
    ensures corrupted { IsTokenRefused v1 table.now selector.now token.now TokenError.Corrupted
        → IsTold result TokenError.Corrupted }
{
    if token.len() > LARGEST {
        return Err(TokenError::TooLarge(token.len() as u64));
    }
    let bytes = decoded(alloc, token)?;
    held_tree(alloc, table, selector, &bytes)
}

// The tree of the selector that bytes hold.
fn held_tree(
    alloc: Global,
    table: &DescTable,
    selector: &Desc,
    bytes: &[u8],
) -> Result<Tree, TokenError>
    requires table { TablePasses table.now }
    requires desc { DescPasses table.now selector.now }
    ensures holds { IfOk result (HoldsStart v1 table.now selector.now bytes.now) }
    ensures fits { IfOk result (Fits table.now selector.now) }
    ensures refused { IfErr result (AreBytesRefused v1 table.now selector.now bytes.now) }
{
    let object = match Json::read(alloc, bytes) {
        Ok(object) => object,
        Err(ReadError::Unreadable) => return Err(TokenError::Corrupted),
        Err(ReadError::OutOfMemory) => return Err(TokenError::OutOfMemory),
    };
    match start_in(&object) {
        Some(start) => started_tree(alloc, table, selector, start),
        None => Err(TokenError::Corrupted),
    }
}

// The tree of the selector that its JSON denotes.
fn started_tree(
    alloc: Global,
    table: &DescTable,
    selector: &Desc,
    start: &Json,
) -> Result<Tree, TokenError>
    requires table { TablePasses table.now }
    requires desc { DescPasses table.now selector.now }
    ensures denotes { IfOk result (JsonDenotes table.now selector.now start.now) }
    ensures fits { IsSound start.now → IfOk result (Fits table.now selector.now) }
    ensures refused { IfErr result (IsStartRefused table.now selector.now start.now) }
{
    match decode_json(alloc, table, selector, start) {
        Ok(tree) => Ok(tree),
        Err(DecodeError::Fault(_)) => Err(TokenError::Corrupted),
        Err(DecodeError::OutOfMemory) => Err(TokenError::OutOfMemory),
    }
}
