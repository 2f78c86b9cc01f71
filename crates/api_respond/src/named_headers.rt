//! The header lines of successes.
ghost use Rattle.std.specs.Prelude.{◌≡◌, ℕ, List, [], ◌∷◌, ◌++◌, codes, IfErr, IfOk, IsTrue, OnOk};
ghost use Rattle.std.specs.Str.{encode_utf8_all};
ghost use Rattle.schema_values.specs.Ascii.{all_ascii};
ghost use Rattle.flat_maps.specs.MapErrors.{AnswersAs};
ghost use Rattle.http_header.specs.FieldName.{IsFieldName};
ghost use Rattle.http_header.specs.FieldValue.{is_visible_text};
ghost use Rattle.http_header.specs.Token.{lowercase};
ghost use Rattle.http_status.specs.ErrorLines.{header_line};
ghost use Rattle.handler_shapes.specs.ShapeChecks.{HeadersPass};
ghost use Rattle.typed_values.specs.Checks.{TablePasses};
ghost use Rattle.api_respond.specs.NamedHeaders.{AreHeaderLines, IfRefusal, IsFirstRefused};
ghost use Rattle.api_respond.specs.NamedHeaders.{IsHeaderEntry, IsRefusal, headers_written};
ghost use Rattle.api_respond.specs.NamedHeaders.{line_of, with_named};
ghost use Rattle.api_respond.specs.Responses.{content_lines};

use crate::reply::Content;
use flat_maps::{MapError, to_map_tree};
use http_header::{CONTENT_TYPE, HeaderName, HeaderNameError, HeaderValue, HeaderValueError};
use http_status::{CONTENT_TYPE_JSON, CONTENT_TYPE_OCTET_STREAM, HeaderList};
use schema_values::Text;
use std::alloc::{AllocError, Global};
use std::collections::BTreeMap;
use typed_values::{Desc, DescTable, Tree};

/// Why a success has no header lines.
#[derive(Drop)]
pub(crate) enum Unwritten {
    /// The named headers are no header lines, and this is what is told.
    Refused(Text),
    /// There was not enough memory.
    OutOfMemory,
}

impl From<AllocError> for Unwritten {
    ghost use Rattle.std.specs.Prelude.{◌≡◌};
    ghost use Rattle.api_respond.specs.declared.named_headers.Unwritten.TheVariants.{OutOfMemory};

    ghost from_gives = { λ _ e. e ≡ OutOfMemory };

    fn from(_: AllocError) -> Unwritten {
        Unwritten::OutOfMemory
    }
}

/// The map of texts that the named headers are written as; an empty one where there are none.
pub(crate) fn written_headers(
    alloc: Global,
    table: &DescTable,
    desc: &Option<Desc>,
    named: &Option<Tree>,
) -> Result<BTreeMap<Text, Text>, MapError>
    requires table { TablePasses table.now }
    requires desc { HeadersPass table.now desc.now }
    ensures { AnswersAs (λ map. map.entries) result (headers_written table.now desc.now named.now) }
{
    match (desc, named) {
        (Some(desc), Some(tree)) => to_map_tree(alloc, table, desc, tree),
        _ => Ok(BTreeMap::new(alloc)),
    }
}

// A text behind an ASCII prefix.
fn with_prefix(alloc: Global, prefix: &str, text: &Text) -> Result<Text, AllocError>
    requires { IsTrue (all_ascii prefix.now) }
    ensures { IfOk result (λ whole. whole ≡ prefix.now ++ text.now) }
{
    let mut whole = Text::from_ascii(alloc, prefix)?;
    whole.push_text(text)?;
    Ok(whole)
}

/// The header line that tells the type of a content, where there is one.
pub(crate) fn content_lines(alloc: Global, content: &Content) -> Result<HeaderList, AllocError>
    ensures { IfOk result (λ lines. lines ≡ content_lines content.now) }
{
    match content {
        Content::Json(_) => type_line(alloc, CONTENT_TYPE_JSON),
        Content::Freeform(_) => type_line(alloc, CONTENT_TYPE_OCTET_STREAM),
        Content::Empty => Ok(HeaderList::new(alloc)),
        Content::Bare(_) => Ok(HeaderList::new(alloc)),
    }
}

// The header line of a media type.
fn type_line(alloc: Global, media_type: &'static str) -> Result<HeaderList, AllocError>
    requires { IsTrue (is_visible_text media_type.now) }
    ensures { IfOk result (λ lines.
        lines ≡ header_line (codes "content-type") media_type.now ∷ []) }
{
    let mut lines = HeaderList::new(alloc);
    lines.append(CONTENT_TYPE, HeaderValue::from_static(media_type))?;
    Ok(lines)
}

/// Lines among which named headers are inserted, in the order of their names. The first that is no
/// header line is told.
pub(crate) fn insert_named(
    alloc: Global,
    lines: HeaderList,
    named: &BTreeMap<Text, Text>,
) -> Result<HeaderList, Unwritten>
    ensures lines { IfOk result (λ all. all ≡ with_named named.now.entries lines) }
    ensures valid { OnOk result (AreHeaderLines named.now.entries) }
    ensures refused { IfErr result (λ e. IfRefusal e (IsFirstRefused named.now.entries)) }
{
    let mut all = lines;
    for (name, text) in named.iter() {
        let (field, value) = header_line(alloc, name, text)?;
        all.insert(field, value)?;
    }
    Ok(all)
}

// The header line of a name and a text. The name is looked at first.
fn header_line(
    alloc: Global,
    name: &Text,
    text: &Text,
) -> Result<(HeaderName, HeaderValue), Unwritten>
    ensures line { IfOk result (λ line. line ≡ line_of (name.now, text.now)) }
    ensures valid { OnOk result (IsHeaderEntry (name.now, text.now)) }
    ensures refused { IfErr result (λ e. IfRefusal e (IsRefusal (name.now, text.now))) }
{
    let field = field_name(alloc, name)?;
    match HeaderValue::from_bytes(alloc, text.as_bytes()) {
        Ok(value) => Ok((field, value)),
        Err(HeaderValueError::Invalid) => Err(told(alloc, "bad header value: ", name)),
        Err(HeaderValueError::OutOfMemory) => Err(Unwritten::OutOfMemory),
    }
}

// The name of a header field, in lower case.
fn field_name(alloc: Global, name: &Text) -> Result<HeaderName, Unwritten>
    ensures name { IfOk result (λ field. field ≡ lowercase (encode_utf8_all name.now)) }
    ensures valid { OnOk result (IsFieldName (encode_utf8_all name.now)) }
    ensures refused { (text : List ℕ)
        → IfErr result (λ e. IfRefusal e (IsRefusal (name.now, text))) }
{
    match HeaderName::from_bytes(alloc, name.as_bytes()) {
        Ok(field) => Ok(field),
        Err(HeaderNameError::Invalid) => Err(told(alloc, "bad header name: ", name)),
        Err(HeaderNameError::OutOfMemory) => Err(Unwritten::OutOfMemory),
    }
}

/// A refusal that tells a text behind an ASCII prefix, or want of memory.
pub(crate) fn told(alloc: Global, prefix: &str, text: &Text) -> Unwritten
    requires { IsTrue (all_ascii prefix.now) }
    ensures { IfRefusal result (λ message. message ≡ prefix.now ++ text.now) }
{
    match with_prefix(alloc, prefix, text) {
        Ok(message) => Unwritten::Refused(message),
        Err(_) => Unwritten::OutOfMemory,
    }
}
