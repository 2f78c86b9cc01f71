//! The head of a request, made of the members of a line.
ghost use Rattle.std.specs.Prelude.{◌≡◌, ◌≢◌, [], ◌∷◌, IfNone, IfOk, IfSome, IsErrOf, List as ListOf, OnOk};
ghost use Rattle.std.specs.Prelude.{codes, length, ℕ};
ghost use Rattle.std.specs.List.{AllZip};
ghost use Rattle.std.specs.Str.{encode_utf8_all};
ghost use Rattle.header_lists.specs.HeaderLists.{Line};
ghost use Rattle.http_header.specs.Token.{IsToken};
ghost use Rattle.http_uri.specs.Uri.{Spells};
ghost use Rattle.http_uri.specs.declared.uri.Uri.{Uri as UriValue};
ghost use Rattle.request_parts.specs.declared.info.RequestInfo.{RequestInfo as InfoValue};
ghost use Rattle.request_lines.specs.RequestLines.{IsFieldLine, WrittenLine, field_line};
ghost use Rattle.request_lines.specs.Said.{IsHeadIn, IsLineOf, SaysLine, SaysTarget};

use crate::line_error::LineError;
use crate::members::{items_named, take_value, text_in, text_named};
use header_lists::HeaderList;
use http::{Method, Version};
use http_header::{HeaderName, HeaderValue};
use http_uri::Uri;
use request_parts::RequestInfo;
use schema_values::{Json, List, Member, Text};
use std::alloc::Global;

/// The head of a request, of which the members tell the method, the target and the header lines.
pub(crate) fn head_of(alloc: Global, members: &mut Vec<Member>) -> Result<RequestInfo, LineError>
    ensures head { IfOk result (IsHeadIn members.old.items) }
    ensures bad { IsErrOf result LineError.Bad → (info : InfoValue) → ¬ IsHeadIn members.old.items info }
{
    let method = method_of(alloc, &text_named(members, "method")?)?;
    let uri = target_of(take_value(members, "uri"))?;
    let lines = lines_of(alloc, items_named(alloc, members, "headers")?)?;
    Ok(RequestInfo::new(method, uri, Version::HTTP_11, lines, Text::new(alloc)))
}

fn method_of(alloc: Global, text: &Text) -> Result<Method, LineError>
    ensures same { IfOk result (λ method. method ≡ encode_utf8_all text.now) }
    ensures token { OnOk result (IsToken (encode_utf8_all text.now)) }
    ensures bad { IsErrOf result LineError.Bad → ¬ IsToken (encode_utf8_all text.now) }
{
    let method = Method::from_bytes(alloc, text.as_bytes())?;
    // What this call promises shows that the bytes are a token.
    let _token = method.as_str();
    Ok(method)
}

// The target that a value tells, the root where there is none; the text is not copied.
fn target_of(value: Option<Json>) -> Result<Uri, LineError>
    ensures spells { IfOk result (λ uri. (target : ListOf ℕ) × SaysTarget value target
        × Spells (encode_utf8_all target) uri) }
    ensures bad { IsErrOf result LineError.Bad → (target : ListOf ℕ) → SaysTarget value target
        → (uri : UriValue) → ¬ Spells (encode_utf8_all target) uri }
{
    match value {
        Some(json) => read_target(text_in(json)?),
        None => Ok(root_target()),
    }
}

// The target that is the root, which takes no memory.
fn root_target() -> Uri
    ensures { Spells (encode_utf8_all (codes "/")) result }
{
    Uri::default()
}

// The target that a text is read as.
fn read_target(text: Text) -> Result<Uri, LineError>
    ensures spells { IfOk result (Spells (encode_utf8_all text)) }
    ensures bad { IsErrOf result LineError.Bad → (uri : UriValue) → ¬ Spells (encode_utf8_all text) uri }
{
    let target = text.into_string();
    // What this call promises shows that the bytes are UTF-8.
    let _text = target.as_str();
    Ok(Uri::from_string(target)?)
}

fn lines_of(alloc: Global, items: List<Json>) -> Result<HeaderList, LineError>
    ensures lines { IfOk result (AllZip IsLineOf items) }
    ensures bad { IsErrOf result LineError.Bad → (lines : ListOf Line) → ¬ AllZip IsLineOf items lines }
{
    let mut lines = HeaderList::new(alloc);
    for item in items.into_vec() {
        let (name, value) = line_of(alloc, item)?;
        lines.append(name, value)?;
    }
    Ok(lines)
}

// The header line of a list of two texts. Where it is none, it takes no memory.
fn line_of(alloc: Global, json: Json) -> Result<(HeaderName, HeaderValue), LineError>
    ensures line { IfOk result (IsLineOf json) }
    ensures bad { IsErrOf result LineError.Bad → (line : Line) → ¬ IsLineOf json line }
    ensures memory { IsErrOf result LineError.OutOfMemory → (line : WrittenLine) × SaysLine json line }
{
    let Json::List(items) = json else {
        return Err(LineError::Bad);
    };
    match two_of(items) {
        Some((name, value)) => {
            let name = text_in(name)?;
            let value = text_in(value)?;
            header_line(alloc, &name, value)
        }
        None => Err(LineError::Bad),
    }
}

// The items of a list of two.
fn two_of(items: List<Json>) -> Option<(Json, Json)>
    ensures two { IfSome result (λ two. items ≡ two.0 ∷ two.1 ∷ []) }
    ensures other { IfNone result (length items ≢ 2) }
{
    if items.len() != 2 {
        return None;
    }
    let mut items = items.into_vec();
    let second = items.pop()?;
    let first = items.pop()?;
    Some((first, second))
}

// The header line of a name and a value; the name is put in lower case, and the value is not copied.
fn header_line(
    alloc: Global,
    name: &Text,
    value: Text,
) -> Result<(HeaderName, HeaderValue), LineError>
    ensures field { OnOk result (IsFieldLine (name.now, value)) }
    ensures line { IfOk result (λ made. made ≡ field_line (name.now, value)) }
    ensures bad { IsErrOf result LineError.Bad → ¬ IsFieldLine (name.now, value) }
{
    let name = HeaderName::from_bytes(alloc, name.as_bytes())?;
    let value = HeaderValue::from_vec(value.into_bytes().into_vec())?;
    Ok((name, value))
}
