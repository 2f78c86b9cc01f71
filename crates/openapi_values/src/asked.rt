// What a schema is asked of at one value: a JSON value, or a text, of which no value is made.
ghost use Rattle.std.specs.Prelude.{◌≡◌, length, option_map};
ghost use Rattle.std.specs.List.{list_any};
ghost use Rattle.std.specs.Str.{chars};
ghost use Rattle.schema_values.specs.declared.json_value.Json.{Text as Words, out-Json};
ghost use Rattle.schema_values.specs.Same.{same_json};
ghost use Rattle.openapi_values.specs.Asked.{asked_json};
ghost use Rattle.openapi_values.specs.Levels.{is_null, has_type, as_number, as_text, as_list, as_object};
ghost use Rattle.openapi_values.specs.Options.{is_some_and};
ghost use Rattle.openapi_values.specs.Rows.{is_listed};

use request_words::is_word;
use schema_values::{Json, Member, Text};

/// A JSON value, or a text, which stands for the JSON text of its characters.
#[derive(Clone, Copy)]
pub(crate) enum Asked<'a> {
    Value(&'a Json),
    Text(&'a str),
}

/// Whether a value is null.
pub(crate) fn is_null_value(value: &Json) -> bool
    ensures { result ≡ is_null (out-Json value.now) }
{
    match value {
        Json::Null => true,
        _ => false,
    }
}

/// Whether null is asked.
pub(crate) fn is_null_asked(asked: &Asked) -> bool
    ensures { result ≡ is_null (out-Json (asked_json asked.now)) }
{
    match *asked {
        Asked::Value(value) => is_null_value(value),
        Asked::Text(_) => false,
    }
}

/// The number that is asked, where it is one.
pub(crate) fn asked_number(asked: &Asked) -> Option<i128>
    ensures { result ≡ as_number (out-Json (asked_json asked.now)) }
{
    match *asked {
        Asked::Value(Json::Int(number)) => Some(*number),
        _ => None,
    }
}

/// The items of the list that is asked, where it is one.
pub(crate) fn asked_items<'a>(asked: &Asked<'a>) -> Option<&'a [Json]>
    ensures { option_map (λ items. items.now) result ≡ as_list (out-Json (asked_json asked.now)) }
{
    match *asked {
        Asked::Value(Json::List(items)) => Some(items.as_slice()),
        _ => None,
    }
}

/// The members of the object that is asked, where it is one.
pub(crate) fn asked_members<'a>(asked: &Asked<'a>) -> Option<&'a [Member]>
    ensures { option_map (λ members. members.now) result ≡ as_object (out-Json (asked_json asked.now)) }
{
    match *asked {
        Asked::Value(Json::Object(members)) => Some(members.as_slice()),
        _ => None,
    }
}

/// The text that is asked, where it is one.
pub(crate) fn asked_text<'a>(asked: &Asked<'a>) -> Option<&'a str>
    ensures { option_map (λ text. chars text.now) result ≡ as_text (out-Json (asked_json asked.now)) }
{
    match *asked {
        Asked::Value(Json::Text(text)) => Some(text.as_str()),
        Asked::Text(text) => Some(text),
        _ => None,
    }
}

/// The number of characters of a text.
pub(crate) fn characters(text: &str) -> usize
    ensures { result ≡ length (chars text.now) }
{
    text.chars().count()
}

/// Whether what is asked is of the type of a name.
pub(crate) fn is_of_type(name: &Json, asked: &Asked) -> bool
    ensures { result ≡ is_some_and (as_text (out-Json name.now))
        (λ name. has_type name (out-Json (asked_json asked.now))) }
{
    match name {
        Json::Text(name) => is_asked_type(name, asked),
        _ => false,
    }
}

fn is_asked_type(name: &Text, asked: &Asked) -> bool
    ensures { result ≡ has_type name.now (out-Json (asked_json asked.now)) }
{
    match *asked {
        Asked::Value(value) => is_type(name, value),
        Asked::Text(_) => is_word(name, "string"),
    }
}

fn is_type(name: &Text, value: &Json) -> bool
    ensures { result ≡ has_type name.now (out-Json value.now) }
{
    match value {
        Json::Null => false,
        Json::Bool(_) => is_word(name, "boolean"),
        Json::Int(_) => is_word(name, "integer"),
        Json::Text(_) => is_word(name, "string"),
        Json::List(_) => is_word(name, "array"),
        Json::Object(_) => is_word(name, "object"),
    }
}

/// Whether what is asked is one of the values in a list.
pub(crate) fn is_in_list(values: &Json, asked: &Asked) -> bool
    ensures { result ≡ is_listed (asked_json asked.now) values.now }
{
    match values {
        Json::List(values) => is_asked_among(values.as_slice(), asked),
        _ => false,
    }
}

fn is_asked_among(values: &[Json], asked: &Asked) -> bool
    ensures { result ≡ list_any (same_json (asked_json asked.now)) values.now }
{
    match *asked {
        Asked::Value(value) => is_one_of(values, value),
        Asked::Text(text) => is_text_among(values, text),
    }
}

/// Whether a value is one of some values.
pub(crate) fn is_one_of(values: &[Json], value: &Json) -> bool
    ensures { result ≡ list_any (same_json value.now) values.now }
{
    for listed in values {
        if value.equals(listed) {
            return true;
        }
    }
    false
}

fn is_text_among(values: &[Json], text: &str) -> bool
    ensures { result ≡ list_any (same_json (Words (chars text.now))) values.now }
{
    for value in values {
        if is_text(value, text) {
            return true;
        }
    }
    false
}

#[tactic(auto, using(crate::proofs::SameText::same_text))]
fn is_text(value: &Json, text: &str) -> bool
    ensures { result ≡ same_json (Words (chars text.now)) value.now }
{
    match value {
        Json::Text(other) => other.equals_str(text),
        _ => false,
    }
}
