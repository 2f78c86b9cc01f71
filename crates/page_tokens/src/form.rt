// The JSON object that a token encodes.
ghost use Rattle.std.specs.Prelude.{◌≡◌, ◌↔◌, IfOk, IsTrue, MatchOption, option_map};
ghost use Rattle.schema_values.specs.Ascii.{all_ascii};
ghost use Rattle.schema_values.specs.Get.{get_of};
ghost use Rattle.schema_values.specs.declared.json_value.Json.{Json as JsonValue, Text as Words};
ghost use Rattle.page_tokens.specs.Forms.{v1};

use schema_values::{Json, List, Member, Text};
use std::alloc::{AllocError, Global};

/// The object of the first version, by the JSON of a selector.
pub(crate) fn object_of(alloc: Global, start: Json) -> Result<Json, AllocError>
    ensures { IfOk result (λ object. object ≡ v1.object start) }
{
    let mut members = List::new(alloc);
    members.push(Member {
        name: Text::from_ascii(alloc, "v")?,
        value: Json::Text(Text::from_ascii(alloc, "v1")?),
    })?;
    members.push(Member {
        name: Text::from_ascii(alloc, "page_start")?,
        value: start,
    })?;
    Ok(Json::Object(members))
}

/// The JSON of the selector in an object of the first version.
pub(crate) fn start_in(object: &Json) -> Option<&Json>
    ensures { MatchOption result ((start : JsonValue) → v1.HasStart object.now start → ⊥)
        (λ start. v1.HasStart object.now start.now) }
{
    match member(object, "v") {
        Some(version) => {
            if is_text(version, "v1") {
                member(object, "page_start")
            } else {
                None
            }
        }
        None => None,
    }
}

// The value of the first member of a name in ASCII.
fn member<'a>(object: &'a Json, name: &str) -> Option<&'a Json>
    requires { IsTrue (all_ascii name.now) }
    ensures { option_map (λ json. json.now) result ≡ get_of name.now object.now }
{
    object.get(name)
}

// Whether a value is a text in ASCII.
fn is_text(json: &Json, text: &str) -> bool
    requires { IsTrue (all_ascii text.now) }
    ensures { IsTrue result ↔ (json.now ≡ Words text.now) }
{
    match json {
        Json::Text(words) => words.equals_str(text),
        _ => false,
    }
}
