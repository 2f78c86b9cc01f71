ghost use Rattle.std.specs.Prelude.{◌≡◌, IsTrue, option_map, [], ◌∷◌};
ghost use Rattle.std.specs.Str.{chars};
ghost use Rattle.schema_values.specs.Ascii.{all_ascii};
ghost use Rattle.schema_values.specs.Get.{first_named, get_of};
ghost use Rattle.openapi_values.specs.Levels.{has_member};
ghost use Rattle.openapi_values.specs.Lookup.{definition, reference_in, is_set, is_of_type};

use request_words::{is_word, text_after};
use schema_values::{Json, Member, Text};

/// The value of the first member of a name.
pub fn find_member<'a>(members: &'a [Member], name: &Text) -> Option<&'a Json>
    ensures { option_map (λ json. json.now) result ≡ first_named name.now members.now }
{
    for member in members {
        if name.equals(&member.name) {
            return Some(&member.value);
        }
    }
    None
}

/// The value of the first member of a name that is an ASCII word.
pub fn find_word<'a>(members: &'a [Member], name: &str) -> Option<&'a Json>
    requires { IsTrue (all_ascii name.now) }
    ensures { option_map (λ json. json.now) result ≡ first_named name.now members.now }
{
    for member in members {
        if is_word(&member.name, name) {
            return Some(&member.value);
        }
    }
    None
}

/// Whether a member of a name stands.
pub fn stands(members: &[Member], name: &Text) -> bool
    ensures { result ≡ has_member name.now members.now }
{
    for member in members {
        if member.name.equals(name) {
            return true;
        }
    }
    false
}

/// The value of a name that is an ASCII word.
pub fn get_word<'a>(json: &'a Json, name: &str) -> Option<&'a Json>
    requires { IsTrue (all_ascii name.now) }
    ensures { option_map (λ json. json.now) result ≡ get_of name.now json.now }
{
    json.get(name)
}

/// The schema of a name in `components.schemas`.
pub fn definition_named<'a>(doc: &'a Json, name: &str) -> Option<&'a Json>
    ensures { option_map (λ json. json.now) result ≡ definition doc.now (chars name.now) }
{
    get_word(get_word(doc, "components")?, "schemas")?.get(name)
}

/// The name that a schema refers to, where `$ref` stands alone.
pub fn reference_of(schema: &[Member]) -> Option<&str>
    ensures { option_map (λ text. chars text.now) result ≡ reference_in schema.now }
{
    match schema {
        [member] => reference_at(member),
        _ => None,
    }
}

fn reference_at(member: &Member) -> Option<&str>
    ensures { option_map (λ text. chars text.now) result ≡ reference_in (member.now ∷ []) }
{
    if is_word(&member.name, "$ref") {
        match &member.value {
            Json::Text(text) => text_after(text, "#/components/schemas/"),
            _ => None,
        }
    } else {
        None
    }
}

/// Whether a schema's member is true.
pub fn is_set_true(schema: &[Member], name: &str) -> bool
    requires { IsTrue (all_ascii name.now) }
    ensures { result ≡ is_set name.now schema.now }
{
    match find_word(schema, name) {
        Some(Json::Bool(truth)) => *truth,
        _ => false,
    }
}

/// Whether a schema has the type of a name that is an ASCII word.
pub fn has_type_named(schema: &[Member], name: &str) -> bool
    requires { IsTrue (all_ascii name.now) }
    ensures { result ≡ is_of_type name.now schema.now }
{
    match find_word(schema, "type") {
        Some(Json::Text(text)) => is_word(text, name),
        _ => false,
    }
}
