//! The members of an object in a document.

ghost use Rattle.std.specs.Prelude.{◌≡◌, IsTrue, option_map};
ghost use Rattle.schema_values.specs.Ascii.{all_ascii};
ghost use Rattle.openapi_values.specs.RequestParameters.{text_of, is_true_at};

use openapi_values::get_word;
use schema_values::{Json, Text};

/// The text that a member is.
pub(crate) fn text_of<'a>(json: &'a Json, name: &str) -> Option<&'a Text>
    requires { IsTrue (all_ascii name.now) }
    ensures { option_map (λ text. text.now) result ≡ text_of name.now json.now }
{
    match get_word(json, name) {
        Some(Json::Text(text)) => Some(text),
        _ => None,
    }
}

/// Whether a member is true.
pub(crate) fn is_true_at(json: &Json, name: &str) -> bool
    requires { IsTrue (all_ascii name.now) }
    ensures { result ≡ is_true_at name.now json.now }
{
    match get_word(json, name) {
        Some(Json::Bool(truth)) => *truth,
        _ => false,
    }
}
