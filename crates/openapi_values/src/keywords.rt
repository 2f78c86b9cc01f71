ghost use Rattle.std.specs.Prelude.{◌≡◌};
ghost use Rattle.openapi_values.specs.Keywords.{is_annotation, bound_or, part_of, keyword_of};

use request_words::{is_word, text_after};
use schema_values::Text;

/// The members of a schema object, by their names (OpenAPI 3.0.3, Schema Object).
#[derive(Clone, Copy, Debug, PartialEq, Eq)]
pub enum Keyword {
    /// `$ref`.
    Reference,
    /// `nullable`.
    Nullable,
    /// A member that admits nothing and refuses nothing, as `title` or `x-kind`.
    Annotation,
    /// `type`.
    OfType,
    /// `format`.
    Format,
    /// `enum`.
    Enum,
    /// `minimum`.
    Minimum,
    /// `maximum`.
    Maximum,
    /// `exclusiveMinimum`.
    ExclusiveMinimum,
    /// `exclusiveMaximum`.
    ExclusiveMaximum,
    /// `minLength`.
    MinLength,
    /// `maxLength`.
    MaxLength,
    /// `items`.
    Items,
    /// `minItems`.
    MinItems,
    /// `maxItems`.
    MaxItems,
    /// `properties`.
    Properties,
    /// `required`.
    Required,
    /// `additionalProperties`.
    AdditionalProperties,
    /// `minProperties`.
    MinProperties,
    /// `maxProperties`.
    MaxProperties,
    /// `allOf`.
    AllOf,
    /// `anyOf`.
    AnyOf,
    /// `oneOf`.
    OneOf,
    /// `not`.
    Not,
    /// Any other name: a schema that has one admits nothing.
    Other,
}

#[tactic(auto, unfolding(crate::specs::Keywords::is_annotation))]
fn names_annotation(name: &Text) -> bool
    ensures { result ≡ is_annotation name.now }
{
    is_word(name, "title")
        || is_word(name, "description")
        || is_word(name, "default")
        || is_word(name, "readOnly")
        || is_word(name, "writeOnly")
        || is_word(name, "deprecated")
        || is_word(name, "example")
        || text_after(name, "x-").is_some()
}

#[tactic(auto, unfolding(crate::specs::Keywords::bound_or))]
fn bound_named(name: &Text, other: Keyword) -> Keyword
    ensures { result ≡ bound_or other name.now }
{
    if is_word(name, "minimum") {
        Keyword::Minimum
    } else if is_word(name, "maximum") {
        Keyword::Maximum
    } else if is_word(name, "exclusiveMinimum") {
        Keyword::ExclusiveMinimum
    } else if is_word(name, "exclusiveMaximum") {
        Keyword::ExclusiveMaximum
    } else if is_word(name, "minLength") {
        Keyword::MinLength
    } else if is_word(name, "maxLength") {
        Keyword::MaxLength
    } else if is_word(name, "minItems") {
        Keyword::MinItems
    } else if is_word(name, "maxItems") {
        Keyword::MaxItems
    } else if is_word(name, "minProperties") {
        Keyword::MinProperties
    } else if is_word(name, "maxProperties") {
        Keyword::MaxProperties
    } else {
        other
    }
}

#[tactic(auto, unfolding(crate::specs::Keywords::part_of))]
fn part_named(name: &Text) -> Keyword
    ensures { result ≡ part_of name.now }
{
    if is_word(name, "$ref") {
        Keyword::Reference
    } else if is_word(name, "nullable") {
        Keyword::Nullable
    } else if is_word(name, "type") {
        Keyword::OfType
    } else if is_word(name, "format") {
        Keyword::Format
    } else if is_word(name, "enum") {
        Keyword::Enum
    } else if is_word(name, "items") {
        Keyword::Items
    } else if is_word(name, "properties") {
        Keyword::Properties
    } else if is_word(name, "required") {
        Keyword::Required
    } else if is_word(name, "additionalProperties") {
        Keyword::AdditionalProperties
    } else if is_word(name, "allOf") {
        Keyword::AllOf
    } else if is_word(name, "anyOf") {
        Keyword::AnyOf
    } else if is_word(name, "oneOf") {
        Keyword::OneOf
    } else if is_word(name, "not") {
        Keyword::Not
    } else {
        Keyword::Other
    }
}

/// The member that a name stands for.
pub fn keyword_named(name: &Text) -> Keyword
    ensures { result ≡ keyword_of name.now }
{
    if names_annotation(name) {
        Keyword::Annotation
    } else {
        bound_named(name, part_named(name))
    }
}
