ghost use Rattle.std.specs.Prelude.{◌≡◌, length, ◌||◌, not, List, codes};
ghost use Rattle.std.specs.List.{list_all};
ghost use Rattle.schema_values.specs.declared.json_value.Json.{Json as JsonValue, out-Json};
ghost use Rattle.schema_values.specs.Get.{first_named};
ghost use Rattle.openapi_values.specs.Asked.{asked_json};
ghost use Rattle.openapi_values.specs.Keywords.{keyword_of};
ghost use Rattle.openapi_values.specs.Levels.{is_true, has_member, as_number, as_text};
ghost use Rattle.openapi_values.specs.Levels.{as_list, as_object};
ghost use Rattle.openapi_values.specs.Lookup.{is_integer, is_null_alone, is_null_form};
ghost use Rattle.openapi_values.specs.Options.{is_some_and, is_none_or};
ghost use Rattle.openapi_values.specs.Rows.{in_format, is_between, is_under, is_least, is_greatest};
ghost use Rattle.openapi_values.specs.Rows.{is_enough, is_not_too_many, is_property, names_stand, is_read};
ghost use Rattle.openapi_values.specs.Rows.{in_subset};

use crate::asked::{
    Asked, asked_items, asked_members, asked_number, asked_text, characters, is_null_value,
};
use crate::keywords::{Keyword, keyword_named};
use crate::schema_members::{find_word, has_type_named, stands};
use request_words::is_word;
use schema_values::{Json, Member, Text};

pub fn is_true_value(value: &Json) -> bool
    ensures { result ≡ is_true (out-Json value.now) }
{
    match value {
        Json::Bool(truth) => *truth,
        _ => false,
    }
}

/// Whether a schema has the form that null alone is written in.
pub fn has_null_form(schema: &[Member]) -> bool
    ensures { result ≡ is_null_form schema.now }
{
    has_type_named(schema, "string") && lists_null_alone(schema)
}

fn lists_null_alone(schema: &[Member]) -> bool
    ensures { result ≡ is_some_and (first_named (codes "enum") schema.now)
        (λ s. is_some_and (as_list (out-Json s)) is_null_alone) }
{
    match find_word(schema, "enum") {
        Some(Json::List(values)) => holds_null_alone(values.as_slice()),
        _ => false,
    }
}

fn holds_null_alone(values: &[Json]) -> bool
    ensures { result ≡ is_null_alone values.now }
{
    match values {
        [value] => is_null_value(value),
        _ => false,
    }
}

/// Whether each member of a schema is of the subset that is read.
pub fn all_read(schema: &[Member]) -> bool
    ensures { result ≡ in_subset schema.now }
{
    for member in schema {
        if !is_member_read(member) {
            return false;
        }
    }
    true
}

fn is_member_read(member: &Member) -> bool
    ensures { result ≡ is_read (keyword_of member.now.name) member.now.value }
{
    match keyword_named(&member.name) {
        Keyword::Reference | Keyword::Other => false,
        Keyword::AllOf => match &member.value {
            Json::List(schemas) => schemas.len() == 1,
            _ => false,
        },
        Keyword::Not => match &member.value {
            Json::Object(members) => members.len() == 0,
            _ => false,
        },
        _ => true,
    }
}

/// Whether a number is of the format that stands beside the type integer.
pub fn is_of_format(schema: &[Member], format: &Json, asked: &Asked) -> bool
    ensures { result ≡ is_none_or (as_number (out-Json (asked_json asked.now)))
        (λ n. not (is_integer schema.now) || is_some_and (as_text (out-Json format.now))
        (λ name. in_format name n)) }
{
    match asked_number(asked) {
        Some(number) => !has_type_named(schema, "integer") || is_in_format(format, &number),
        None => true,
    }
}

fn is_in_format(format: &Json, number: &i128) -> bool
    ensures { result ≡ is_some_and (as_text (out-Json format.now)) (λ name. in_format name number.now) }
{
    match format {
        Json::Text(name) => is_in_format_named(name, number),
        _ => false,
    }
}

#[tactic(auto, unfolding(crate::specs::Rows::in_format))]
fn is_in_format_named(name: &Text, number: &i128) -> bool
    ensures { result ≡ in_format name.now number.now }
{
    if is_word(name, "int8") {
        lies_between(-128, 127, number)
    } else if is_word(name, "int16") {
        lies_between(-32_768, 32_767, number)
    } else if is_word(name, "int32") {
        lies_between(-2_147_483_648, 2_147_483_647, number)
    } else if is_word(name, "int64") {
        lies_between(
            -9_223_372_036_854_775_808,
            9_223_372_036_854_775_807,
            number,
        )
    } else if is_word(name, "uint8") {
        lies_between(0, 255, number)
    } else if is_word(name, "uint16") {
        lies_between(0, 65_535, number)
    } else if is_word(name, "uint32") {
        lies_between(0, 4_294_967_295, number)
    } else if is_word(name, "uint64") {
        lies_between(0, 18_446_744_073_709_551_615, number)
    } else {
        true
    }
}

fn lies_between(low: i128, high: i128, number: &i128) -> bool
    ensures { result ≡ is_between low high number.now }
{
    low <= *number && *number <= high
}

/// Whether a number is at least the least one, or above it.
pub fn is_at_least(strictly: bool, least: &Json, asked: &Asked) -> bool
    ensures { result ≡ is_none_or (as_number (out-Json (asked_json asked.now)))
        (λ n. is_least strictly n least.now) }
{
    match asked_number(asked) {
        Some(number) => not_below(strictly, least, &number),
        None => true,
    }
}

/// Whether a number is at most the greatest one, or below it.
pub fn is_at_most(strictly: bool, greatest: &Json, asked: &Asked) -> bool
    ensures { result ≡ is_none_or (as_number (out-Json (asked_json asked.now)))
        (λ n. is_greatest strictly n greatest.now) }
{
    match asked_number(asked) {
        Some(number) => not_above(strictly, greatest, &number),
        None => true,
    }
}

fn not_below(strictly: bool, least: &Json, number: &i128) -> bool
    ensures { result ≡ is_least strictly number.now least.now }
{
    match least {
        Json::Int(least) => lies_under(strictly, least, number),
        _ => false,
    }
}

fn not_above(strictly: bool, greatest: &Json, number: &i128) -> bool
    ensures { result ≡ is_greatest strictly number.now greatest.now }
{
    match greatest {
        Json::Int(greatest) => lies_under(strictly, number, greatest),
        _ => false,
    }
}

fn lies_under(strictly: bool, low: &i128, high: &i128) -> bool
    ensures { result ≡ is_under strictly low.now high.now }
{
    if strictly {
        *low < *high
    } else {
        *low <= *high
    }
}

pub fn has_enough(count: usize, least: &Json) -> bool
    ensures { result ≡ is_enough count least.now }
{
    not_below(false, least, &(count as i128))
}

pub fn has_not_too_many(count: usize, greatest: &Json) -> bool
    ensures { result ≡ is_not_too_many count greatest.now }
{
    not_above(false, greatest, &(count as i128))
}

pub fn is_long_enough(least: &Json, asked: &Asked) -> bool
    ensures { result ≡ is_none_or (as_text (out-Json (asked_json asked.now)))
        (λ t. is_enough (length t) least.now) }
{
    match asked_text(asked) {
        Some(text) => has_enough(characters(text), least),
        None => true,
    }
}

pub fn is_short_enough(greatest: &Json, asked: &Asked) -> bool
    ensures { result ≡ is_none_or (as_text (out-Json (asked_json asked.now)))
        (λ t. is_not_too_many (length t) greatest.now) }
{
    match asked_text(asked) {
        Some(text) => has_not_too_many(characters(text), greatest),
        None => true,
    }
}

pub fn has_enough_items(least: &Json, asked: &Asked) -> bool
    ensures { result ≡ is_none_or (as_list (out-Json (asked_json asked.now)))
        (λ (xs : List JsonValue). is_enough (length xs) least.now) }
{
    match asked_items(asked) {
        Some(items) => has_enough(items.len(), least),
        None => true,
    }
}

pub fn has_few_items(greatest: &Json, asked: &Asked) -> bool
    ensures { result ≡ is_none_or (as_list (out-Json (asked_json asked.now)))
        (λ (xs : List JsonValue). is_not_too_many (length xs) greatest.now) }
{
    match asked_items(asked) {
        Some(items) => has_not_too_many(items.len(), greatest),
        None => true,
    }
}

pub fn has_enough_members(least: &Json, asked: &Asked) -> bool
    ensures { result ≡ is_none_or (as_object (out-Json (asked_json asked.now)))
        (λ ms. is_enough (length ms) least.now) }
{
    match asked_members(asked) {
        Some(members) => has_enough(members.len(), least),
        None => true,
    }
}

pub fn has_few_members(greatest: &Json, asked: &Asked) -> bool
    ensures { result ≡ is_none_or (as_object (out-Json (asked_json asked.now)))
        (λ ms. is_not_too_many (length ms) greatest.now) }
{
    match asked_members(asked) {
        Some(members) => has_not_too_many(members.len(), greatest),
        None => true,
    }
}

pub fn has_names(names: &Json, asked: &Asked) -> bool
    ensures { result ≡ is_none_or (as_object (out-Json (asked_json asked.now)))
        (λ ms. names_stand names.now ms) }
{
    match asked_members(asked) {
        Some(members) => all_named(names, members),
        None => true,
    }
}

fn all_named(names: &Json, members: &[Member]) -> bool
    ensures { result ≡ names_stand names.now members.now }
{
    match names {
        Json::List(names) => all_stand(names.as_slice(), members),
        _ => false,
    }
}

fn all_stand(names: &[Json], members: &[Member]) -> bool
    ensures { result ≡ list_all (λ name. is_some_and (as_text (out-Json name))
        (λ t. has_member t members.now)) names.now }
{
    for name in names {
        if !is_name(name, members) {
            return false;
        }
    }
    true
}

fn is_name(name: &Json, members: &[Member]) -> bool
    ensures { result ≡ is_some_and (as_text (out-Json name.now)) (λ t. has_member t members.now) }
{
    match name {
        Json::Text(name) => stands(members, name),
        _ => false,
    }
}

/// Whether a name is one of the schema's properties.
pub fn names_property(schema: &[Member], name: &Text) -> bool
    ensures { result ≡ is_property schema.now name.now }
{
    match find_word(schema, "properties") {
        Some(Json::Object(properties)) => stands(properties.as_slice(), name),
        _ => false,
    }
}
