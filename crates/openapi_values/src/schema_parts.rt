ghost use Rattle.std.specs.Prelude.{◌≡◌, ◌++◌, ◌∷◌, [], IfOk, IsTrue, OnOk, Some, codes, option_map};
ghost use Rattle.std.specs.Prelude.{option_and_then};
ghost use Rattle.std.specs.Option.{option_or, option_map_or};
ghost use Rattle.schema_values.specs.Ascii.{all_ascii};
ghost use Rattle.schema_values.specs.Get.{first_named};
ghost use Rattle.schema_values.specs.declared.json_value.Json.{Text as TextOf};
ghost use Rattle.schema_values.specs.declared.schema.SchemaObject.{out-SchemaObject};
ghost use Rattle.openapi_values.specs.Objects.{members_of};
ghost use Rattle.openapi_values.specs.SchemaJson.{annotations, extension_entries};
ghost use Rattle.openapi_values.specs.SchemaJson.{number_entries, bound_entries, text_entries};
ghost use Rattle.openapi_values.specs.SchemaJson.{bound_json as json_of_bound, nothing_entries};
ghost use Rattle.openapi_values.specs.SchemaJson.{enum_entries, const_values, null_values, values_of};
ghost use Rattle.openapi_values.specs.SchemaJson.{values_json as json_of_values, without_values};
ghost use Rattle.openapi_values.specs.SchemaJson.{count_json as count_of};
ghost use Rattle.openapi_values.specs.SchemaJson.{truth_json as json_of_truth, type_name};

use crate::objects::{add, add_option, true_json};
use crate::part::{copy_option, option_json};
use crate::schema_members::find_word;
use request_words::text_after;
use schema_values::{
    InstanceType, Json, LengthBounds, List, Member, NumberBounds, SchemaObject, Text,
};
use std::alloc::{AllocError, Global};

/// `{}` for true, and `{"not":{}}` for false.
pub fn truth_json(alloc: Global, truth: bool) -> Result<Json, AllocError>
    ensures { IfOk result (λ json. json ≡ json_of_truth truth) }
{
    let mut members = List::new(alloc);
    if !truth {
        add_nothing(alloc, &mut members)?;
    }
    Ok(Json::Object(members))
}

/// Adds what admits nothing.
pub fn add_nothing(alloc: Global, members: &mut List<Member>) -> Result<(), AllocError>
    ensures { OnOk result (members.new ≡ members.old ++ members_of nothing_entries) }
{
    let all = Json::Object(List::new(alloc));
    add(alloc, members, "not", Some(all))
}

/// The name of a type.
pub fn type_text(alloc: Global, kind: InstanceType) -> Result<Json, AllocError>
    ensures { IfOk result (λ json. json ≡ TextOf (type_name kind)) }
{
    let name = match kind {
        InstanceType::Null => Text::from_ascii(alloc, "string")?,
        InstanceType::Boolean => Text::from_ascii(alloc, "boolean")?,
        InstanceType::Object => Text::from_ascii(alloc, "object")?,
        InstanceType::Array => Text::from_ascii(alloc, "array")?,
        InstanceType::Number => Text::from_ascii(alloc, "number")?,
        InstanceType::String => Text::from_ascii(alloc, "string")?,
        InstanceType::Integer => Text::from_ascii(alloc, "integer")?,
    };
    Ok(Json::Text(name))
}

fn count_json(count: Option<u32>) -> Option<Json>
    ensures { result ≡ count_of count }
{
    match count {
        Some(count) => Some(Json::Int(count as i128)),
        None => None,
    }
}

/// Adds the least and the greatest count of something, where they are given.
pub fn add_counts(
    alloc: Global,
    members: &mut List<Member>,
    least_name: &str,
    least: Option<u32>,
    greatest_name: &str,
    greatest: Option<u32>,
) -> Result<(), AllocError>
    requires least { IsTrue (all_ascii least_name.now) }
    requires greatest { IsTrue (all_ascii greatest_name.now) }
    ensures { OnOk result (members.new ≡ members.old ++ members_of
        ((least_name.now, count_of least) ∷ (greatest_name.now, count_of greatest) ∷ [])) }
{
    add(alloc, members, least_name, count_json(least))?;
    add(alloc, members, greatest_name, count_json(greatest))
}

/// The given title, or else the schema's own.
fn title_json(
    alloc: Global,
    given: &Option<Text>,
    title: &Option<Text>,
) -> Result<Option<Json>, AllocError>
    ensures { IfOk result (λ json. json ≡ option_map TextOf (option_or given.now title.now)) }
{
    match given {
        Some(given) => Ok(Some(Json::Text(given.copy(alloc)?))),
        None => option_json(alloc, title),
    }
}

/// The extension `example`, which is written as the annotation of that name.
fn example_json(alloc: Global, extensions: &[Member]) -> Result<Option<Json>, AllocError>
    ensures { IfOk result (λ json. json ≡ first_named (codes "example") extensions.now) }
{
    match find_word(extensions, "example") {
        Some(value) => Ok(Some(value.copy(alloc)?)),
        None => Ok(None),
    }
}

/// Adds the extensions, whose names begin with `x-`, and no other member.
fn add_extensions(
    alloc: Global,
    members: &mut List<Member>,
    extensions: &[Member],
) -> Result<(), AllocError>
    ensures { OnOk result (members.new ≡ members.old ++ members_of (extension_entries extensions.now)) }
{
    for extension in extensions {
        if text_after(&extension.name, "x-").is_some() {
            members.push(extension.copy(alloc)?)?;
        }
    }
    Ok(())
}

/// Adds the annotations, which come first.
pub fn add_annotations(
    alloc: Global,
    members: &mut List<Member>,
    given: &Option<Text>,
    schema: &SchemaObject,
) -> Result<(), AllocError>
    ensures { OnOk result (members.new ≡ members.old ++ members_of
        (annotations given.now (out-SchemaObject schema.now))) }
{
    add(alloc, members, "nullable", true_json(schema.nullable))?;
    add(alloc, members, "readOnly", true_json(schema.read_only))?;
    add(alloc, members, "writeOnly", true_json(schema.write_only))?;
    add(alloc, members, "deprecated", true_json(schema.deprecated))?;
    let example = example_json(alloc, schema.extensions.as_slice())?;
    add(alloc, members, "example", example)?;
    let title = title_json(alloc, given, &schema.title)?;
    add(alloc, members, "title", title)?;
    add_option(alloc, members, "description", &schema.description)?;
    let default = copy_option(alloc, &schema.default)?;
    add(alloc, members, "default", default)?;
    add_extensions(alloc, members, schema.extensions.as_slice())?;
    Ok(())
}

/// Of two forms of a bound the included one, or else the other.
fn bound_json(included: Option<i128>, excluded: Option<i128>) -> Option<Json>
    ensures { result ≡ json_of_bound included excluded }
{
    match included.or(excluded) {
        Some(bound) => Some(Json::Int(bound)),
        None => None,
    }
}

/// Adds the bounds of a number, where they are given.
fn add_bounds(
    alloc: Global,
    members: &mut List<Member>,
    bounds: &Option<NumberBounds>,
) -> Result<(), AllocError>
    ensures { OnOk result (members.new ≡ members.old ++ members_of
        (option_map_or bound_entries bounds.now [])) }
{
    match bounds {
        Some(bounds) => add_given_bounds(alloc, members, bounds),
        None => Ok(()),
    }
}

fn add_given_bounds(
    alloc: Global,
    members: &mut List<Member>,
    bounds: &NumberBounds,
) -> Result<(), AllocError>
    ensures { OnOk result (members.new ≡ members.old ++ members_of (bound_entries bounds.now)) }
{
    let is_above = true_json(bounds.exclusive_minimum.is_some());
    add(alloc, members, "exclusiveMinimum", is_above)?;
    let is_below = true_json(bounds.exclusive_maximum.is_some());
    add(alloc, members, "exclusiveMaximum", is_below)?;
    let least = bound_json(bounds.minimum, bounds.exclusive_minimum);
    add(alloc, members, "minimum", least)?;
    let greatest = bound_json(bounds.maximum, bounds.exclusive_maximum);
    add(alloc, members, "maximum", greatest)?;
    Ok(())
}

/// Adds the members of a number.
pub fn add_number(
    alloc: Global,
    members: &mut List<Member>,
    schema: &SchemaObject,
) -> Result<(), AllocError>
    ensures { OnOk result (members.new ≡ members.old ++ members_of
        (number_entries (out-SchemaObject schema.now).format (out-SchemaObject schema.now).number
        (values_of (out-SchemaObject schema.now).const_value (out-SchemaObject schema.now).enum_values))) }
{
    add_option(alloc, members, "format", &schema.format)?;
    add_bounds(alloc, members, &schema.number)?;
    add_values(alloc, members, schema)?;
    Ok(())
}

fn shortest(bounds: &Option<LengthBounds>) -> Option<u32>
    ensures { result ≡ option_and_then (λ b. b.min) bounds.now }
{
    match bounds {
        Some(bounds) => bounds.min,
        None => None,
    }
}

fn longest(bounds: &Option<LengthBounds>) -> Option<u32>
    ensures { result ≡ option_and_then (λ b. b.max) bounds.now }
{
    match bounds {
        Some(bounds) => bounds.max,
        None => None,
    }
}

/// Adds the members of a string.
pub fn add_text(
    alloc: Global,
    members: &mut List<Member>,
    schema: &SchemaObject,
) -> Result<(), AllocError>
    ensures { OnOk result (members.new ≡ members.old ++ members_of
        (text_entries (out-SchemaObject schema.now).format (out-SchemaObject schema.now).string
        (values_of (out-SchemaObject schema.now).const_value (out-SchemaObject schema.now).enum_values))) }
{
    add_option(alloc, members, "format", &schema.format)?;
    add_values(alloc, members, schema)?;
    let least = shortest(&schema.string);
    let greatest = longest(&schema.string);
    add_counts(alloc, members, "minLength", least, "maxLength", greatest)
}

/// Adds the values: that of a const alone, or else those that are given.
pub fn add_values(
    alloc: Global,
    members: &mut List<Member>,
    schema: &SchemaObject,
) -> Result<(), AllocError>
    ensures { OnOk result (members.new ≡ members.old ++ members_of (enum_entries
        (values_of (out-SchemaObject schema.now).const_value (out-SchemaObject schema.now).enum_values))) }
{
    match &schema.const_value {
        Some(value) => add_one_value(alloc, members, value.copy(alloc)?),
        None => {
            let values = values_json(alloc, &schema.enum_values)?;
            add(alloc, members, "enum", values)
        }
    }
}

fn values_json(alloc: Global, values: &Option<List<Json>>) -> Result<Option<Json>, AllocError>
    ensures { IfOk result (λ json. json ≡ json_of_values values.now) }
{
    match values {
        Some(values) => Ok(Some(Json::List(values.copy(alloc)?))),
        None => Ok(None),
    }
}

/// Adds the value of a const, where it is given.
pub fn add_const(
    alloc: Global,
    members: &mut List<Member>,
    schema: &SchemaObject,
) -> Result<(), AllocError>
    ensures { OnOk result (members.new ≡ members.old ++ members_of
        (enum_entries (const_values (out-SchemaObject schema.now).const_value))) }
{
    match &schema.const_value {
        Some(value) => add_one_value(alloc, members, value.copy(alloc)?),
        None => Ok(()),
    }
}

/// Adds null as the one value, or that of a const.
pub fn add_null(
    alloc: Global,
    members: &mut List<Member>,
    schema: &SchemaObject,
) -> Result<(), AllocError>
    ensures { OnOk result (members.new ≡ members.old ++ members_of
        (enum_entries (Some (null_values (out-SchemaObject schema.now).const_value)))) }
{
    match &schema.const_value {
        Some(value) => add_one_value(alloc, members, value.copy(alloc)?),
        None => add_one_value(alloc, members, Json::Null),
    }
}

fn add_one_value(alloc: Global, members: &mut List<Member>, value: Json) -> Result<(), AllocError>
    ensures { OnOk result (members.new ≡ members.old ++ members_of (enum_entries (Some (value ∷ [])))) }
{
    let mut values = List::new(alloc);
    values.push(value)?;
    add(alloc, members, "enum", Some(Json::List(values)))
}

/// Whether the values are given and there are none.
pub fn is_without_values(values: &Option<List<Json>>) -> bool
    ensures { result ≡ without_values values.now }
{
    match values {
        Some(values) => values.is_empty(),
        None => false,
    }
}
