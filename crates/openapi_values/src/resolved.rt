// The schema that a schema leads to: behind a lone `$ref` stands its definition, and behind an `allOf` of one
// that one.
ghost use Rattle.std.specs.Prelude.{◌≡◌, IfSome, option_map, option_and_then};
ghost use Rattle.std.specs.List.{AllByRecursion};
ghost use Rattle.std.specs.Str.{chars};
ghost use Rattle.schema_values.specs.declared.json_value.Json.{out-Json};
ghost use Rattle.schema_values.specs.Sound.{IsSound};
ghost use Rattle.schema_values.specs.SoundMembers.{HasSoundValue};
ghost use Rattle.openapi_values.specs.FormAdmits.{only_schema, resolved_step, resolved_within};
ghost use Rattle.openapi_values.specs.FormAdmits.{resolved_schema};
ghost use Rattle.openapi_values.specs.Levels.{as_list, as_object};
ghost use Rattle.openapi_values.specs.Lookup.{definition};
ghost use Rattle.openapi_values.specs.Steps.{left};

use crate::room::{Steps, inside, of_items, of_members};
use crate::schema_members::{definition_named, find_word, reference_of};
use schema_values::{Json, Member};
use std::slice;

/// The members of the schema that a schema of a document leads to: a lone `$ref` leads to its definition, and
/// an `allOf` of one schema to that. None where that is no object, or where the way has no end.
pub fn resolved_schema<'a>(doc: &'a Json, schema: &'a Json) -> Option<&'a [Member]>
    requires doc { IsSound doc.now }
    requires schema { IsSound schema.now }
    ensures schema { option_map (λ members. members.now) result ≡ resolved_schema doc.now schema.now }
    ensures sound { IfSome result (λ members. AllByRecursion HasSoundValue members.now) }
{
    let of_schema = of_items(slice::from_ref(schema), &Steps::End);
    let of_both = of_items(slice::from_ref(doc), &of_schema);
    step(doc, &of_both, schema)
}

// The members that a schema leads to, with so many steps left.
#[cycle(resolved)]
fn within<'a>(doc: &'a Json, steps: &Steps, schema: &'a Json) -> Option<&'a [Member]>
    ensures { option_map (λ members. members.now) result
        ≡ resolved_within doc.now (left steps.now) schema.now }
{
    match *steps {
        Steps::End => None,
        Steps::Items {
            first,
            later,
            after,
        } => {
            let after = of_items(later, after);
            step(doc, &inside(first, &after), schema)
        }
        Steps::Members {
            first,
            later,
            after,
        } => {
            let after = of_members(later, after);
            step(doc, &inside(&first.value, &after), schema)
        }
    }
}

// One step of a schema, with so many steps left after it.
#[cycle(resolved)]
fn step<'a>(doc: &'a Json, next: &Steps, schema: &'a Json) -> Option<&'a [Member]>
    ensures { option_map (λ members. members.now) result ≡ option_and_then
        (resolved_step doc.now (resolved_within doc.now (left next.now))) (as_object (out-Json schema.now)) }
{
    match schema {
        Json::Object(members) => by_reference(doc, next, members.as_slice()),
        _ => None,
    }
}

#[cycle(resolved)]
fn by_reference<'a>(doc: &'a Json, next: &Steps, members: &'a [Member]) -> Option<&'a [Member]>
    ensures { option_map (λ members. members.now) result
        ≡ resolved_step doc.now (resolved_within doc.now (left next.now)) members.now }
{
    match reference_of(members) {
        Some(name) => at_definition(doc, next, name),
        None => match find_word(members, "allOf") {
            Some(schemas) => at_only(doc, next, schemas),
            None => Some(members),
        },
    }
}

#[cycle(resolved)]
fn at_definition<'a>(doc: &'a Json, next: &Steps, name: &str) -> Option<&'a [Member]>
    ensures { option_map (λ members. members.now) result ≡ option_and_then
        (resolved_within doc.now (left next.now)) (definition doc.now (chars name.now)) }
{
    match definition_named(doc, name) {
        Some(definition) => within(doc, next, definition),
        None => None,
    }
}

#[cycle(resolved)]
fn at_only<'a>(doc: &'a Json, next: &Steps, schemas: &'a Json) -> Option<&'a [Member]>
    ensures { option_map (λ members. members.now) result ≡ option_and_then
        (resolved_within doc.now (left next.now))
        (option_and_then only_schema (as_list (out-Json schemas.now))) }
{
    match only_schema(schemas) {
        Some(schema) => within(doc, next, schema),
        None => None,
    }
}

// The one schema of a list.
fn only_schema(schemas: &Json) -> Option<&Json>
    ensures { option_map (λ json. json.now) result
        ≡ option_and_then only_schema (as_list (out-Json schemas.now)) }
{
    match schemas {
        Json::List(schemas) => only_item(schemas.as_slice()),
        _ => None,
    }
}

fn only_item(schemas: &[Json]) -> Option<&Json>
    ensures { option_map (λ json. json.now) result ≡ only_schema schemas.now }
{
    match schemas {
        [schema] => Some(schema),
        _ => None,
    }
}
