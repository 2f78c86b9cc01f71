//! Whether a schema admits the pairs of a form.

ghost use Rattle.std.specs.Prelude.{◌≡◌, IfSome, option_map};
ghost use Rattle.std.specs.List.{AllByRecursion};
ghost use Rattle.schema_values.specs.declared.json_value.Json.{out-Json};
ghost use Rattle.schema_values.specs.Sound.{IsSound};
ghost use Rattle.schema_values.specs.SoundMembers.{HasSoundValue};
ghost use Rattle.openapi_values.specs.FormAdmits.{properties_hold, object_holds, form_admitted};
ghost use Rattle.openapi_values.specs.Levels.{as_object};
ghost use Rattle.openapi_values.specs.Options.{is_some_and, is_none_or};

use crate::pages::required_stand;
use crate::query::values_hold;
use crate::schema_in::SchemaIn;
use openapi_values::{find_word, has_type_named, resolved_schema};
use request_words::SortedPairs;
use schema_values::{Json, Member};

/// Whether a schema of a document admits the pairs of a form.
pub(crate) fn form_admitted(doc: &Json, schema: &Json, pairs: &SortedPairs) -> bool
    requires doc { IsSound doc.now }
    requires schema { IsSound schema.now }
    ensures { result ≡ form_admitted doc.now schema.now pairs.now.pairs.now }
{
    match resolved_schema(doc, schema) {
        Some(schema) => object_holds(doc, pairs, schema),
        None => false,
    }
}

// Whether a schema is that of an object, whose properties and required names hold.
fn object_holds(doc: &Json, pairs: &SortedPairs, schema: &[Member]) -> bool
    requires doc { IsSound doc.now }
    requires schema { AllByRecursion HasSoundValue schema.now }
    ensures { result ≡ object_holds doc.now pairs.now.pairs.now schema.now }
{
    has_type_named(schema, "object")
        && fields_hold(doc, pairs, find_word(schema, "properties"))
        && required_stand(pairs, find_word(schema, "required"))
}

// Whether each property holds, where there are some.
fn fields_hold(doc: &Json, pairs: &SortedPairs, properties: Option<&Json>) -> bool
    requires doc { IsSound doc.now }
    requires properties { IfSome properties (λ json. IsSound json.now) }
    ensures { result ≡ is_none_or (option_map (λ json. json.now) properties.entry)
        (λ json. is_some_and (as_object (out-Json json)) (properties_hold doc.now pairs.now.pairs.now)) }
{
    match properties {
        Some(properties) => object_fields_hold(doc, pairs, properties),
        None => true,
    }
}

// Whether the properties are an object, and each holds.
fn object_fields_hold(doc: &Json, pairs: &SortedPairs, properties: &Json) -> bool
    requires doc { IsSound doc.now }
    requires properties { IsSound properties.now }
    ensures { result ≡ is_some_and (as_object (out-Json properties.now))
        (properties_hold doc.now pairs.now.pairs.now) }
{
    match properties {
        Json::Object(properties) => properties_hold(doc, pairs, properties.as_slice()),
        _ => false,
    }
}

fn properties_hold(doc: &Json, pairs: &SortedPairs, properties: &[Member]) -> bool
    requires doc { IsSound doc.now }
    requires properties { AllByRecursion HasSoundValue properties.now }
    ensures { result ≡ properties_hold doc.now pairs.now.pairs.now properties.now }
{
    for Member { name, value } in properties {
        let schema = SchemaIn { doc, schema: value };
        if !values_hold(&schema, false, pairs.named(name)) {
            return false;
        }
    }
    true
}
