// What schemas admit of a text: of a variable of a path, or of a value in a query.
ghost use Rattle.std.specs.Prelude.{◌≡◌, ◌↔◌, IsTrue, count_by};
ghost use Rattle.std.specs.List.{AllByRecursion};
ghost use Rattle.std.specs.Str.{chars};
ghost use Rattle.schema_values.specs.declared.json_value.Json.{out-Json, Int as Number};
ghost use Rattle.schema_values.specs.Sound.{IsSound};
ghost use Rattle.schema_values.specs.SoundMembers.{HasSoundValue};
ghost use Rattle.request_words.specs.Numbers.{number_of};
ghost use Rattle.openapi_values.specs.Levels.{as_list};
ghost use Rattle.openapi_values.specs.Options.{is_some_and};
ghost use Rattle.openapi_values.specs.Rows.{one_admits};
ghost use Rattle.openapi_values.specs.Steps.{left};
ghost use Rattle.openapi_values.specs.TextAdmits.{is_unsigned, json_admitted, typed_admits};
ghost use Rattle.openapi_values.specs.TextAdmits.{only_admits, one_or_typed, form_admits};
ghost use Rattle.openapi_values.specs.TextAdmits.{reference_or_form, text_step};
ghost use Rattle.openapi_values.specs.Lookup.{definition};
ghost use Rattle.openapi_values.specs.TextAdmits.{text_within, TextAdmits};

use crate::admits::{json_admits, json_text_admits};
use crate::room::{Steps, inside, of_items, of_members};
use crate::schema_members::{definition_named, find_word, has_type_named, reference_of};
use request_words::{cut_number, has_minus, is_str_word, text_after};
use schema_values::{Json, Member};
use std::slice;

// A text, and the document that schemas are read in.
#[derive(Clone, Copy)]
struct TextReader<'a> {
    doc: &'a Json,
    text: &'a str,
}

impl TextReader<'_> {
    // Whether a schema admits the text, with so many steps left.
    #[cycle(admits)]
    fn admits(&self, steps: &Steps, schema: &Json) -> bool
        requires doc { IsSound self.now.doc.now }
        requires schema { IsSound schema.now }
        ensures { result ≡ text_within self.now.doc.now (chars self.now.text.now) (left steps.now)
            schema.now }
    {
        match *steps {
            Steps::End => false,
            Steps::Items {
                first,
                later,
                after,
            } => {
                let after = of_items(later, after);
                self.step(&inside(first, &after), schema)
            }
            Steps::Members {
                first,
                later,
                after,
            } => {
                let after = of_members(later, after);
                self.step(&inside(&first.value, &after), schema)
            }
        }
    }

    // One step of a schema, with so many steps left after it.
    #[cycle(admits)]
    fn step(&self, next: &Steps, schema: &Json) -> bool
        requires doc { IsSound self.now.doc.now }
        requires schema { IsSound schema.now }
        ensures { result ≡ text_step self.now.doc.now
            (text_within self.now.doc.now (chars self.now.text.now) (left next.now))
            (chars self.now.text.now) schema.now }
    {
        match schema {
            Json::Object(members) => self.reference_or_form(next, schema, members.as_slice()),
            _ => false,
        }
    }

    #[cycle(admits)]
    fn reference_or_form(&self, next: &Steps, schema: &Json, members: &[Member]) -> bool
        requires doc { IsSound self.now.doc.now }
        requires schema { IsSound schema.now }
        requires members { AllByRecursion HasSoundValue members.now }
        ensures { result ≡ reference_or_form self.now.doc.now
            (text_within self.now.doc.now (chars self.now.text.now) (left next.now))
            (chars self.now.text.now) schema.now members.now }
    {
        match reference_of(members) {
            Some(name) => self.definition_admits(next, name),
            None => self.form_admits(next, schema, members),
        }
    }

    #[cycle(admits)]
    fn definition_admits(&self, next: &Steps, name: &str) -> bool
        requires { IsSound self.now.doc.now }
        ensures { result ≡ is_some_and (definition self.now.doc.now (chars name.now))
            (text_within self.now.doc.now (chars self.now.text.now) (left next.now)) }
    {
        match definition_named(self.doc, name) {
            Some(definition) => self.admits(next, definition),
            None => false,
        }
    }

    #[cycle(admits)]
    fn form_admits(&self, next: &Steps, schema: &Json, members: &[Member]) -> bool
        requires doc { IsSound self.now.doc.now }
        requires schema { IsSound schema.now }
        requires members { AllByRecursion HasSoundValue members.now }
        ensures { result ≡ form_admits self.now.doc.now
            (text_within self.now.doc.now (chars self.now.text.now) (left next.now))
            (chars self.now.text.now) schema.now members.now }
    {
        match find_word(members, "allOf") {
            Some(schemas) => self.all_admits(next, schemas),
            None => self.one_or_typed(next, schema, members),
        }
    }

    #[cycle(admits)]
    fn one_or_typed(&self, next: &Steps, schema: &Json, members: &[Member]) -> bool
        requires doc { IsSound self.now.doc.now }
        requires schema { IsSound schema.now }
        requires members { AllByRecursion HasSoundValue members.now }
        ensures { result ≡ one_or_typed self.now.doc.now
            (text_within self.now.doc.now (chars self.now.text.now) (left next.now))
            (chars self.now.text.now) schema.now members.now }
    {
        match find_word(members, "oneOf") {
            Some(schemas) => self.one_admits(next, schemas),
            None => typed_admits(self.doc, schema, members, self.text),
        }
    }

    #[cycle(admits)]
    fn all_admits(&self, next: &Steps, schemas: &Json) -> bool
        requires doc { IsSound self.now.doc.now }
        requires schemas { IsSound schemas.now }
        ensures { result ≡ is_some_and (as_list (out-Json schemas.now)) (only_admits
            (text_within self.now.doc.now (chars self.now.text.now) (left next.now))) }
    {
        match schemas {
            Json::List(schemas) => self.only_admits(next, schemas.as_slice()),
            _ => false,
        }
    }

    #[cycle(admits)]
    fn only_admits(&self, next: &Steps, schemas: &[Json]) -> bool
        requires doc { IsSound self.now.doc.now }
        requires schemas { AllByRecursion IsSound schemas.now }
        ensures { result ≡ only_admits
            (text_within self.now.doc.now (chars self.now.text.now) (left next.now)) schemas.now }
    {
        match schemas {
            [schema] => self.admits(next, schema),
            _ => false,
        }
    }

    #[cycle(admits)]
    fn one_admits(&self, next: &Steps, schemas: &Json) -> bool
        requires doc { IsSound self.now.doc.now }
        requires schemas { IsSound schemas.now }
        ensures { result ≡ one_admits
            (text_within self.now.doc.now (chars self.now.text.now) (left next.now)) schemas.now }
    {
        match schemas {
            Json::List(schemas) => self.count_admitting(next, schemas.as_slice()) == 1,
            _ => false,
        }
    }

    #[cycle(admits)]
    fn count_admitting(&self, next: &Steps, schemas: &[Json]) -> usize
        requires doc { IsSound self.now.doc.now }
        requires schemas { AllByRecursion IsSound schemas.now }
        ensures { result ≡ count_by
            (text_within self.now.doc.now (chars self.now.text.now) (left next.now)) schemas.now }
    {
        let mut count = 0;
        for schema in schemas {
            if self.admits(next, schema) {
                count += 1;
            }
        }
        count
    }
}

// Whether a schema admits a text as a value of its type.
fn typed_admits(doc: &Json, schema: &Json, members: &[Member], text: &str) -> bool
    requires doc { IsSound doc.now }
    requires schema { IsSound schema.now }
    ensures { result ≡ typed_admits (json_admitted doc.now schema.now) members.now (chars text.now) }
{
    if has_type_named(members, "boolean") {
        is_str_word(text, "true") || is_str_word(text, "false")
    } else if has_type_named(members, "integer") {
        !(is_unsigned(members) && has_minus(text)) && number_admitted(doc, schema, text)
    } else {
        has_type_named(members, "string") && json_text_admits(doc, schema, text)
    }
}

fn is_unsigned(schema: &[Member]) -> bool
    ensures { result ≡ is_unsigned schema.now }
{
    match find_word(schema, "format") {
        Some(Json::Text(name)) => text_after(name, "uint").is_some(),
        _ => false,
    }
}

fn number_admitted(doc: &Json, schema: &Json, text: &str) -> bool
    requires doc { IsSound doc.now }
    requires schema { IsSound schema.now }
    ensures { result ≡ is_some_and (number_of (chars text.now))
        (λ n. json_admitted doc.now schema.now (Number n)) }
{
    match cut_number(text) {
        Some(number) => json_admits(doc, schema, &Json::Int(number)),
        None => false,
    }
}

/// Whether a schema of a document admits a text, as a parameter has it. It takes no memory, and ends on every
/// document. A definition is tried anew at each reference to it under `oneOf`, `anyOf` and `allOf`, so the
/// time may be exponential in the number of definitions where they share others.
pub fn text_admits(doc: &Json, schema: &Json, text: &str) -> bool
    requires doc { IsSound doc.now }
    requires schema { IsSound schema.now }
    ensures { IsTrue result ↔ TextAdmits doc.now schema.now (chars text.now) }
{
    let of_schema = of_items(slice::from_ref(schema), &Steps::End);
    let of_both = of_items(slice::from_ref(doc), &of_schema);
    let reader = TextReader { doc, text };
    reader.step(&of_both, schema)
}
