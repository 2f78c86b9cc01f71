ghost use Rattle.std.specs.Prelude.{◌≡◌, ◌↔◌, ◌≤◌, IsTrue, count_by};
ghost use Rattle.std.specs.List.{list_all, list_any};
ghost use Rattle.std.specs.Str.{chars};
ghost use Rattle.schema_values.specs.declared.json_value.Json.{Text as Words, out-Json};
ghost use Rattle.schema_values.specs.declared.json_value.Member.{Member as MemberValue};
ghost use Rattle.openapi_values.specs.Admitter.{room_at, admits_of, smaller_of};
ghost use Rattle.openapi_values.specs.Asked.{asked_json};
ghost use Rattle.openapi_values.specs.Keywords.{keyword_of};
ghost use Rattle.openapi_values.specs.Levels.{as_list, as_object};
ghost use Rattle.openapi_values.specs.Options.{is_none_or};
ghost use Rattle.openapi_values.specs.JsonAdmits.{admits_within, schema_admits, object_admits};
ghost use Rattle.openapi_values.specs.JsonAdmits.{members_admit, JsonAdmits};
ghost use Rattle.openapi_values.specs.Room.{room};
ghost use Rattle.openapi_values.specs.Rows.{row, members_hold, property_admitted, properties_admitted};
ghost use Rattle.openapi_values.specs.Rows.{other_admitted, every_admits, some_admits, one_admits};
ghost use Rattle.openapi_values.specs.Steps.{left};

use crate::asked::{Asked, asked_items, asked_members, is_in_list, is_null_asked, is_of_type};
use crate::keyword_rules;
use crate::keywords::{Keyword, keyword_named};
use crate::room::{Steps, inside, of_items, of_members};
use crate::schema_members::{definition_named, find_member, is_set_true, reference_of};
use schema_values::{Json, Member};
use std::slice;

// The document that schemas are read in, and the steps that are left at each value after its first.
#[derive(Clone, Copy)]
struct Admitter<'a> {
    doc: &'a Json,
    after_first: &'a Steps<'a>,
}

impl Admitter<'_> {
    // Whether a schema admits a value, with so many steps left.
    #[cycle(admits)]
    fn admits(&self, steps: &Steps, schema: &Json, asked: &Asked) -> bool
        requires { left steps.now ≤ left self.now.after_first.now }
        ensures { result ≡ admits_of self.now asked.now (left steps.now) schema.now }
    {
        match *steps {
            Steps::End => false,
            Steps::Items {
                first,
                later,
                after,
            } => {
                let after = of_items(later, after);
                self.schema_admits(&inside(first, &after), schema, asked)
            }
            Steps::Members {
                first,
                later,
                after,
            } => {
                let after = of_members(later, after);
                self.schema_admits(&inside(&first.value, &after), schema, asked)
            }
        }
    }

    // Whether a schema admits a value, with all steps.
    #[cycle(admits)]
    fn admits_anew(&self, schema: &Json, asked: &Asked) -> bool
        ensures { result ≡ admits_of self.now asked.now (room_at self.now) schema.now }
    {
        self.schema_admits(self.after_first, schema, asked)
    }

    // One step of a schema, with so many steps left after it.
    #[cycle(admits)]
    fn schema_admits(&self, next: &Steps, schema: &Json, asked: &Asked) -> bool
        requires { left next.now ≤ left self.now.after_first.now }
        ensures { result ≡ schema_admits self.now.doc.now (smaller_of self.now)
            (admits_of self.now asked.now (left next.now)) (asked_json asked.now)
            (out-Json (asked_json asked.now)) schema.now }
    {
        match schema {
            Json::Object(members) => self.members_admit(next, members.as_slice(), asked),
            _ => false,
        }
    }

    #[cycle(admits)]
    fn members_admit(&self, next: &Steps, schema: &[Member], asked: &Asked) -> bool
        requires { left next.now ≤ left self.now.after_first.now }
        ensures { result ≡ members_admit self.now.doc.now (smaller_of self.now)
            (admits_of self.now asked.now (left next.now)) (asked_json asked.now)
            (out-Json (asked_json asked.now)) schema.now }
    {
        match reference_of(schema) {
            Some(name) => match definition_named(self.doc, name) {
                Some(definition) => self.admits(next, definition, asked),
                None => false,
            },
            None => self.object_admits(next, schema, asked),
        }
    }

    #[cycle(admits)]
    fn object_admits(&self, next: &Steps, schema: &[Member], asked: &Asked) -> bool
        requires { left next.now ≤ left self.now.after_first.now }
        ensures { result ≡ object_admits (smaller_of self.now)
            (admits_of self.now asked.now (left next.now)) (asked_json asked.now)
            (out-Json (asked_json asked.now)) schema.now }
    {
        if !keyword_rules::all_read(schema) {
            return false;
        }
        if is_set_true(schema, "nullable") && is_null_asked(asked) {
            return true;
        }
        if keyword_rules::has_null_form(schema) {
            is_null_asked(asked)
        } else {
            self.members_hold(next, schema, asked)
        }
    }

    // Whether each member of a schema holds.
    #[cycle(admits)]
    fn members_hold(&self, next: &Steps, schema: &[Member], asked: &Asked) -> bool
        requires { left next.now ≤ left self.now.after_first.now }
        ensures { result ≡ members_hold (smaller_of self.now)
            (admits_of self.now asked.now (left next.now)) (asked_json asked.now)
            (out-Json (asked_json asked.now)) schema.now }
    {
        for member in schema {
            if !self.member_holds(next, schema, member, asked) {
                return false;
            }
        }
        true
    }

    // Whether one member of a schema holds.
    #[cycle(admits)]
    fn member_holds(&self, next: &Steps, schema: &[Member], member: &Member, asked: &Asked) -> bool
        requires { left next.now ≤ left self.now.after_first.now }
        ensures { result ≡ row (smaller_of self.now)
            (admits_of self.now asked.now (left next.now)) (asked_json asked.now)
            (out-Json (asked_json asked.now)) schema.now (keyword_of member.now.name) member.now.value }
    {
        let given = &member.value;
        match keyword_named(&member.name) {
            Keyword::Reference | Keyword::Not | Keyword::Other => false,
            Keyword::Nullable | Keyword::Annotation => true,
            Keyword::ExclusiveMinimum | Keyword::ExclusiveMaximum => true,
            Keyword::OfType => is_of_type(given, asked),
            Keyword::Format => keyword_rules::is_of_format(schema, given, asked),
            Keyword::Enum => is_in_list(given, asked),
            Keyword::Minimum => keyword_rules::is_at_least(
                is_set_true(schema, "exclusiveMinimum"),
                given,
                asked,
            ),
            Keyword::Maximum => keyword_rules::is_at_most(
                is_set_true(schema, "exclusiveMaximum"),
                given,
                asked,
            ),
            Keyword::MinLength => keyword_rules::is_long_enough(given, asked),
            Keyword::MaxLength => keyword_rules::is_short_enough(given, asked),
            Keyword::Items => self.items_hold(given, asked),
            Keyword::MinItems => keyword_rules::has_enough_items(given, asked),
            Keyword::MaxItems => keyword_rules::has_few_items(given, asked),
            Keyword::Properties => self.properties_hold(given, asked),
            Keyword::Required => keyword_rules::has_names(given, asked),
            Keyword::AdditionalProperties => self.others_hold(schema, given, asked),
            Keyword::MinProperties => keyword_rules::has_enough_members(given, asked),
            Keyword::MaxProperties => keyword_rules::has_few_members(given, asked),
            Keyword::AllOf => self.every_admits(next, given, asked),
            Keyword::AnyOf => self.some_admits(next, given, asked),
            Keyword::OneOf => self.one_admits(next, given, asked),
        }
    }

    #[cycle(admits)]
    fn every_admits(&self, next: &Steps, schemas: &Json, asked: &Asked) -> bool
        requires { left next.now ≤ left self.now.after_first.now }
        ensures { result ≡ every_admits (admits_of self.now asked.now (left next.now)) schemas.now }
    {
        match schemas {
            Json::List(schemas) => self.all_admit(next, schemas.as_slice(), asked),
            _ => false,
        }
    }

    #[cycle(admits)]
    fn all_admit(&self, next: &Steps, schemas: &[Json], asked: &Asked) -> bool
        requires { left next.now ≤ left self.now.after_first.now }
        ensures { result ≡ list_all (admits_of self.now asked.now (left next.now)) schemas.now }
    {
        for schema in schemas {
            if !self.admits(next, schema, asked) {
                return false;
            }
        }
        true
    }

    #[cycle(admits)]
    fn some_admits(&self, next: &Steps, schemas: &Json, asked: &Asked) -> bool
        requires { left next.now ≤ left self.now.after_first.now }
        ensures { result ≡ some_admits (admits_of self.now asked.now (left next.now)) schemas.now }
    {
        match schemas {
            Json::List(schemas) => self.any_admits(next, schemas.as_slice(), asked),
            _ => false,
        }
    }

    #[cycle(admits)]
    fn any_admits(&self, next: &Steps, schemas: &[Json], asked: &Asked) -> bool
        requires { left next.now ≤ left self.now.after_first.now }
        ensures { result ≡ list_any (admits_of self.now asked.now (left next.now)) schemas.now }
    {
        for schema in schemas {
            if self.admits(next, schema, asked) {
                return true;
            }
        }
        false
    }

    #[cycle(admits)]
    fn one_admits(&self, next: &Steps, schemas: &Json, asked: &Asked) -> bool
        requires { left next.now ≤ left self.now.after_first.now }
        ensures { result ≡ one_admits (admits_of self.now asked.now (left next.now)) schemas.now }
    {
        match schemas {
            Json::List(schemas) => self.count_admitting(next, schemas.as_slice(), asked) == 1,
            _ => false,
        }
    }

    #[cycle(admits)]
    fn count_admitting(&self, next: &Steps, schemas: &[Json], asked: &Asked) -> usize
        requires { left next.now ≤ left self.now.after_first.now }
        ensures { result ≡ count_by (admits_of self.now asked.now (left next.now)) schemas.now }
    {
        let mut count = 0;
        for schema in schemas {
            if self.admits(next, schema, asked) {
                count += 1;
            }
        }
        count
    }

    #[cycle(admits)]
    fn items_hold(&self, schema: &Json, asked: &Asked) -> bool
        ensures { result ≡ is_none_or (as_list (out-Json (asked_json asked.now))) (list_all (λ x. smaller_of
            self.now x schema.now)) }
    {
        match asked_items(asked) {
            Some(items) => self.items_admitted(schema, items),
            None => true,
        }
    }

    #[cycle(admits)]
    fn items_admitted(&self, schema: &Json, items: &[Json]) -> bool
        ensures { result ≡ list_all (λ x. smaller_of self.now x schema.now) items.now }
    {
        for item in items {
            if !self.admits_anew(schema, &Asked::Value(item)) {
                return false;
            }
        }
        true
    }

    #[cycle(admits)]
    fn properties_hold(&self, properties: &Json, asked: &Asked) -> bool
        ensures { result ≡ is_none_or (as_object (out-Json (asked_json asked.now))) (properties_admitted
            (smaller_of self.now) properties.now) }
    {
        match asked_members(asked) {
            Some(members) => self.properties_admitted(properties, members),
            None => true,
        }
    }

    #[cycle(admits)]
    fn properties_admitted(&self, properties: &Json, members: &[Member]) -> bool
        ensures { result ≡ properties_admitted (smaller_of self.now) properties.now members.now }
    {
        match properties {
            Json::Object(properties) => self.members_admitted(properties.as_slice(), members),
            _ => false,
        }
    }

    #[cycle(admits)]
    fn members_admitted(&self, properties: &[Member], members: &[Member]) -> bool
        ensures { result ≡ list_all (λ (m : MemberValue). property_admitted (smaller_of self.now)
            properties.now m) members.now }
    {
        for member in members {
            if !self.property_admitted(properties, member) {
                return false;
            }
        }
        true
    }

    #[cycle(admits)]
    fn property_admitted(&self, properties: &[Member], member: &Member) -> bool
        ensures { result ≡ property_admitted (smaller_of self.now) properties.now member.now }
    {
        match find_member(properties, &member.name) {
            Some(schema) => self.admits_anew(schema, &Asked::Value(&member.value)),
            None => true,
        }
    }

    #[cycle(admits)]
    fn others_hold(&self, schema: &[Member], allowed: &Json, asked: &Asked) -> bool
        ensures { result ≡ is_none_or (as_object (out-Json (asked_json asked.now))) (list_all (λ (m :
            MemberValue). other_admitted (smaller_of self.now) schema.now allowed.now m)) }
    {
        match asked_members(asked) {
            Some(members) => self.others_admitted(schema, allowed, members),
            None => true,
        }
    }

    #[cycle(admits)]
    fn others_admitted(&self, schema: &[Member], allowed: &Json, members: &[Member]) -> bool
        ensures { result ≡ list_all (λ (m : MemberValue). other_admitted (smaller_of self.now) schema.now
            allowed.now m) members.now }
    {
        for member in members {
            if !self.other_admitted(schema, allowed, member) {
                return false;
            }
        }
        true
    }

    #[cycle(admits)]
    fn other_admitted(&self, schema: &[Member], allowed: &Json, member: &Member) -> bool
        ensures { result ≡ other_admitted (smaller_of self.now) schema.now allowed.now member.now }
    {
        keyword_rules::names_property(schema, &member.name)
            || keyword_rules::is_true_value(allowed)
            || self.admits_anew(allowed, &Asked::Value(&member.value))
    }
}

// Whether a schema of a document admits what is asked.
fn asked_admits(doc: &Json, schema: &Json, asked: &Asked) -> bool
    ensures { result ≡ admits_within doc.now (room doc.now schema.now) (asked_json asked.now)
        (room doc.now schema.now) schema.now }
{
    let of_schema = of_items(slice::from_ref(schema), &Steps::End);
    let of_both = of_items(slice::from_ref(doc), &of_schema);
    let admitter = Admitter {
        doc,
        after_first: &of_both,
    };
    admitter.admits_anew(schema, asked)
}

/// Whether a schema of a document admits a value (OpenAPI 3.0.3, Schema Object). It takes no memory, and ends
/// on every document. A definition is tried anew at each reference to it under `oneOf`, `anyOf` and `allOf`,
/// so the time may be exponential in the number of definitions where they share others.
pub fn json_admits(doc: &Json, schema: &Json, value: &Json) -> bool
    ensures { IsTrue result ↔ JsonAdmits doc.now schema.now value.now }
{
    asked_admits(doc, schema, &Asked::Value(value))
}

/// Whether a schema of a document admits a text as a JSON value. It takes no memory, and ends on every
/// document.
pub(crate) fn json_text_admits(doc: &Json, schema: &Json, text: &str) -> bool
    ensures { IsTrue result ↔ JsonAdmits doc.now schema.now (Words (chars text.now)) }
{
    asked_admits(doc, schema, &Asked::Text(text))
}
