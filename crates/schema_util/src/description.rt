//! Descriptions, extensions, and what is empty.

ghost use Rattle.std.specs.Prelude.{◌≡◌, IfOk};
ghost use Rattle.std.specs.Option.{option_copied};
ghost use Rattle.schema_util.specs.Descriptions.{extensions_of, is_empty as empty, is_not_of_all};
ghost use Rattle.schema_util.specs.Descriptions.{description_and_schema, lone_member, only};
ghost use Rattle.schema_util.specs.Descriptions.{says_nothing, undescribed};
ghost use Rattle.schema_util.specs.Forms.{form_of, kind_of, schema_form};

use crate::form::{Form, Kind};
use schema_values::{Boxed, List, Member, Schema, SchemaObject, Subschemas, Text, copy_text};
use std::alloc::{AllocError, Global};

/// The description of a schema, and the schema without it: the one member of an `all_of` that is the only
/// part, or else the schema without title, description and default, neither deprecated, read-only nor
/// write-only. Copies that schema, and follows no reference. Fails only for want of memory.
pub fn schema_extract_description(
    alloc: Global,
    schema: &Schema,
) -> Result<(Option<Text>, Schema), AllocError>
    ensures { IfOk result (λ parts. parts ≡ description_and_schema schema.now) }
{
    let Schema::Object(object) = schema else {
        return Ok((None, schema.copy(alloc)?));
    };
    let object = object.get();
    let description = copy_text(alloc, &object.description)?;
    match lone_member(object) {
        Some(member) => Ok((description, member.copy(alloc)?)),
        None => Ok((description, without_annotations(alloc, object)?)),
    }
}

fn without_annotations(alloc: Global, object: &SchemaObject) -> Result<Schema, AllocError>
    ensures { IfOk result (λ schema. schema ≡ undescribed object.now) }
{
    let mut copy = object.copy(alloc)?;
    copy.title = None;
    copy.description = None;
    copy.default = None;
    copy.deprecated = false;
    copy.read_only = false;
    copy.write_only = false;
    Ok(Schema::Object(Boxed::new(alloc, copy)?))
}

/// The one member of an `all_of` that is the only part of a schema.
fn lone_member(object: &SchemaObject) -> Option<&Schema>
    ensures { option_copied result ≡ lone_member (form_of object.now) }
{
    let Form::Combination(subschemas) = Form::of(object) else {
        return None;
    };
    match Kind::of(subschemas) {
        Kind::AllOf(schemas) => only(schemas.as_slice()),
        _ => None,
    }
}

fn only(schemas: &[Schema]) -> Option<&Schema>
    ensures { option_copied result ≡ only schemas.now }
{
    match schemas {
        [schema] => Some(schema),
        _ => None,
    }
}

/// The extensions of a schema (OpenAPI 3.0.3, Specification Extensions). `None` exactly where it is a truth
/// value. Takes no memory and the same time for every schema.
pub fn schema_extensions(schema: &Schema) -> Option<&List<Member>>
    ensures { option_copied result ≡ extensions_of schema.now }
{
    match schema {
        Schema::Object(object) => Some(&object.get().extensions),
        Schema::Bool(_) => None,
    }
}

/// Whether a schema says that there is no value: it is false, or its only part is the `not` of a schema
/// that says nothing. Takes no memory, and follows no reference.
pub fn is_empty(schema: &Schema) -> bool
    ensures { result ≡ empty schema.now }
{
    match schema {
        Schema::Bool(truth) => !truth,
        Schema::Object(object) => match Form::of(object.get()) {
            Form::Combination(subschemas) => is_not_of_all(subschemas),
            _ => false,
        },
    }
}

fn is_not_of_all(subschemas: &Subschemas) -> bool
    ensures { result ≡ is_not_of_all (kind_of subschemas.now) }
{
    match Kind::of(subschemas) {
        Kind::Not(schema) => says_nothing(schema),
        _ => false,
    }
}

/// Whether a schema is true or has no part.
fn says_nothing(schema: &Schema) -> bool
    ensures { result ≡ says_nothing (schema_form schema.now) }
{
    match schema {
        Schema::Bool(truth) => *truth,
        Schema::Object(object) => matches!(Form::of(object.get()), Form::Bare),
    }
}
