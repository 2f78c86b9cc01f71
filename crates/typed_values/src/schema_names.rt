// The schema of an enumeration.
ghost use Rattle.std.specs.Prelude.{◌≡◌, IfOk};
ghost use Rattle.std.specs.List.{list_any};
ghost use Rattle.schema_values.specs.declared.schema.SchemaObject.{out-SchemaObject};
ghost use Rattle.typed_values.specs.SchemaTable.{is_described};
ghost use Rattle.typed_values.specs.Schemas as meant;

use crate::lists::only;
use crate::schema_parts::{no_subschemas, object_of, of_single, with_description};
use descriptors::Named;
use schema_values::{InstanceType, Json, List, Schema, SchemaObject, copy_text};
use std::alloc::{AllocError, Global};

/// One of some names, or a choice where some are described.
pub(crate) fn enumeration_parts(alloc: Global, names: &[Named]) -> Result<SchemaObject, AllocError>
    ensures { IfOk result (λ parts. out-SchemaObject parts ≡ meant.enumeration names.now) }
{
    if is_any_described(names) {
        return Ok(one_of(alloc, choices_of(alloc, names)?));
    }
    Ok(enumerated(alloc, texts_of(alloc, names)?))
}

fn is_any_described(names: &[Named]) -> bool
    ensures { result ≡ list_any is_described names.now }
{
    names.iter().any(|named| named.description.is_some())
}

pub(crate) fn enumerated(alloc: Global, values: List<Json>) -> SchemaObject
    ensures { out-SchemaObject result ≡ meant.enumerated values }
{
    let mut parts = of_single(alloc, InstanceType::String);
    parts.enum_values = Some(values);
    parts
}

pub(crate) fn one_of(alloc: Global, choices: List<Schema>) -> SchemaObject
    ensures { out-SchemaObject result ≡ meant.one_of choices }
{
    let mut subschemas = no_subschemas();
    subschemas.one_of = Some(choices);
    let mut parts = SchemaObject::new(alloc);
    parts.subschemas = Some(subschemas);
    parts
}

fn texts_of(alloc: Global, names: &[Named]) -> Result<List<Json>, AllocError>
    ensures { IfOk result (λ texts. texts ≡ meant.texts_of names.now) }
{
    let mut texts = List::new(alloc);
    for named in names {
        texts.push(Json::Text(named.name.copy(alloc)?))?;
    }
    Ok(texts)
}

/// The names without description as one choice, if there are any, then each described name.
pub(crate) fn choices_of(alloc: Global, names: &[Named]) -> Result<List<Schema>, AllocError>
    ensures { IfOk result (λ choices. choices ≡ meant.choices_of names.now) }
{
    let mut choices = plain_choice(alloc, plain_texts(alloc, names)?)?;
    for named in names {
        if named.description.is_some() {
            choices.push(described_choice(alloc, named)?)?;
        }
    }
    Ok(choices)
}

/// The names without description.
fn plain_texts(alloc: Global, names: &[Named]) -> Result<List<Json>, AllocError>
    ensures { IfOk result (λ texts. texts ≡ meant.texts_of (meant.not_described names.now)) }
{
    let mut texts = List::new(alloc);
    for named in names {
        if named.description.is_none() {
            texts.push(Json::Text(named.name.copy(alloc)?))?;
        }
    }
    Ok(texts)
}

/// Some texts as one choice, if there are any.
fn plain_choice(alloc: Global, texts: List<Json>) -> Result<List<Schema>, AllocError>
    ensures { IfOk result (λ choices. choices ≡ meant.plain_choice texts) }
{
    let mut choices = List::new(alloc);
    if !texts.is_empty() {
        choices.push(object_of(alloc, enumerated(alloc, texts))?)?;
    }
    Ok(choices)
}

/// A described name, as a choice of its own.
fn described_choice(alloc: Global, named: &Named) -> Result<Schema, AllocError>
    ensures { IfOk result (λ schema. schema ≡ meant.described_choice named.now) }
{
    let texts = only(alloc, Json::Text(named.name.copy(alloc)?))?;
    let description = copy_text(alloc, &named.description)?;
    object_of(
        alloc,
        with_description(alloc, description, enumerated(alloc, texts))?,
    )
}
