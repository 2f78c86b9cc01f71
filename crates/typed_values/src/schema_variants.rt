// The schemas of external and tagged enumerations.
ghost use Rattle.std.specs.Prelude.{◌≡◌, ◌∷◌, ◌++◌, List, [], map, IfOk, OnOk, false, true};
ghost use Rattle.schema_values.specs.declared.json_value.Json.{Text as Words};
ghost use Rattle.schema_values.specs.declared.schema.SchemaObject.{out-SchemaObject};
ghost use Rattle.schema_values.specs.Order.{same_name, sorted_by};
ghost use Rattle.descriptors.specs.declared.table.Definition.{Definition};
ghost use Rattle.typed_values.specs.Checks.{TablePasses};
ghost use Rattle.descriptors.specs.Definitions.{tagged_description, tagged_fields};
ghost use Rattle.typed_values.specs.SchemaTable.{bare_names as names_alone};
ghost use Rattle.typed_values.specs.Schemas as meant;

use crate::lists::only;
use crate::schema_names::{choices_of, enumerated, one_of};
use crate::schema_parts::{object_of, with_description};
use crate::schema_rows::struct_parts;
use crate::schemas::{parts_of, properties_of, property, required_names};
use descriptors::{DescTable, Named, TaggedVariant, Variant};
use schema_values::{Json, List, Property, Schema, SchemaObject, Text, copy_text};
use std::alloc::{AllocError, Global};

/// One of the names without payload, or an object of one payload.
#[cycle(schema)]
pub(crate) fn external_parts(
    alloc: Global,
    table: &DescTable,
    variants: &[Variant],
) -> Result<SchemaObject, AllocError>
    requires { TablePasses table.now }
    ensures { IfOk result (λ parts. out-SchemaObject parts ≡ meant.one_of
        (meant.external_choices (map (meant.sketch_of_variant table.now) variants.now))) }
{
    let mut choices = bare_choices(alloc, variants)?;
    for variant in variants {
        if let Some(payload) = &variant.payload {
            let parts = parts_of(alloc, table, payload)?;
            push_payload(alloc, &mut choices, variant, parts)?;
        }
    }
    Ok(one_of(alloc, choices))
}

/// The choices of the variants without payload.
fn bare_choices(alloc: Global, variants: &[Variant]) -> Result<List<Schema>, AllocError>
    ensures { (table : List Definition) → IfOk result (λ choices. choices
        ≡ meant.choices_of (names_alone (map (meant.sketch_of_variant table) variants.now))) }
{
    choices_of(alloc, bare_names(alloc, variants)?.as_slice())
}

/// The variants without payload, as the names of an enumeration.
fn bare_names(alloc: Global, variants: &[Variant]) -> Result<List<Named>, AllocError>
    ensures { (table : List Definition) → IfOk result (λ names. names
        ≡ names_alone (map (meant.sketch_of_variant table) variants.now)) }
{
    let mut names = List::new(alloc);
    for variant in variants {
        if variant.payload.is_none() {
            names.push(Named {
                name: variant.name.copy(alloc)?,
                description: copy_text(alloc, &variant.description)?,
            })?;
        }
    }
    Ok(names)
}

/// Adds the choice of a variant with payload: an object of one property, which must be there, and of no
/// other.
fn push_payload(
    alloc: Global,
    choices: &mut List<Schema>,
    variant: &Variant,
    payload: SchemaObject,
) -> Result<(), AllocError>
    ensures { OnOk result (choices.new ≡ choices.old ++ meant.object_of (meant.with_description
        variant.now.description (meant.struct_parts (meant.property variant.now.name
        (out-SchemaObject payload) ∷ []) (variant.now.name ∷ []) true)) ∷ []) }
{
    let properties = only(alloc, property(alloc, &variant.name, payload)?)?;
    let required = only(alloc, variant.name.copy(alloc)?)?;
    let choice = described_struct(alloc, &variant.description, properties, required, true)?;
    choices.push(choice)
}

/// An object of some properties, with its description.
fn described_struct(
    alloc: Global,
    description: &Option<Text>,
    properties: List<Property>,
    required: List<Text>,
    deny_unknown: bool,
) -> Result<Schema, AllocError>
    ensures { IfOk result (λ schema. schema ≡ meant.object_of (meant.with_description description.now
        (meant.struct_of properties required deny_unknown))) }
{
    let description = copy_text(alloc, description)?;
    let parts = struct_parts(alloc, properties, required, deny_unknown);
    object_of(alloc, with_description(alloc, description, parts)?)
}

/// A choice of the variants of a tagged enumeration: each an object of the tag, which has the variant's name
/// alone, and of its fields.
#[cycle(schema)]
pub(crate) fn tagged_parts(
    alloc: Global,
    table: &DescTable,
    tag: &Text,
    variants: &[TaggedVariant],
) -> Result<SchemaObject, AllocError>
    requires { TablePasses table.now }
    ensures { IfOk result (λ parts. out-SchemaObject parts ≡ meant.one_of
        (map (meant.tagged_choice table.now tag.now) (map (meant.sketch_of_tagged table.now) variants.now))) }
{
    let mut choices = List::new(alloc);
    for variant in variants {
        let properties = tag_alone(alloc, tag, &variant.name)?;
        let properties = properties_of(alloc, table, properties, variant.fields.as_slice())?;
        push_tagged(alloc, &mut choices, tag, variant, properties)?;
    }
    Ok(one_of(alloc, choices))
}

/// Adds the choice of a variant with its properties, of which the tag and some fields must be there.
fn push_tagged(
    alloc: Global,
    choices: &mut List<Schema>,
    tag: &Text,
    variant: &TaggedVariant,
    properties: List<Property>,
) -> Result<(), AllocError>
    ensures { (table : List Definition) → OnOk result (choices.new ≡ choices.old ++ meant.object_of
        (meant.with_description (tagged_description variant.now) (meant.struct_of properties
        (sorted_by same_name (tag.now ∷ meant.required_names
        (map (meant.sketch_of_field table) (tagged_fields variant.now)))) false)) ∷ []) }
{
    let required = only(alloc, tag.copy(alloc)?)?.into_vec();
    let required = required_names(alloc, required, variant.fields.as_slice())?;
    let choice = described_struct(alloc, &variant.description, properties, required, false)?;
    choices.push(choice)
}

/// The property of a tag, which has one name alone.
fn tag_alone(alloc: Global, tag: &Text, name: &Text) -> Result<Vec<Property>, AllocError>
    ensures { IfOk result (λ properties. properties.items
        ≡ meant.property tag.now (meant.enumerated (Words name.now ∷ [])) ∷ []) }
{
    let texts = only(alloc, Json::Text(name.copy(alloc)?))?;
    let property = property(alloc, tag, enumerated(alloc, texts))?;
    Ok(only(alloc, property)?.into_vec())
}
