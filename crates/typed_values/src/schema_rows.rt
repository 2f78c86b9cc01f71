ghost use Rattle.std.specs.Prelude.{◌≡◌, IfOk, false};
ghost use Rattle.schema_values.specs.declared.schema.SchemaObject.{out-SchemaObject};
ghost use Rattle.typed_values.specs.SchemaTable as table;
ghost use Rattle.typed_values.specs.Schemas as meant;

use crate::schema_parts::{length_bounds, no_subschemas, number_bounds, object_of, of_single};
use descriptors::IntKind;
use schema_values::{
    ArrayParts, InstanceType, Items, List, ObjectParts, Property, Schema, SchemaObject, Text,
    copy_text,
};
use std::alloc::{AllocError, Global};

fn format_of(kind: IntKind) -> &'static str
    ensures { result.now ≡ table.format_of kind }
{
    match kind {
        IntKind::I8 => "int8",
        IntKind::I16 => "int16",
        IntKind::I32 => "int32",
        IntKind::I64 => "int64",
        IntKind::U8 => "uint8",
        IntKind::U16 => "uint16",
        IntKind::U32 => "uint32",
        IntKind::U64 => "uint64",
    }
}

/// The least number that is shown: 0 on an unsigned kind where none is given.
fn least_shown(kind: IntKind, min: &Option<i128>) -> Option<i128>
    ensures { result ≡ table.least_shown kind min.now }
{
    match min {
        Some(min) => Some(*min),
        None => match kind {
            IntKind::I8 | IntKind::I16 | IntKind::I32 | IntKind::I64 => None,
            IntKind::U8 | IntKind::U16 | IntKind::U32 | IntKind::U64 => Some(0),
        },
    }
}

/// `not` of every value.
pub(crate) fn never_parts(alloc: Global) -> SchemaObject
    ensures { out-SchemaObject result ≡ (meant.all_or_none false).parts }
{
    let mut subschemas = no_subschemas();
    subschemas.not = Some(Schema::Bool(true));
    let mut parts = SchemaObject::new(alloc);
    parts.subschemas = Some(subschemas);
    parts
}

/// A text of one character.
pub(crate) fn char_parts(alloc: Global) -> SchemaObject
    ensures { out-SchemaObject result ≡ meant.one_character }
{
    let mut parts = of_single(alloc, InstanceType::String);
    parts.string = length_bounds(Some(1), Some(1));
    parts
}

/// An object whose values are all of a schema.
pub(crate) fn map_parts(alloc: Global, values: Schema) -> SchemaObject
    ensures { out-SchemaObject result ≡ meant.map_of values }
{
    let mut parts = of_single(alloc, InstanceType::Object);
    parts.object = Some(ObjectParts {
        properties: List::new(alloc),
        required: List::new(alloc),
        additional: Some(values),
        min: None,
        max: None,
    });
    parts
}

pub(crate) fn int_parts(
    alloc: Global,
    kind: IntKind,
    min: &Option<i128>,
    max: &Option<i128>,
) -> Result<SchemaObject, AllocError>
    ensures { IfOk result (λ parts. out-SchemaObject parts
        ≡ meant.number_parts kind min.now max.now) }
{
    let mut format = Text::new(alloc);
    format.push_ascii(format_of(kind))?;
    let mut parts = of_single(alloc, InstanceType::Integer);
    parts.format = Some(format);
    parts.number = number_bounds(least_shown(kind, min), *max);
    Ok(parts)
}

pub(crate) fn text_parts(
    alloc: Global,
    min: Option<u32>,
    max: Option<u32>,
    format: &Option<Text>,
) -> Result<SchemaObject, AllocError>
    ensures { IfOk result (λ parts. out-SchemaObject parts
        ≡ meant.text_parts min max format.now) }
{
    let format = copy_text(alloc, format)?;
    let mut parts = of_single(alloc, InstanceType::String);
    parts.format = format;
    parts.string = length_bounds(min, max);
    Ok(parts)
}

/// A list of items of some parts.
pub(crate) fn list_parts(
    alloc: Global,
    item: SchemaObject,
    min: Option<u32>,
    max: Option<u32>,
) -> Result<SchemaObject, AllocError>
    ensures { IfOk result (λ parts. out-SchemaObject parts
        ≡ meant.list_of (meant.object_of (out-SchemaObject item)) min max) }
{
    let item = object_of(alloc, item)?;
    let mut parts = of_single(alloc, InstanceType::Array);
    parts.array = Some(ArrayParts {
        items: Some(Items::One(item)),
        min,
        max,
    });
    Ok(parts)
}

pub(crate) fn struct_parts(
    alloc: Global,
    properties: List<Property>,
    required: List<Text>,
    deny_unknown: bool,
) -> SchemaObject
    ensures { out-SchemaObject result ≡ meant.struct_of properties required deny_unknown }
{
    let mut parts = of_single(alloc, InstanceType::Object);
    parts.object = Some(ObjectParts {
        properties,
        required,
        additional: if deny_unknown {
            Some(Schema::Bool(false))
        } else {
            None
        },
        min: None,
        max: None,
    });
    parts
}

pub(crate) fn choice_parts(alloc: Global, alternatives: List<Schema>) -> SchemaObject
    ensures { out-SchemaObject result ≡ meant.choice_of alternatives }
{
    let mut parts = SchemaObject::new(alloc);
    let mut subschemas = no_subschemas();
    subschemas.any_of = Some(alternatives);
    parts.subschemas = Some(subschemas);
    parts
}

pub(crate) fn ref_parts(alloc: Global, name: &Text) -> Result<SchemaObject, AllocError>
    ensures { IfOk result (λ parts. out-SchemaObject parts
        ≡ meant.reference_parts name.now) }
{
    let mut reference = Text::new(alloc);
    reference.push_ascii("#/components/schemas/")?;
    reference.push_text(name)?;
    let mut parts = SchemaObject::new(alloc);
    parts.reference = Some(reference);
    Ok(parts)
}
