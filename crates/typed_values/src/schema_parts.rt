ghost use Rattle.std.specs.Prelude.{◌≡◌, IfOk};
ghost use Rattle.schema_values.specs.declared.schema.SchemaObject.{out-SchemaObject};
ghost use Rattle.schema_values.specs.declared.schema.Subschemas.{out-Subschemas};
ghost use Rattle.typed_values.specs.Schemas as meant;

use crate::lists::only;
use schema_values::{
    Boxed, InstanceType, InstanceTypes, Json, LengthBounds, NumberBounds, Schema, SchemaObject,
    Subschemas, Text,
};
use std::alloc::{AllocError, Global};

pub(crate) fn object_of(alloc: Global, parts: SchemaObject) -> Result<Schema, AllocError>
    ensures { IfOk result (λ schema. schema ≡ meant.object_of (out-SchemaObject parts)) }
{
    Ok(Schema::Object(Boxed::new(alloc, parts)?))
}

pub(crate) fn no_subschemas() -> Subschemas
    ensures { out-Subschemas result ≡ meant.no_subschemas }
{
    Subschemas {
        all_of: None,
        any_of: None,
        one_of: None,
        not: None,
    }
}

pub(crate) fn of_single(alloc: Global, instance_type: InstanceType) -> SchemaObject
    ensures { out-SchemaObject result ≡ meant.of_single instance_type }
{
    let mut parts = SchemaObject::new(alloc);
    parts.instance_type = Some(InstanceTypes::Single(instance_type));
    parts
}

/// The parts to which annotations may be added: a reference stands in an `all_of` of one.
fn annotatable(alloc: Global, parts: SchemaObject) -> Result<SchemaObject, AllocError>
    ensures { IfOk result (λ annotated. out-SchemaObject annotated ≡ meant.annotatable
        (out-SchemaObject parts)) }
{
    if parts.reference.is_none() {
        return Ok(parts);
    }
    let all_of = only(alloc, object_of(alloc, parts)?)?;
    let mut annotated = SchemaObject::new(alloc);
    let mut subschemas = no_subschemas();
    subschemas.all_of = Some(all_of);
    annotated.subschemas = Some(subschemas);
    Ok(annotated)
}

pub(crate) fn with_null(alloc: Global, parts: SchemaObject) -> Result<SchemaObject, AllocError>
    ensures { IfOk result (λ nullable. out-SchemaObject nullable ≡ meant.with_null (out-SchemaObject parts)) }
{
    let mut parts = annotatable(alloc, parts)?;
    parts.nullable = true;
    Ok(parts)
}

pub(crate) fn with_description(
    alloc: Global,
    description: Option<Text>,
    parts: SchemaObject,
) -> Result<SchemaObject, AllocError>
    ensures { IfOk result (λ described. out-SchemaObject described ≡ meant.with_description description
        (out-SchemaObject parts)) }
{
    match description {
        None => Ok(parts),
        Some(text) => {
            let mut parts = annotatable(alloc, parts)?;
            parts.description = Some(text);
            Ok(parts)
        }
    }
}

pub(crate) fn with_default(
    alloc: Global,
    default: Option<Json>,
    parts: SchemaObject,
) -> Result<SchemaObject, AllocError>
    ensures { IfOk result (λ defaulted. out-SchemaObject defaulted ≡ meant.with_default default
        (out-SchemaObject parts)) }
{
    match default {
        None => Ok(parts),
        Some(value) => {
            let mut parts = annotatable(alloc, parts)?;
            parts.default = Some(value);
            Ok(parts)
        }
    }
}

pub(crate) fn number_bounds(min: Option<i128>, max: Option<i128>) -> Option<NumberBounds>
    ensures { result ≡ meant.number_bounds min max }
{
    if min.is_none() && max.is_none() {
        return None;
    }
    Some(NumberBounds {
        minimum: min,
        exclusive_minimum: None,
        maximum: max,
        exclusive_maximum: None,
    })
}

pub(crate) fn length_bounds(min: Option<u32>, max: Option<u32>) -> Option<LengthBounds>
    ensures { result ≡ meant.length_bounds min max }
{
    if min.is_none() && max.is_none() {
        return None;
    }
    Some(LengthBounds { min, max })
}
