ghost use Rattle.std.specs.Prelude.{◌≡◌, [], map, option_map, option_and_then};
ghost use Rattle.std.specs.Prelude.{unwrap_or, Some, None, if◌then◌else◌};
ghost use Rattle.std.specs.List.{list_all};
ghost use Rattle.schema_values.specs.declared.schema.SchemaObject.{out-SchemaObject};
ghost use Rattle.openapi_values.specs.declared.j2oas.J2oasError.TheVariants.{TupleArray};
ghost use Rattle.openapi_values.specs.Refusal.{first_of, values_beside, object_level, types_refusal};
ghost use Rattle.openapi_values.specs.Refusal.{enum_conflict, const_unsupported};
ghost use Rattle.openapi_values.specs.Refusal.{is_bound_twice as has_both_forms};
ghost use Rattle.openapi_values.specs.Refusal.{bounds_refusal as refusal_of_bounds};
ghost use Rattle.openapi_values.specs.Refusal.{items_of as within_of, items_within, array_within};
ghost use Rattle.openapi_values.specs.Refusal.{is_value_of as is_value};
ghost use Rattle.openapi_values.specs.Refusal.{own_items_refusal as refusal_of_items};
ghost use Rattle.openapi_values.specs.Refusal.{values_refusal as refusal_of_values};
ghost use Rattle.openapi_values.specs.Refusal.{kinds_refusal as refusal_of_kinds};
ghost use Rattle.openapi_values.specs.Refusal.{own_refusal as own_refusal_of};
ghost use Rattle.openapi_values.specs.Refusal.{type_refusal as refusal_of_type};
ghost use Rattle.openapi_values.specs.Refusal.{inner_refusal as inner_refusal_of, refusal_of};
ghost use Rattle.openapi_values.specs.Refusal.{object_parts_refusal as refusal_of_parts};
ghost use Rattle.openapi_values.specs.Refusal.{property_refusal as refusal_of_property};
ghost use Rattle.openapi_values.specs.Refusal.{object_refusal as refusal_of_object, subschemas_inner};

use crate::asked::is_one_of;
use crate::j2oas::J2oasError;
use schema_values::{
    ArrayParts, InstanceType, InstanceTypes, Items, Json, List, NumberBounds, ObjectParts,
    Property, Schema, SchemaObject, Subschemas,
};

/// Why a schema is not written: its own case, or else the first inside it.
#[cycle(refusal)]
pub fn refusal(schema: &Schema) -> Option<J2oasError>
    ensures { result ≡ refusal_of schema.now }
{
    match schema {
        Schema::Bool(_) => None,
        Schema::Object(object) => object_refusal(object.get()),
    }
}

#[cycle(refusal)]
fn object_refusal(schema: &SchemaObject) -> Option<J2oasError>
    ensures { result ≡ refusal_of_object schema.now }
{
    match &schema.reference {
        Some(_) => None,
        None => match own_refusal(schema) {
            Some(refusal) => Some(refusal),
            None => inner_refusal(schema),
        },
    }
}

fn own_refusal(schema: &SchemaObject) -> Option<J2oasError>
    ensures { result ≡ own_refusal_of (object_level schema.now) }
{
    types_refusal(schema)
        .or_else(|| own_items_refusal(schema))
        .or_else(|| enum_conflict(schema))
        .or_else(|| const_unsupported(schema))
        .or_else(|| values_refusal(schema))
        .or_else(|| bounds_refusal(schema))
        .or_else(|| kinds_refusal(schema))
}

fn types_refusal(schema: &SchemaObject) -> Option<J2oasError>
    ensures { result ≡ types_refusal (out-SchemaObject schema.now).instance_type }
{
    match &schema.instance_type {
        Some(InstanceTypes::Several(_)) => Some(J2oasError::TypeArray),
        Some(InstanceTypes::Single(InstanceType::Number)) => Some(J2oasError::FloatSchema),
        _ => None,
    }
}

fn own_items_refusal(schema: &SchemaObject) -> Option<J2oasError>
    ensures { result ≡ refusal_of_items (out-SchemaObject schema.now).instance_type
        (within_of (object_level schema.now)) }
{
    match &schema.instance_type {
        Some(InstanceTypes::Single(InstanceType::Array)) => match items_of(schema) {
            Some(items) => tuple_array(items),
            None => Some(J2oasError::NoItems),
        },
        _ => None,
    }
}

fn items_of(schema: &SchemaObject) -> Option<&Items>
    ensures { option_map (λ items. items_within items.now) result ≡ within_of (object_level schema.now) }
{
    match &schema.array {
        Some(array) => array.items.as_ref(),
        None => None,
    }
}

fn tuple_array(items: &Items) -> Option<J2oasError>
    ensures { result ≡ (if (items_within items.now).by_place then Some TupleArray else None) }
{
    match items {
        Items::One(_) => None,
        Items::Tuple(_) => Some(J2oasError::TupleArray),
    }
}

fn enum_conflict(schema: &SchemaObject) -> Option<J2oasError>
    ensures { result ≡ enum_conflict (out-SchemaObject schema.now).const_value
        (out-SchemaObject schema.now).enum_values }
{
    match (&schema.const_value, &schema.enum_values) {
        (Some(value), Some(values)) if !is_one_of(values.as_slice(), value) => {
            Some(J2oasError::EnumConflict)
        }
        _ => None,
    }
}

fn const_unsupported(schema: &SchemaObject) -> Option<J2oasError>
    ensures { result ≡ const_unsupported (out-SchemaObject schema.now).const_value
        (out-SchemaObject schema.now).instance_type (object_level schema.now).subschemas }
{
    match (
        &schema.const_value,
        &schema.instance_type,
        &schema.subschemas,
    ) {
        (None, _, _) | (Some(_), Some(_), Some(_)) => None,
        _ => Some(J2oasError::ConstUnsupported),
    }
}

fn values_refusal(schema: &SchemaObject) -> Option<J2oasError>
    ensures { result ≡ refusal_of_values (out-SchemaObject schema.now).instance_type
        (unwrap_or (out-SchemaObject schema.now).enum_values []) }
{
    match &schema.enum_values {
        Some(values) => refusal_beside(&schema.instance_type, values.as_slice()),
        None => None,
    }
}

fn refusal_beside(types: &Option<InstanceTypes>, values: &[Json]) -> Option<J2oasError>
    ensures { result ≡ refusal_of_values types.now values.now }
{
    if values.is_empty() {
        return None;
    }
    match types {
        Some(InstanceTypes::Single(kind)) => refusal_beside_type(*kind, values),
        Some(InstanceTypes::Several(_)) => None,
        None => Some(J2oasError::EnumWithoutType),
    }
}

fn refusal_beside_type(kind: InstanceType, values: &[Json]) -> Option<J2oasError>
    ensures { result ≡ values_beside kind values.now }
{
    match kind {
        InstanceType::Object | InstanceType::Array => Some(J2oasError::EnumWithoutType),
        _ if are_values_of(kind, values) => None,
        _ => Some(J2oasError::BadEnumValue),
    }
}

fn are_values_of(kind: InstanceType, values: &[Json]) -> bool
    ensures { result ≡ list_all (is_value kind) values.now }
{
    values.iter().all(|value| is_value_of(kind, value))
}

fn is_value_of(kind: InstanceType, value: &Json) -> bool
    ensures { result ≡ is_value kind value.now }
{
    match value {
        Json::Null => true,
        Json::Bool(_) => matches!(kind, InstanceType::Boolean),
        Json::Int(_) => matches!(kind, InstanceType::Integer),
        Json::Text(_) => matches!(kind, InstanceType::String),
        Json::List(_) | Json::Object(_) => false,
    }
}

fn bounds_refusal(schema: &SchemaObject) -> Option<J2oasError>
    ensures { result ≡ refusal_of_bounds (out-SchemaObject schema.now).number }
{
    match &schema.number {
        Some(bounds) if is_bound_twice(bounds) => Some(J2oasError::BadBounds),
        _ => None,
    }
}

fn is_bound_twice(bounds: &NumberBounds) -> bool
    ensures { result ≡ has_both_forms bounds.now }
{
    bounds.minimum.is_some() && bounds.exclusive_minimum.is_some()
        || bounds.maximum.is_some() && bounds.exclusive_maximum.is_some()
}

fn kinds_refusal(schema: &SchemaObject) -> Option<J2oasError>
    ensures { result ≡ refusal_of_kinds (out-SchemaObject schema.now).instance_type
        (option_map subschemas_inner (out-SchemaObject schema.now).subschemas) }
{
    match (&schema.instance_type, &schema.subschemas) {
        (None, Some(subschemas)) if !has_one_kind(subschemas) => Some(J2oasError::BadSubschema),
        _ => None,
    }
}

fn has_one_kind(subschemas: &Subschemas) -> bool
    ensures { result ≡ (subschemas_inner subschemas.now).one_kind }
{
    let given = [
        subschemas.all_of.is_some(),
        subschemas.any_of.is_some(),
        subschemas.one_of.is_some(),
        subschemas.not.is_some(),
    ];
    given.iter().filter(|given| **given).count() == 1
}

#[cycle(refusal)]
fn inner_refusal(schema: &SchemaObject) -> Option<J2oasError>
    ensures { result ≡ inner_refusal_of (object_level schema.now) }
{
    match type_refusal(schema) {
        Some(refusal) => Some(refusal),
        None => match &schema.subschemas {
            Some(subschemas) => subschemas_refusal(subschemas),
            None => None,
        },
    }
}

#[cycle(refusal)]
fn type_refusal(schema: &SchemaObject) -> Option<J2oasError>
    ensures { result ≡ refusal_of_type (out-SchemaObject schema.now).instance_type
        (within_of (object_level schema.now)) (object_level schema.now).object }
{
    match &schema.instance_type {
        Some(InstanceTypes::Single(InstanceType::Array)) => match &schema.array {
            Some(array) => array_refusal(array),
            None => None,
        },
        Some(InstanceTypes::Single(InstanceType::Object)) => match &schema.object {
            Some(object) => object_parts_refusal(object),
            None => None,
        },
        _ => None,
    }
}

#[cycle(refusal)]
fn array_refusal(array: &ArrayParts) -> Option<J2oasError>
    ensures { result ≡ option_and_then (λ items. items.refusal) (array_within array.now) }
{
    match &array.items {
        Some(items) => items_refusal(items),
        None => None,
    }
}

#[cycle(refusal)]
fn items_refusal(items: &Items) -> Option<J2oasError>
    ensures { result ≡ (items_within items.now).refusal }
{
    match items {
        Items::One(schema) => refusal(schema),
        Items::Tuple(schemas) => list_refusal(schemas.as_slice()),
    }
}

#[cycle(refusal)]
fn object_parts_refusal(object: &ObjectParts) -> Option<J2oasError>
    ensures { result ≡ refusal_of_parts object.now }
{
    match properties_refusal(object.properties.as_slice()) {
        Some(refusal) => Some(refusal),
        None => schema_refusal(&object.additional),
    }
}

#[cycle(refusal)]
fn properties_refusal(properties: &[Property]) -> Option<J2oasError>
    ensures { result ≡ first_of (map refusal_of_property properties.now) }
{
    for property in properties {
        if let Some(refusal) = property_refusal(property) {
            return Some(refusal);
        }
    }
    None
}

#[cycle(refusal)]
fn property_refusal(property: &Property) -> Option<J2oasError>
    ensures { result ≡ refusal_of_property property.now }
{
    refusal(&property.schema)
}

#[cycle(refusal)]
fn schema_refusal(schema: &Option<Schema>) -> Option<J2oasError>
    ensures { result ≡ unwrap_or (option_map refusal_of schema.now) None }
{
    match schema {
        Some(schema) => refusal(schema),
        None => None,
    }
}

#[cycle(refusal)]
fn subschemas_refusal(subschemas: &Subschemas) -> Option<J2oasError>
    ensures { result ≡ (subschemas_inner subschemas.now).refusal }
{
    if let Some(refusal) = schemas_refusal(&subschemas.all_of) {
        return Some(refusal);
    }
    if let Some(refusal) = schemas_refusal(&subschemas.any_of) {
        return Some(refusal);
    }
    if let Some(refusal) = schemas_refusal(&subschemas.one_of) {
        return Some(refusal);
    }
    schema_refusal(&subschemas.not)
}

#[cycle(refusal)]
fn schemas_refusal(schemas: &Option<List<Schema>>) -> Option<J2oasError>
    ensures { result ≡ first_of (unwrap_or (option_map (map refusal_of) schemas.now) []) }
{
    match schemas {
        Some(schemas) => list_refusal(schemas.as_slice()),
        None => None,
    }
}

#[cycle(refusal)]
fn list_refusal(schemas: &[Schema]) -> Option<J2oasError>
    ensures { result ≡ first_of (map refusal_of schemas.now) }
{
    for schema in schemas {
        if let Some(found) = refusal(schema) {
            return Some(found);
        }
    }
    None
}
