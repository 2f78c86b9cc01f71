ghost use Rattle.std.specs.Prelude.{◌≡◌, ◌++◌, IfOk, OnOk, [], map, option_map, unwrap_or};
ghost use Rattle.schema_values.specs.declared.schema.ObjectParts.{out-ObjectParts};
ghost use Rattle.schema_values.specs.declared.schema.SchemaObject.{out-SchemaObject};
ghost use Rattle.schema_values.specs.declared.schema.InstanceType.TheVariants.{Object as ObjectType};
ghost use Rattle.schema_values.specs.declared.schema.InstanceType.TheVariants.{Array as ArrayType};
ghost use Rattle.openapi_values.specs.Objects.{members_of, unless_empty, pair_member};
ghost use Rattle.openapi_values.specs.SchemaJson.{untitled, additional_json as json_of_additional};
ghost use Rattle.openapi_values.specs.SchemaJson.{schemas_json as json_of_schemas, kind_entries};
ghost use Rattle.openapi_values.specs.SchemaJson.{type_entries, schema_json, schema_written, object_written};
ghost use Rattle.openapi_values.specs.SchemaJson.{entries_behind, object_level};
ghost use Rattle.openapi_values.specs.SchemaJson.{items_written, array_written, object_parts_written};
ghost use Rattle.openapi_values.specs.SchemaJson.{property_written, subschemas_written};

use crate::objects::{add, add_list, reference};
use crate::schema_parts::{
    add_annotations, add_const, add_counts, add_nothing, add_null, add_number, add_text,
    add_values, is_without_values, truth_json, type_text,
};
use schema_values::{
    ArrayParts, InstanceType, InstanceTypes, Items, Json, List, Member, ObjectParts, Property,
    Schema, SchemaObject, Subschemas, Text,
};
use std::alloc::{AllocError, Global};

/// A schema as it is written, under a title where one is given. It is asked of schemas that are not refused:
/// what it gives for others is never seen.
#[cycle(written)]
pub fn written(alloc: Global, title: &Option<Text>, schema: &Schema) -> Result<Json, AllocError>
    ensures { IfOk result (λ json. json ≡ schema_json title.now schema.now) }
{
    match schema {
        Schema::Bool(truth) => truth_json(alloc, *truth),
        Schema::Object(object) => object_json(alloc, title, object.get()),
    }
}

#[cycle(written)]
fn object_json(
    alloc: Global,
    title: &Option<Text>,
    schema: &SchemaObject,
) -> Result<Json, AllocError>
    ensures { IfOk result (λ json. json ≡ object_written schema.now title.now) }
{
    if let Some(text) = &schema.reference {
        return reference(alloc, text);
    }
    let mut members = List::new(alloc);
    add_annotations(alloc, &mut members, title, schema)?;
    add_behind(alloc, &mut members, schema)?;
    Ok(Json::Object(members))
}

#[cycle(written)]
fn add_behind(
    alloc: Global,
    members: &mut List<Member>,
    schema: &SchemaObject,
) -> Result<(), AllocError>
    ensures { OnOk result (members.new ≡ members.old ++ members_of
        (entries_behind (object_level schema.now))) }
{
    if is_without_values(&schema.enum_values) {
        return add_nothing(alloc, members);
    }
    add_type(alloc, members, schema)?;
    add_subschemas(alloc, members, schema)
}

#[cycle(written)]
fn add_type(
    alloc: Global,
    members: &mut List<Member>,
    schema: &SchemaObject,
) -> Result<(), AllocError>
    ensures { OnOk result (members.new ≡ members.old ++ members_of
        (type_entries (out-SchemaObject schema.now).instance_type (object_level schema.now))) }
{
    match &schema.instance_type {
        None | Some(InstanceTypes::Several(_)) => Ok(()),
        Some(InstanceTypes::Single(kind)) => {
            let name = type_text(alloc, *kind)?;
            add(alloc, members, "type", Some(name))?;
            add_kind(alloc, members, *kind, schema)?;
            Ok(())
        }
    }
}

#[cycle(written)]
fn add_kind(
    alloc: Global,
    members: &mut List<Member>,
    kind: InstanceType,
    schema: &SchemaObject,
) -> Result<(), AllocError>
    ensures { OnOk result (members.new ≡ members.old ++ members_of
        (kind_entries kind (object_level schema.now))) }
{
    match kind {
        InstanceType::Null => add_null(alloc, members, schema),
        InstanceType::Boolean => add_values(alloc, members, schema),
        InstanceType::Object => add_object(alloc, members, schema),
        InstanceType::Array => add_array(alloc, members, schema),
        InstanceType::String => add_text(alloc, members, schema),
        InstanceType::Number | InstanceType::Integer => add_number(alloc, members, schema),
    }
}

#[cycle(written)]
fn add_object(
    alloc: Global,
    members: &mut List<Member>,
    schema: &SchemaObject,
) -> Result<(), AllocError>
    ensures { OnOk result (members.new ≡ members.old ++ members_of
        (kind_entries ObjectType (object_level schema.now))) }
{
    add_const(alloc, members, schema)?;
    match &schema.object {
        Some(object) => add_object_parts(alloc, members, object),
        None => Ok(()),
    }
}

#[cycle(written)]
fn add_array(
    alloc: Global,
    members: &mut List<Member>,
    schema: &SchemaObject,
) -> Result<(), AllocError>
    ensures { OnOk result (members.new ≡ members.old ++ members_of
        (kind_entries ArrayType (object_level schema.now))) }
{
    add_const(alloc, members, schema)?;
    match &schema.array {
        Some(array) => add_array_parts(alloc, members, array),
        None => Ok(()),
    }
}

#[cycle(written)]
fn add_array_parts(
    alloc: Global,
    members: &mut List<Member>,
    array: &ArrayParts,
) -> Result<(), AllocError>
    ensures { OnOk result (members.new ≡ members.old ++ members_of (array_written array.now)) }
{
    let items = items_json(alloc, array)?;
    add(alloc, members, "items", items)?;
    add_counts(alloc, members, "minItems", array.min, "maxItems", array.max)
}

#[cycle(written)]
fn items_json(alloc: Global, array: &ArrayParts) -> Result<Option<Json>, AllocError>
    ensures { IfOk result (λ json. json ≡ option_map items_written array.now.items) }
{
    match &array.items {
        Some(items) => Ok(Some(item_json(alloc, items)?)),
        None => Ok(None),
    }
}

#[cycle(written)]
fn item_json(alloc: Global, items: &Items) -> Result<Json, AllocError>
    ensures { IfOk result (λ json. json ≡ items_written items.now) }
{
    match items {
        Items::One(schema) => written(alloc, &None, schema),
        Items::Tuple(schemas) => Ok(Json::List(list_json(alloc, schemas.as_slice())?)),
    }
}

#[cycle(written)]
fn add_object_parts(
    alloc: Global,
    members: &mut List<Member>,
    object: &ObjectParts,
) -> Result<(), AllocError>
    ensures { OnOk result (members.new ≡ members.old ++ members_of (object_parts_written object.now)) }
{
    let properties = properties_json(alloc, object)?;
    add(alloc, members, "properties", properties)?;
    add_list(alloc, members, "required", &object.required)?;
    let additional = additional_json(alloc, object)?;
    add(alloc, members, "additionalProperties", additional)?;
    add_counts(
        alloc,
        members,
        "minProperties",
        object.min,
        "maxProperties",
        object.max,
    )
}

#[cycle(written)]
fn properties_json(alloc: Global, object: &ObjectParts) -> Result<Option<Json>, AllocError>
    ensures { IfOk result (λ json. json ≡ unless_empty
        (map pair_member (map property_written (out-ObjectParts object.now).properties))) }
{
    let properties = object.properties.as_slice();
    if properties.is_empty() {
        return Ok(None);
    }
    Ok(Some(Json::Object(property_members(alloc, properties)?)))
}

#[cycle(written)]
fn property_members(alloc: Global, properties: &[Property]) -> Result<List<Member>, AllocError>
    ensures { IfOk result (λ members. members ≡ map pair_member (map property_written properties.now)) }
{
    let mut members = List::new(alloc);
    for property in properties {
        members.push(property_member(alloc, property)?)?;
    }
    Ok(members)
}

#[cycle(written)]
fn property_member(alloc: Global, property: &Property) -> Result<Member, AllocError>
    ensures { IfOk result (λ written. written ≡ pair_member (property_written property.now)) }
{
    let name = property.name.copy(alloc)?;
    let value = written(alloc, &None, &property.schema)?;
    Ok(Member { name, value })
}

#[cycle(written)]
fn additional_json(alloc: Global, object: &ObjectParts) -> Result<Option<Json>, AllocError>
    ensures { IfOk result (λ json. json ≡ option_map json_of_additional
        (option_map schema_written (out-ObjectParts object.now).additional)) }
{
    match &object.additional {
        Some(schema) => Ok(Some(truth_or_schema(alloc, schema)?)),
        None => Ok(None),
    }
}

// What other members are admitted by: a truth value, or a schema.
#[cycle(written)]
fn truth_or_schema(alloc: Global, schema: &Schema) -> Result<Json, AllocError>
    ensures { IfOk result (λ json. json ≡ json_of_additional (schema_written schema.now)) }
{
    match schema {
        Schema::Bool(truth) => Ok(Json::Bool(*truth)),
        Schema::Object(object) => object_json(alloc, &None, object.get()),
    }
}

#[cycle(written)]
fn add_subschemas(
    alloc: Global,
    members: &mut List<Member>,
    schema: &SchemaObject,
) -> Result<(), AllocError>
    ensures { OnOk result (members.new ≡ members.old ++ members_of
        (unwrap_or (option_map subschemas_written (out-SchemaObject schema.now).subschemas) [])) }
{
    match &schema.subschemas {
        Some(subschemas) => add_schemas(alloc, members, subschemas),
        None => Ok(()),
    }
}

#[cycle(written)]
fn add_schemas(
    alloc: Global,
    members: &mut List<Member>,
    subschemas: &Subschemas,
) -> Result<(), AllocError>
    ensures { OnOk result (members.new ≡ members.old ++ members_of (subschemas_written subschemas.now)) }
{
    let all_of = schemas_json(alloc, &subschemas.all_of)?;
    add(alloc, members, "allOf", all_of)?;
    let any_of = schemas_json(alloc, &subschemas.any_of)?;
    add(alloc, members, "anyOf", any_of)?;
    let one_of = schemas_json(alloc, &subschemas.one_of)?;
    add(alloc, members, "oneOf", one_of)?;
    let not = not_json(alloc, &subschemas.not)?;
    add(alloc, members, "not", not)
}

#[cycle(written)]
fn schemas_json(alloc: Global, schemas: &Option<List<Schema>>) -> Result<Option<Json>, AllocError>
    ensures { IfOk result (λ json. json ≡ json_of_schemas (option_map (map schema_written) schemas.now)) }
{
    match schemas {
        Some(schemas) => Ok(Some(Json::List(list_json(alloc, schemas.as_slice())?))),
        None => Ok(None),
    }
}

#[cycle(written)]
fn not_json(alloc: Global, schema: &Option<Schema>) -> Result<Option<Json>, AllocError>
    ensures { IfOk result (λ json. json ≡ option_map untitled (option_map schema_written schema.now)) }
{
    match schema {
        Some(schema) => Ok(Some(written(alloc, &None, schema)?)),
        None => Ok(None),
    }
}

#[cycle(written)]
fn list_json(alloc: Global, schemas: &[Schema]) -> Result<List<Json>, AllocError>
    ensures { IfOk result (λ list. list ≡ map untitled (map schema_written schemas.now)) }
{
    let mut list = List::new(alloc);
    for schema in schemas {
        list.push(written(alloc, &None, schema)?)?;
    }
    Ok(list)
}
