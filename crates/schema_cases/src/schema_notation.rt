//! Reads schemas as cases note them: in JSON, as the Rust crate `schemars` 0.8 writes them.
//!
//! The members of an object are read in ascending order of names. For another order, or a name that
//! stands twice, a list of objects stands for one object of all their members:
//! `[{"b": true}, {"a": true}]`. Subschemas of no kind are noted as `{"subschemas": {}}`. A member
//! of another name than a schema's parts is an extension.
use case_notation::{CaseError, Reader, Row, count_of, given, number_of, say, text_of, truth_of};
use schema_values::{
    ArrayParts, Definitions, InstanceType, InstanceTypes, Items, Json, LengthBounds, List, Member,
    NumberBounds, ObjectParts, Property, Schema, SchemaObject, Subschemas, Text,
};
use std::alloc::Global;

/// The schema of a case.
pub fn noted_schema(alloc: Global, case: &Json) -> Result<Schema, CaseError> {
    let noted = given(case, "schema")?;
    let mut reader = Reader::new(alloc);
    let schema = read_schema(&mut reader, noted);
    reader.finish(schema)
}

/// The definitions of a case: schemas by names. There need be none.
pub fn definitions_of(alloc: Global, case: &Json) -> Result<Definitions, CaseError> {
    match case.get("definitions") {
        Some(Json::Object(members)) => defined(alloc, members.as_slice()),
        Some(_) => Err(CaseError::Expected("definitions")),
        None => Ok(Definitions::new(alloc)),
    }
}

fn defined(alloc: Global, members: &[Member]) -> Result<Definitions, CaseError> {
    let mut reader = Reader::new(alloc);
    let mut definitions = Definitions::new(alloc);
    for Member { name, value } in members {
        let schema = read_schema(&mut reader, value);
        reader.or(define(alloc, &mut definitions, name, schema), ());
    }
    reader.finish(definitions)
}

fn define(
    alloc: Global,
    definitions: &mut Definitions,
    name: &Text,
    schema: Schema,
) -> Result<(), CaseError> {
    let name = String::from_str(alloc, name.as_str())?;
    definitions.insert(name, schema)?;
    Ok(())
}

#[cycle(schema)]
fn read_schema(reader: &mut Reader, noted: &Json) -> Schema {
    match noted {
        Json::Bool(truth) => Schema::Bool(*truth),
        noted => read_object(reader, noted),
    }
}

#[cycle(schema)]
fn read_object(reader: &mut Reader, noted: &Json) -> Schema {
    let mut object = SchemaObject::new(reader.alloc());
    add_parts(reader, noted, &mut object);
    boxed(reader, object)
}

fn boxed(reader: &mut Reader, object: SchemaObject) -> Schema {
    match reader.boxed(object) {
        Some(object) => Schema::Object(object),
        None => Schema::Bool(true),
    }
}

#[cycle(schema)]
fn add_parts(reader: &mut Reader, noted: &Json, object: &mut SchemaObject) {
    match noted {
        Json::Object(members) => add_members(reader, members.as_slice(), object),
        Json::List(objects) => add_objects(reader, objects.as_slice(), object),
        _ => reader.expected("a schema"),
    }
}

#[cycle(schema)]
fn add_objects(reader: &mut Reader, objects: &[Json], object: &mut SchemaObject) {
    for parts in objects {
        add_parts(reader, parts, object);
    }
}

#[cycle(schema)]
fn add_members(reader: &mut Reader, members: &[Member], object: &mut SchemaObject) {
    for Member { name, value } in members {
        add_part(reader, name.as_str(), value, object);
    }
}

#[cycle(schema)]
fn add_part(reader: &mut Reader, name: &str, value: &Json, object: &mut SchemaObject) {
    match name {
        "subschemas" | "allOf" | "anyOf" | "oneOf" | "not" => {
            add_subschemas(reader, name, value, kinds(object));
        }
        "items" => array(object).items = Some(read_items(reader, value)),
        "properties" => {
            let alloc = reader.alloc();
            add_properties(reader, value, &mut members(alloc, object).properties);
        }
        "additionalProperties" => {
            let alloc = reader.alloc();
            members(alloc, object).additional = Some(read_schema(reader, value));
        }
        _ => add_limit(reader, name, value, object),
    }
}

#[cycle(schema)]
fn add_subschemas(reader: &mut Reader, name: &str, value: &Json, kinds: &mut Subschemas) {
    match name {
        "allOf" => kinds.all_of = Some(read_schemas(reader, value)),
        "anyOf" => kinds.any_of = Some(read_schemas(reader, value)),
        "oneOf" => kinds.one_of = Some(read_schemas(reader, value)),
        "not" => kinds.not = Some(read_schema(reader, value)),
        _ => {}
    }
}

#[cycle(schema)]
fn read_schemas(reader: &mut Reader, noted: &Json) -> List<Schema> {
    match noted {
        Json::List(schemas) => read_all_schemas(reader, schemas.as_slice()),
        _ => {
            reader.expected("schemas");
            List::new(reader.alloc())
        }
    }
}

#[cycle(schema)]
fn read_all_schemas(reader: &mut Reader, noted: &[Json]) -> List<Schema> {
    let mut schemas = List::new(reader.alloc());
    for schema in noted {
        let schema = read_schema(reader, schema);
        reader.push(&mut schemas, schema);
    }
    schemas
}

#[cycle(schema)]
fn read_items(reader: &mut Reader, noted: &Json) -> Items {
    match noted {
        Json::List(schemas) => Items::Tuple(read_all_schemas(reader, schemas.as_slice())),
        _ => Items::One(read_schema(reader, noted)),
    }
}

#[cycle(schema)]
fn add_properties(reader: &mut Reader, noted: &Json, properties: &mut List<Property>) {
    match noted {
        Json::Object(members) => add_named(reader, members.as_slice(), properties),
        Json::List(objects) => add_named_in_order(reader, objects.as_slice(), properties),
        _ => reader.expected("properties"),
    }
}

#[cycle(schema)]
fn add_named_in_order(reader: &mut Reader, objects: &[Json], properties: &mut List<Property>) {
    for object in objects {
        add_properties(reader, object, properties);
    }
}

#[cycle(schema)]
fn add_named(reader: &mut Reader, members: &[Member], properties: &mut List<Property>) {
    for Member { name, value } in members {
        let property = Property {
            name: reader.copy(name),
            schema: read_schema(reader, value),
        };
        reader.push(properties, property);
    }
}

fn kinds(object: &mut SchemaObject) -> &mut Subschemas {
    object.subschemas.get_or_insert(Subschemas {
        all_of: None,
        any_of: None,
        one_of: None,
        not: None,
    })
}

fn bounds(object: &mut SchemaObject) -> &mut NumberBounds {
    object.number.get_or_insert(NumberBounds {
        minimum: None,
        exclusive_minimum: None,
        maximum: None,
        exclusive_maximum: None,
    })
}

fn lengths(object: &mut SchemaObject) -> &mut LengthBounds {
    object.string.get_or_insert(LengthBounds {
        min: None,
        max: None,
    })
}

fn array(object: &mut SchemaObject) -> &mut ArrayParts {
    object.array.get_or_insert(ArrayParts {
        items: None,
        min: None,
        max: None,
    })
}

fn members(alloc: Global, object: &mut SchemaObject) -> &mut ObjectParts {
    object.object.get_or_insert(ObjectParts {
        properties: List::new(alloc),
        required: List::new(alloc),
        additional: None,
        min: None,
        max: None,
    })
}

fn add_limit(reader: &mut Reader, name: &str, value: &Json, object: &mut SchemaObject) {
    match name {
        "minimum" => bounds(object).minimum = Some(read_number(reader, value)),
        "exclusiveMinimum" => bounds(object).exclusive_minimum = Some(read_number(reader, value)),
        "maximum" => bounds(object).maximum = Some(read_number(reader, value)),
        "exclusiveMaximum" => bounds(object).exclusive_maximum = Some(read_number(reader, value)),
        "minLength" => lengths(object).min = Some(read_count(reader, value)),
        "maxLength" => lengths(object).max = Some(read_count(reader, value)),
        "minItems" => array(object).min = Some(read_count(reader, value)),
        "maxItems" => array(object).max = Some(read_count(reader, value)),
        _ => add_limit_of_members(reader, name, value, object),
    }
}

fn add_limit_of_members(reader: &mut Reader, name: &str, value: &Json, object: &mut SchemaObject) {
    let alloc = reader.alloc();
    match name {
        "minProperties" => members(alloc, object).min = Some(read_count(reader, value)),
        "maxProperties" => members(alloc, object).max = Some(read_count(reader, value)),
        "required" => members(alloc, object).required = reader.texts(value),
        _ => add_scalar_part(reader, name, value, object),
    }
}

fn add_scalar_part(reader: &mut Reader, name: &str, value: &Json, object: &mut SchemaObject) {
    match name {
        "type" => object.instance_type = Some(read_types(reader, value)),
        "format" => object.format = Some(reader.text(value)),
        "enum" => object.enum_values = Some(read_values(reader, value)),
        "const" => object.const_value = Some(reader.copy_json(value)),
        "$ref" => object.reference = Some(reader.text(value)),
        _ => annotate(reader, name, value, object),
    }
}

fn annotate(reader: &mut Reader, name: &str, value: &Json, object: &mut SchemaObject) {
    match name {
        "title" => object.title = Some(reader.text(value)),
        "description" => object.description = Some(reader.text(value)),
        "default" => object.default = Some(reader.copy_json(value)),
        "deprecated" => object.deprecated = read_truth(reader, value),
        "readOnly" => object.read_only = read_truth(reader, value),
        "writeOnly" => object.write_only = read_truth(reader, value),
        "nullable" => object.nullable = read_truth(reader, value),
        _ => {
            let extension = Member {
                name: reader.text_from(name),
                value: reader.copy_json(value),
            };
            reader.push(&mut object.extensions, extension);
        }
    }
}

fn read_number(reader: &mut Reader, noted: &Json) -> i128 {
    reader.or(number_of(noted), 0)
}

fn read_truth(reader: &mut Reader, noted: &Json) -> bool {
    reader.or(truth_of(noted), false)
}

fn read_count(reader: &mut Reader, noted: &Json) -> u32 {
    reader.or(count_of(noted), 0)
}

fn read_values(reader: &mut Reader, noted: &Json) -> List<Json> {
    let mut values = List::new(reader.alloc());
    for value in reader.items(noted) {
        let value = reader.copy_json(value);
        reader.push(&mut values, value);
    }
    values
}

fn read_types(reader: &mut Reader, noted: &Json) -> InstanceTypes {
    match noted {
        Json::List(names) => InstanceTypes::Several(read_all_types(reader, names.as_slice())),
        name => InstanceTypes::Single(read_type(reader, name)),
    }
}

fn read_all_types(reader: &mut Reader, names: &[Json]) -> List<InstanceType> {
    let mut types = List::new(reader.alloc());
    for name in names {
        let kind = read_type(reader, name);
        reader.push(&mut types, kind);
    }
    types
}

fn read_type(reader: &mut Reader, name: &Json) -> InstanceType {
    reader.or(type_of(name), InstanceType::Null)
}

const TYPES: [(&str, InstanceType); 7] = [
    ("null", InstanceType::Null),
    ("boolean", InstanceType::Boolean),
    ("object", InstanceType::Object),
    ("array", InstanceType::Array),
    ("number", InstanceType::Number),
    ("string", InstanceType::String),
    ("integer", InstanceType::Integer),
];

fn type_of(noted: &Json) -> Result<InstanceType, CaseError> {
    let word = text_of(noted)?;
    for (name, kind) in &TYPES {
        if word.equals_str(name) {
            return Ok(*kind);
        }
    }
    Err(CaseError::Expected("a type"))
}

/// Types as they are noted, or null where there is none.
pub fn types_told(alloc: Global, types: &Option<InstanceTypes>) -> Result<Json, CaseError> {
    match types {
        None => Ok(Json::Null),
        Some(InstanceTypes::Single(kind)) => type_told(alloc, *kind),
        Some(InstanceTypes::Several(kinds)) => all_told(alloc, kinds.as_slice()),
    }
}

fn all_told(alloc: Global, kinds: &[InstanceType]) -> Result<Json, CaseError> {
    let mut words = Row::new(alloc);
    for kind in kinds {
        words.push(type_told(alloc, *kind));
    }
    words.done()
}

fn type_told(alloc: Global, kind: InstanceType) -> Result<Json, CaseError> {
    for (name, other) in &TYPES {
        if *other == kind {
            return say(alloc, name);
        }
    }
    Ok(Json::Null)
}
