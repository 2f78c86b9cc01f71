ghost use Rattle.std.specs.Prelude.{◌≡◌, IfOk};
ghost use Rattle.schema_values.specs.declared.schema.SchemaObject.{out-SchemaObject};

use crate::boxed::Boxed;
use crate::leaf_copy::{Leaves, copy_leaves, copy_texts};
use crate::list::List;
use crate::schema::{ArrayParts, Items, ObjectParts, Property, Schema, SchemaObject, Subschemas};
use std::alloc::{AllocError, Global};

impl Schema {
    /// A schema equal to this one.
    #[cycle(schema_copy)]
    pub fn copy(&self, alloc: Global) -> Result<Schema, AllocError>
        ensures { IfOk result (λ copy. copy ≡ self.now) }
    {
        match self {
            Schema::Bool(truth) => Ok(Schema::Bool(*truth)),
            Schema::Object(object) => {
                let object = object.get().copy(alloc)?;
                Ok(Schema::Object(Boxed::new(alloc, object)?))
            }
        }
    }
}

impl SchemaObject {
    /// Parts equal to these.
    #[cycle(schema_copy)]
    pub fn copy(&self, alloc: Global) -> Result<SchemaObject, AllocError>
        ensures { IfOk result (λ copy. copy ≡ self.now) }
    {
        let nested = copy_nested_parts(alloc, self)?;
        copy_around(alloc, self, nested)
    }
}

// The copy of a schema object, from the copies of its parts that have schemas within them. These come in a
// box, so that one small value is dropped where the others are not copied.
fn copy_around(
    alloc: Global,
    object: &SchemaObject,
    nested: Boxed<NestedParts>,
) -> Result<SchemaObject, AllocError>
    requires array { nested.array ≡ (out-SchemaObject object.now).array }
    requires object { nested.object ≡ (out-SchemaObject object.now).object }
    requires subschemas { nested.subschemas ≡ (out-SchemaObject object.now).subschemas }
    ensures { IfOk result (λ copy. copy ≡ object.now) }
{
    let Leaves {
        reference,
        annotations,
        values,
    } = copy_leaves(alloc, object)?;
    let nested = nested.into_inner();
    Ok(SchemaObject {
        title: annotations.title,
        description: annotations.description,
        default: annotations.default,
        deprecated: object.deprecated,
        read_only: object.read_only,
        write_only: object.write_only,
        nullable: object.nullable,
        instance_type: values.instance_type,
        format: values.format,
        enum_values: values.enum_values,
        const_value: values.const_value,
        subschemas: nested.subschemas,
        number: values.number,
        string: values.string,
        array: nested.array,
        object: nested.object,
        reference,
        extensions: annotations.extensions,
    })
}

// The parts of a schema object that have schemas within them.
#[derive(Drop)]
struct NestedParts {
    array: Option<ArrayParts>,
    object: Option<ObjectParts>,
    subschemas: Option<Subschemas>,
}

#[cycle(schema_copy)]
fn copy_nested_parts(alloc: Global, object: &SchemaObject) -> Result<Boxed<NestedParts>, AllocError>
    ensures array { IfOk result (λ copy. copy.array ≡ (out-SchemaObject object.now).array) }
    ensures object { IfOk result (λ copy. copy.object ≡ (out-SchemaObject object.now).object) }
    ensures subschemas { IfOk result (λ copy. copy.subschemas
        ≡ (out-SchemaObject object.now).subschemas) }
{
    let nested = NestedParts {
        array: copy_array(alloc, &object.array)?,
        object: copy_object(alloc, &object.object)?,
        subschemas: copy_subschemas(alloc, &object.subschemas)?,
    };
    Boxed::new(alloc, nested)
}

impl Subschemas {
    /// Schemas equal to these.
    #[cycle(schema_copy)]
    pub fn copy(&self, alloc: Global) -> Result<Subschemas, AllocError>
        ensures { IfOk result (λ copy. copy ≡ self.now) }
    {
        Ok(Subschemas {
            all_of: copy_schemas(alloc, &self.all_of)?,
            any_of: copy_schemas(alloc, &self.any_of)?,
            one_of: copy_schemas(alloc, &self.one_of)?,
            not: copy_schema(alloc, &self.not)?,
        })
    }
}

impl ArrayParts {
    /// Parts equal to these.
    #[cycle(schema_copy)]
    pub fn copy(&self, alloc: Global) -> Result<ArrayParts, AllocError>
        ensures { IfOk result (λ copy. copy ≡ self.now) }
    {
        Ok(ArrayParts {
            items: copy_items(alloc, &self.items)?,
            min: self.min,
            max: self.max,
        })
    }
}

impl Items {
    /// Items equal to these.
    #[cycle(schema_copy)]
    pub fn copy(&self, alloc: Global) -> Result<Items, AllocError>
        ensures { IfOk result (λ copy. copy ≡ self.now) }
    {
        match self {
            Items::One(schema) => Ok(Items::One(schema.copy(alloc)?)),
            Items::Tuple(schemas) => Ok(Items::Tuple(copy_list(alloc, schemas.as_slice())?)),
        }
    }
}

impl ObjectParts {
    /// Parts equal to these.
    #[cycle(schema_copy)]
    pub fn copy(&self, alloc: Global) -> Result<ObjectParts, AllocError>
        ensures { IfOk result (λ copy. copy ≡ self.now) }
    {
        Ok(ObjectParts {
            properties: copy_properties(alloc, self.properties.as_slice())?,
            required: copy_texts(alloc, self.required.as_slice())?,
            additional: copy_schema(alloc, &self.additional)?,
            min: self.min,
            max: self.max,
        })
    }
}

impl Property {
    /// A property equal to this one.
    #[cycle(schema_copy)]
    pub fn copy(&self, alloc: Global) -> Result<Property, AllocError>
        ensures { IfOk result (λ copy. copy ≡ self.now) }
    {
        Ok(Property {
            name: self.name.copy(alloc)?,
            schema: self.schema.copy(alloc)?,
        })
    }
}

#[cycle(schema_copy)]
fn copy_subschemas(
    alloc: Global,
    subschemas: &Option<Subschemas>,
) -> Result<Option<Subschemas>, AllocError>
    ensures { IfOk result (λ copy. copy ≡ subschemas.now) }
{
    match subschemas {
        None => Ok(None),
        Some(subschemas) => Ok(Some(subschemas.copy(alloc)?)),
    }
}

#[cycle(schema_copy)]
fn copy_array(alloc: Global, array: &Option<ArrayParts>) -> Result<Option<ArrayParts>, AllocError>
    ensures { IfOk result (λ copy. copy ≡ array.now) }
{
    match array {
        None => Ok(None),
        Some(array) => Ok(Some(array.copy(alloc)?)),
    }
}

#[cycle(schema_copy)]
fn copy_object(
    alloc: Global,
    object: &Option<ObjectParts>,
) -> Result<Option<ObjectParts>, AllocError>
    ensures { IfOk result (λ copy. copy ≡ object.now) }
{
    match object {
        None => Ok(None),
        Some(object) => Ok(Some(object.copy(alloc)?)),
    }
}

#[cycle(schema_copy)]
fn copy_items(alloc: Global, items: &Option<Items>) -> Result<Option<Items>, AllocError>
    ensures { IfOk result (λ copy. copy ≡ items.now) }
{
    match items {
        None => Ok(None),
        Some(items) => Ok(Some(items.copy(alloc)?)),
    }
}

#[cycle(schema_copy)]
fn copy_schema(alloc: Global, schema: &Option<Schema>) -> Result<Option<Schema>, AllocError>
    ensures { IfOk result (λ copy. copy ≡ schema.now) }
{
    match schema {
        None => Ok(None),
        Some(schema) => Ok(Some(schema.copy(alloc)?)),
    }
}

#[cycle(schema_copy)]
fn copy_schemas(
    alloc: Global,
    schemas: &Option<List<Schema>>,
) -> Result<Option<List<Schema>>, AllocError>
    ensures { IfOk result (λ copy. copy ≡ schemas.now) }
{
    match schemas {
        None => Ok(None),
        Some(schemas) => Ok(Some(copy_list(alloc, schemas.as_slice())?)),
    }
}

#[cycle(schema_copy)]
fn copy_list(alloc: Global, schemas: &[Schema]) -> Result<List<Schema>, AllocError>
    ensures { IfOk result (λ copies. copies ≡ schemas.now) }
{
    let mut copies = List::new(alloc);
    for schema in schemas {
        copies.push(schema.copy(alloc)?)?;
    }
    Ok(copies)
}

#[cycle(schema_copy)]
fn copy_properties(alloc: Global, properties: &[Property]) -> Result<List<Property>, AllocError>
    ensures { IfOk result (λ copies. copies ≡ properties.now) }
{
    let mut copies = List::new(alloc);
    for property in properties {
        copies.push(property.copy(alloc)?)?;
    }
    Ok(copies)
}
