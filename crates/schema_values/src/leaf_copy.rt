//! Copies of the parts of a schema that have no schema within them.

ghost use Rattle.std.specs.Prelude.{◌≡◌, IfOk, IsOk, None, Ok};
ghost use Rattle.schema_values.specs.declared.schema.SchemaObject.{out-SchemaObject};

use crate::copy::copy_members;
use crate::json_value::{Json, Member};
use crate::list::List;
use crate::schema::{InstanceType, InstanceTypes, LengthBounds, NumberBounds, SchemaObject};
use crate::text::Text;
use std::alloc::{AllocError, Global};

// The parts of a schema object that have no schema within them, but for those that are truth values.
#[derive(Drop)]
pub(crate) struct Leaves {
    pub reference: Option<Text>,
    pub annotations: Annotations,
    pub values: ValueParts,
}

pub(crate) fn copy_leaves(alloc: Global, object: &SchemaObject) -> Result<Leaves, AllocError>
    ensures reference { IfOk result (λ copy. copy.reference ≡ (out-SchemaObject object.now).reference) }
    ensures title { IfOk result (λ copy. copy.annotations.title
        ≡ (out-SchemaObject object.now).title) }
    ensures description { IfOk result (λ copy. copy.annotations.description
        ≡ (out-SchemaObject object.now).description) }
    ensures default { IfOk result (λ copy. copy.annotations.default
        ≡ (out-SchemaObject object.now).default) }
    ensures extensions { IfOk result (λ copy. copy.annotations.extensions
        ≡ (out-SchemaObject object.now).extensions) }
    ensures instance_type { IfOk result (λ copy. copy.values.instance_type
        ≡ (out-SchemaObject object.now).instance_type) }
    ensures format { IfOk result (λ copy. copy.values.format
        ≡ (out-SchemaObject object.now).format) }
    ensures enum_values { IfOk result (λ copy. copy.values.enum_values
        ≡ (out-SchemaObject object.now).enum_values) }
    ensures const_value { IfOk result (λ copy. copy.values.const_value
        ≡ (out-SchemaObject object.now).const_value) }
    ensures number { IfOk result (λ copy. copy.values.number
        ≡ (out-SchemaObject object.now).number) }
    ensures string { IfOk result (λ copy. copy.values.string
        ≡ (out-SchemaObject object.now).string) }
{
    Ok(Leaves {
        reference: copy_text(alloc, &object.reference)?,
        annotations: copy_annotations(alloc, object)?,
        values: copy_value_parts(alloc, object)?,
    })
}

// The parts of a schema object that are annotations, but for those that are truth values.
#[derive(Drop)]
pub(crate) struct Annotations {
    pub title: Option<Text>,
    pub description: Option<Text>,
    pub default: Option<Json>,
    pub extensions: List<Member>,
}

fn copy_annotations(alloc: Global, object: &SchemaObject) -> Result<Annotations, AllocError>
    ensures title { IfOk result (λ copy. copy.title ≡ (out-SchemaObject object.now).title) }
    ensures description { IfOk result (λ copy. copy.description
        ≡ (out-SchemaObject object.now).description) }
    ensures default { IfOk result (λ copy. copy.default ≡ (out-SchemaObject object.now).default) }
    ensures extensions { IfOk result (λ copy. copy.extensions
        ≡ (out-SchemaObject object.now).extensions) }
{
    Ok(Annotations {
        title: copy_text(alloc, &object.title)?,
        description: copy_text(alloc, &object.description)?,
        extensions: copy_members(alloc, object.extensions.as_slice())?,
        default: copy_value(alloc, &object.default)?,
    })
}

// The parts of a schema object that say which scalars are meant.
#[derive(Drop)]
pub(crate) struct ValueParts {
    pub instance_type: Option<InstanceTypes>,
    pub format: Option<Text>,
    pub enum_values: Option<List<Json>>,
    pub const_value: Option<Json>,
    pub number: Option<NumberBounds>,
    pub string: Option<LengthBounds>,
}

fn copy_value_parts(alloc: Global, object: &SchemaObject) -> Result<ValueParts, AllocError>
    ensures instance_type { IfOk result (λ copy. copy.instance_type
        ≡ (out-SchemaObject object.now).instance_type) }
    ensures format { IfOk result (λ copy. copy.format ≡ (out-SchemaObject object.now).format) }
    ensures enum_values { IfOk result (λ copy. copy.enum_values
        ≡ (out-SchemaObject object.now).enum_values) }
    ensures const_value { IfOk result (λ copy. copy.const_value
        ≡ (out-SchemaObject object.now).const_value) }
    ensures number { IfOk result (λ copy. copy.number ≡ (out-SchemaObject object.now).number) }
    ensures string { IfOk result (λ copy. copy.string ≡ (out-SchemaObject object.now).string) }
{
    Ok(ValueParts {
        instance_type: copy_types(alloc, &object.instance_type)?,
        format: copy_text(alloc, &object.format)?,
        enum_values: copy_values(alloc, &object.enum_values)?,
        const_value: copy_value(alloc, &object.const_value)?,
        number: numbers_of(&object.number),
        string: lengths_of(&object.string),
    })
}

impl InstanceTypes {
    /// Types equal to these.
    pub fn copy(&self, alloc: Global) -> Result<InstanceTypes, AllocError>
        ensures { IfOk result (λ copy. copy ≡ self.now) }
    {
        match self {
            InstanceTypes::Single(single) => Ok(InstanceTypes::Single(*single)),
            InstanceTypes::Several(several) => {
                Ok(InstanceTypes::Several(copy_kinds(alloc, several.as_slice())?))
            }
        }
    }
}

impl NumberBounds {
    /// Bounds equal to these. Takes no memory, and always succeeds.
    pub fn copy(&self, _alloc: Global) -> Result<NumberBounds, AllocError>
        ensures copy { IfOk result (λ copy. copy ≡ self.now) }
        ensures always { result ≡ Ok self.now }
    {
        Ok(self.same())
    }

    fn same(&self) -> NumberBounds
        ensures { result ≡ self.now }
    {
        NumberBounds {
            minimum: self.minimum,
            exclusive_minimum: self.exclusive_minimum,
            maximum: self.maximum,
            exclusive_maximum: self.exclusive_maximum,
        }
    }
}

impl LengthBounds {
    /// Bounds equal to these. Takes no memory, and always succeeds.
    pub fn copy(&self, _alloc: Global) -> Result<LengthBounds, AllocError>
        ensures copy { IfOk result (λ copy. copy ≡ self.now) }
        ensures always { result ≡ Ok self.now }
    {
        Ok(self.same())
    }

    fn same(&self) -> LengthBounds
        ensures { result ≡ self.now }
    {
        LengthBounds {
            min: self.min,
            max: self.max,
        }
    }
}

/// A text equal to another, where there is one. Where there is none, it takes no memory.
pub fn copy_text(alloc: Global, text: &Option<Text>) -> Result<Option<Text>, AllocError>
    ensures copy { IfOk result (λ copy. copy ≡ text.now) }
    ensures none { text.now ≡ None → IsOk result }
{
    match text {
        None => Ok(None),
        Some(text) => Ok(Some(text.copy(alloc)?)),
    }
}

pub(crate) fn copy_texts(alloc: Global, texts: &[Text]) -> Result<List<Text>, AllocError>
    ensures { IfOk result (λ copies. copies ≡ texts.now) }
{
    let mut copies = List::new(alloc);
    for text in texts {
        copies.push(text.copy(alloc)?)?;
    }
    Ok(copies)
}

fn copy_kinds(alloc: Global, kinds: &[InstanceType]) -> Result<List<InstanceType>, AllocError>
    ensures { IfOk result (λ copies. copies ≡ kinds.now) }
{
    let mut copies = List::new(alloc);
    for kind in kinds {
        copies.push(*kind)?;
    }
    Ok(copies)
}

fn copy_value(alloc: Global, value: &Option<Json>) -> Result<Option<Json>, AllocError>
    ensures { IfOk result (λ copy. copy ≡ value.now) }
{
    match value {
        None => Ok(None),
        Some(value) => Ok(Some(value.copy(alloc)?)),
    }
}

fn copy_values(alloc: Global, values: &Option<List<Json>>) -> Result<Option<List<Json>>, AllocError>
    ensures { IfOk result (λ copy. copy ≡ values.now) }
{
    match values {
        None => Ok(None),
        Some(values) => Ok(Some(values.copy(alloc)?)),
    }
}

fn copy_types(
    alloc: Global,
    types: &Option<InstanceTypes>,
) -> Result<Option<InstanceTypes>, AllocError>
    ensures { IfOk result (λ copy. copy ≡ types.now) }
{
    match types {
        None => Ok(None),
        Some(types) => Ok(Some(types.copy(alloc)?)),
    }
}

fn numbers_of(bounds: &Option<NumberBounds>) -> Option<NumberBounds>
    ensures { result ≡ bounds.now }
{
    match bounds {
        None => None,
        Some(bounds) => Some(bounds.same()),
    }
}

fn lengths_of(bounds: &Option<LengthBounds>) -> Option<LengthBounds>
    ensures { result ≡ bounds.now }
{
    match bounds {
        None => None,
        Some(bounds) => Some(bounds.same()),
    }
}
