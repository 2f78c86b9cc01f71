ghost use Rattle.std.specs.Prelude.{◌≡◌};
ghost use Rattle.schema_values.specs.declared.schema.SchemaObject.{out-SchemaObject};
ghost use Rattle.schema_values.specs.Parts.{no_parts};

use crate::boxed::Boxed;
use crate::json_value::{Json, Member};
use crate::list::List;
use crate::text::Text;
use indexmap::IndexMap;
use std::alloc::Global;

/// Schemas by name, in the order in which they came. A reference means one of them.
pub type Definitions = IndexMap<String, Schema>;

/// A schema of JSON values.
#[derive(Drop)]
#[cycle(schema)]
pub enum Schema {
    /// Every value where true, none where false.
    Bool(bool),
    /// The values that meet every part.
    Object(Boxed<SchemaObject>),
}

/// The parts of a schema, each of which may be absent. Beside a reference `typed_values` writes no other
/// part.
#[derive(Drop)]
#[cycle(schema)]
pub struct SchemaObject {
    /// An annotation.
    pub title: Option<Text>,
    /// An annotation.
    pub description: Option<Text>,
    /// The value that stands for an absent one. An annotation: it admits nothing and refuses nothing.
    pub default: Option<Json>,
    /// An annotation: the value is still taken, and may be gone later.
    pub deprecated: bool,
    /// An annotation: the value stands in responses alone.
    pub read_only: bool,
    /// An annotation: the value stands in requests alone.
    pub write_only: bool,
    /// Whether null is a value too, whatever the instance type.
    pub nullable: bool,
    /// The types that the value may have. Any type where it is absent.
    pub instance_type: Option<InstanceTypes>,
    /// The format's name, as `int64`.
    pub format: Option<Text>,
    /// The only values, where they are given.
    pub enum_values: Option<List<Json>>,
    /// The only value, where it is given. OpenAPI 3.0.3 has no such part.
    pub const_value: Option<Json>,
    /// Schemas of the same value.
    pub subschemas: Option<Subschemas>,
    /// The bounds of a value that is a number.
    pub number: Option<NumberBounds>,
    /// The length of a value that is a text.
    pub string: Option<LengthBounds>,
    /// The items of a value that is an array.
    pub array: Option<ArrayParts>,
    /// The members of a value that is an object.
    pub object: Option<ObjectParts>,
    /// The reference, as `#/components/schemas/NAME`.
    pub reference: Option<Text>,
    /// Annotations of other names. Of them, `example` and those whose names begin with `x-` are written
    /// (OpenAPI 3.0.3, Schema Object and Specification Extensions).
    pub extensions: List<Member>,
}

impl SchemaObject {
    /// A schema without any part, which every value meets.
    pub fn new(alloc: Global) -> SchemaObject
        ensures { out-SchemaObject result ≡ no_parts }
    {
        SchemaObject {
            title: None,
            description: None,
            default: None,
            deprecated: false,
            read_only: false,
            write_only: false,
            nullable: false,
            instance_type: None,
            format: None,
            enum_values: None,
            const_value: None,
            subschemas: None,
            number: None,
            string: None,
            array: None,
            object: None,
            reference: None,
            extensions: List::new(alloc),
        }
    }
}

/// The types that a value may have.
#[derive(Drop)]
pub enum InstanceTypes {
    /// This type alone.
    Single(InstanceType),
    /// Any of these. OpenAPI 3.0.3 has no such part.
    Several(List<InstanceType>),
}

/// A type of JSON values.
#[derive(Clone, Copy, Debug, PartialEq, Eq)]
pub enum InstanceType {
    /// The type of null alone. OpenAPI 3.0.3 has no such type.
    Null,
    /// The type of truth values.
    Boolean,
    /// The type of objects.
    Object,
    /// The type of lists.
    Array,
    /// The type of all numbers, whole or not.
    Number,
    /// The type of texts.
    String,
    /// The type of whole numbers.
    Integer,
}

/// Schemas of the same value.
#[derive(Drop)]
#[cycle(schema)]
pub struct Subschemas {
    /// The value meets each of them.
    pub all_of: Option<List<Schema>>,
    /// The value meets one of them at least.
    pub any_of: Option<List<Schema>>,
    /// The value meets exactly one of them.
    pub one_of: Option<List<Schema>>,
    /// The value does not meet it.
    pub not: Option<Schema>,
}

/// The bounds of a number. `j2oas_schema` refuses a bound that stands in both its forms.
#[derive(Drop)]
pub struct NumberBounds {
    /// The least number.
    pub minimum: Option<i128>,
    /// Each value is above it.
    pub exclusive_minimum: Option<i128>,
    /// The greatest number.
    pub maximum: Option<i128>,
    /// Each value is below it.
    pub exclusive_maximum: Option<i128>,
}

/// The length of a text, in characters.
#[derive(Drop)]
pub struct LengthBounds {
    /// The least number of characters.
    pub min: Option<u32>,
    /// The greatest number of characters.
    pub max: Option<u32>,
}

/// The items of an array.
#[derive(Drop)]
#[cycle(schema)]
pub struct ArrayParts {
    /// What each item is. Any value where it is absent.
    pub items: Option<Items>,
    /// The least number of items.
    pub min: Option<u32>,
    /// The greatest number of items.
    pub max: Option<u32>,
}

/// The schema of the items of an array.
#[derive(Drop)]
#[cycle(schema)]
pub enum Items {
    /// One schema for each item.
    One(Schema),
    /// A schema for the item at each place. OpenAPI 3.0.3 has no such part.
    Tuple(List<Schema>),
}

/// The members of an object. Properties and required names are written in the order in which they stand;
/// `typed_values` puts them in ascending order.
#[derive(Drop)]
#[cycle(schema)]
pub struct ObjectParts {
    /// The members that are named, with their schemas.
    pub properties: List<Property>,
    /// The names of the members that must stand.
    pub required: List<Text>,
    /// The schema of the members that are no properties. Any value where it is absent.
    pub additional: Option<Schema>,
    /// The least number of members.
    pub min: Option<u32>,
    /// The greatest number of members.
    pub max: Option<u32>,
}

/// A named member of an object, and its schema.
#[derive(Drop)]
#[cycle(schema)]
pub struct Property {
    /// The member's name.
    pub name: Text,
    /// The schema of its values.
    pub schema: Schema,
}
