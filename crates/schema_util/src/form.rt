//! What a schema object has beside its annotations, as far as this crate asks.

ghost use Rattle.std.specs.Prelude.{◌≡◌};
ghost use Rattle.schema_util.specs.Code.{form_value, kind_value};
ghost use Rattle.schema_util.specs.Forms.{form_of, is_limited, kind_of};

use schema_values::{InstanceTypes, List, ObjectParts, Schema, SchemaObject, Subschemas, Text};

/// The parts of a schema object. Annotations (title, description, default, the truth values and extensions)
/// are no parts.
#[derive(Clone, Copy)]
pub(crate) enum Form<'a> {
    /// No part.
    Bare,
    /// A reference alone.
    Reference(&'a Text),
    /// Subschemas alone.
    Combination(&'a Subschemas),
    /// A single type, perhaps with an object and with subschemas, and nothing else.
    Struct(Option<&'a ObjectParts>, Option<&'a Subschemas>),
    /// Values, perhaps with types, and nothing else.
    Values,
    /// Any other parts.
    Other,
}

/// The kind of subschemas, where only one is given.
#[derive(Clone, Copy)]
pub(crate) enum Kind<'a> {
    AllOf(&'a List<Schema>),
    AnyOf(&'a List<Schema>),
    OneOf(&'a List<Schema>),
    Not(&'a Schema),
    /// None, or several.
    Other,
}

impl<'a> Form<'a> {
    pub(crate) fn of(object: &'a SchemaObject) -> Form<'a>
        ensures { form_value result ≡ form_of object.now }
    {
        if is_limited(object) {
            return Form::Other;
        }
        match (
            &object.instance_type,
            &object.enum_values,
            &object.subschemas,
            &object.object,
            &object.reference,
        ) {
            (None, None, None, None, None) => Form::Bare,
            (None, None, None, None, Some(reference)) => Form::Reference(reference),
            (None, None, Some(subschemas), None, None) => Form::Combination(subschemas),
            (Some(InstanceTypes::Single(_)), None, subschemas, object, None) => {
                Form::Struct(object.as_ref(), subschemas.as_ref())
            }
            (_, Some(_), None, None, None) => Form::Values,
            _ => Form::Other,
        }
    }
}

/// Whether a schema has a format, a constant, bounds or an array.
fn is_limited(object: &SchemaObject) -> bool
    ensures { result ≡ is_limited object.now }
{
    object.format.is_some()
        || object.const_value.is_some()
        || object.number.is_some()
        || object.string.is_some()
        || object.array.is_some()
}

impl<'a> Kind<'a> {
    pub(crate) fn of(subschemas: &'a Subschemas) -> Kind<'a>
        ensures { kind_value result ≡ kind_of subschemas.now }
    {
        match subschemas {
            Subschemas {
                all_of: Some(schemas),
                any_of: None,
                one_of: None,
                not: None,
            } => Kind::AllOf(schemas),
            Subschemas {
                all_of: None,
                any_of: Some(schemas),
                one_of: None,
                not: None,
            } => Kind::AnyOf(schemas),
            Subschemas {
                all_of: None,
                any_of: None,
                one_of: Some(schemas),
                not: None,
            } => Kind::OneOf(schemas),
            Subschemas {
                all_of: None,
                any_of: None,
                one_of: None,
                not: Some(schema),
            } => Kind::Not(schema),
            _ => Kind::Other,
        }
    }
}
