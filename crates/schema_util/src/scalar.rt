//! Which schemas are those of scalar values, of texts, and of lists of texts.

ghost use Rattle.std.specs.Prelude.{◌≡◌, [], Some, None, IfErr, OnOk};
ghost use Rattle.std.specs.HashMap.{get_by_text};
ghost use Rattle.std.specs.Option.{option_copied};
ghost use Rattle.schema_values.specs.declared.schema.ArrayParts.{out-ArrayParts};
ghost use Rattle.schema_util.specs.Code.{asked_of, finding_value};
ghost use Rattle.schema_util.specs.Forms.{kind_of};
ghost use Rattle.schema_util.specs.Met.{names_met};
ghost use Rattle.schema_util.specs.Scalars.{fault_of, finding, finding_of_kind, is_wanted, item_of};
ghost use Rattle.schema_util.specs.Scalars.{mismatch, one_item, scalars, single_type, texts};
ghost use Rattle.schema_util.specs.Scalars.{FirstFault, FirstFaultAmong, FirstFaultOfList};

use crate::form::{Form, Kind};
use crate::met::Met;
use crate::references::{ResolveError, follow, resolve};
use schema_values::{
    ArrayParts, Definitions, InstanceType, InstanceTypes, Items, Schema, SchemaObject, Subschemas,
};
use thiserror::Error;

/// Why a schema is not what is asked for: the first cause, from left to right, inner schemas where they
/// stand.
#[derive(Clone, Copy, Debug, PartialEq, Eq, Error)]
pub enum ScalarError<'a> {
    /// A schema is not that of a scalar value.
    #[error("not of scalar values")]
    NotScalar,
    /// A schema is not that of texts.
    #[error("not of texts")]
    NotStringList,
    /// No definition has this name; the whole reference, where it has another form than
    /// `#/components/schemas/NAME`.
    #[error("no definition {0}")]
    Dangling(&'a str),
    /// This name comes again on the way along references, `all_of`, `any_of` and `one_of`.
    #[error("{0} comes again")]
    Cycle(&'a str),
}

/// What a type test asks for.
#[derive(Clone, Copy)]
enum Wanted {
    Scalar,
    Text,
}

impl Wanted {
    fn refusal<'a>(self) -> ScalarError<'a>
        ensures { fault_of result ≡ mismatch (asked_of self) }
    {
        match self {
            Wanted::Scalar => ScalarError::NotScalar,
            Wanted::Text => ScalarError::NotStringList,
        }
    }

    fn takes(self, kind: InstanceType) -> bool
        ensures { result ≡ is_wanted (asked_of self) kind }
    {
        match kind {
            InstanceType::String => true,
            InstanceType::Boolean | InstanceType::Number | InstanceType::Integer => {
                matches!(self, Wanted::Scalar)
            }
            InstanceType::Null | InstanceType::Object | InstanceType::Array => false,
        }
    }
}

/// What a test finds in a schema.
enum Finding<'a> {
    /// A reference: what it leads to is asked for.
    Reference(&'a str),
    /// Subschemas: each of them is asked for.
    Members(&'a [Schema]),
    /// A type that is wanted.
    Fits,
    /// Anything else.
    Differs,
}

/// Tests that a schema is that of scalar values. Accepts, behind references, a single type of truth values,
/// numbers, whole numbers or texts without subschemas, array, object and reference; and subschemas alone:
/// an `all_of` or an `any_of` of one, or a `one_of`, maybe of none, whose members are each accepted.
/// `NotScalar` of any other schema; `Dangling` as `resolve` has it; `Cycle` where a name comes again on one
/// way along references and subschemas. The first cause is told, depth first and from the left. Takes no
/// memory.
///
/// A definition is tested anew at each reference to it, so the time may be exponential in the number of
/// definitions where they share others.
pub fn type_is_scalar<'a>(
    schema: &'a Schema,
    definitions: &'a Definitions,
) -> Result<(), ScalarError<'a>>
    ensures scalar { OnOk result (FirstFault scalars (get_by_text definitions.now) [] schema.now None) }
    ensures refused { IfErr result
        (λ error. FirstFault scalars (get_by_text definitions.now) [] schema.now (Some (fault_of error))) }
{
    tested(Wanted::Scalar, schema, definitions, None)
}

/// Tests that a schema is that of texts. Accepts, behind references, the single type of texts without
/// subschemas, array, object and reference; and subschemas alone, as `type_is_scalar` does, whose members
/// are each accepted here. `NotStringList` of any other schema; `Dangling` and `Cycle` as `type_is_scalar`
/// has them, and the first cause is told as there. Takes no memory, and as much time as `type_is_scalar`.
pub fn type_is_string<'a>(
    schema: &'a Schema,
    definitions: &'a Definitions,
) -> Result<(), ScalarError<'a>>
    ensures text { OnOk result (FirstFault texts (get_by_text definitions.now) [] schema.now None) }
    ensures refused { IfErr result
        (λ error. FirstFault texts (get_by_text definitions.now) [] schema.now (Some (fault_of error))) }
{
    tested(Wanted::Text, schema, definitions, None)
}

/// Tests that a schema is that of lists of texts. Accepts, behind references, a schema whose only parts are
/// the single type of arrays and an array with one schema of its items, which `type_is_string` accepts: on
/// a way of its own, so that a name on the way to the list may come again behind it. `NotStringList` of any
/// other schema; `Dangling` and `Cycle` as `resolve` has them on the way to the list, and behind it as
/// `type_is_string` does. Takes no memory, and as much time as `type_is_scalar`.
pub fn type_is_string_enum<'a>(
    schema: &'a Schema,
    definitions: &'a Definitions,
) -> Result<(), ScalarError<'a>>
    ensures list { OnOk result (FirstFaultOfList (get_by_text definitions.now) schema.now None) }
    ensures refused { IfErr result
        (λ error. FirstFaultOfList (get_by_text definitions.now) schema.now (Some (fault_of error))) }
{
    match items_of(resolve(schema, definitions)?) {
        Some(item) => type_is_string(item, definitions),
        None => Err(ScalarError::NotStringList),
    }
}

impl<'a> From<ResolveError<'a>> for ScalarError<'a> {
    ghost use Rattle.std.specs.Prelude.{◌≡◌};
    ghost use Rattle.schema_util.specs.References.{reason_of};
    ghost use Rattle.schema_util.specs.Scalars.{unresolved, fault_of};

    ghost from_gives = { λ error made. fault_of made ≡ unresolved (reason_of error) };

    fn from(error: ResolveError<'a>) -> ScalarError<'a> {
        match error {
            ResolveError::Dangling(name) => ScalarError::Dangling(name),
            ResolveError::Cycle(name) => ScalarError::Cycle(name),
        }
    }
}

/// Tests a schema behind the names that were met.
#[cycle(tested)]
fn tested<'a>(
    wanted: Wanted,
    schema: &'a Schema,
    definitions: &'a Definitions,
    met: Option<&Met<'_>>,
) -> Result<(), ScalarError<'a>>
    ensures fits { OnOk result
        (FirstFault (asked_of wanted) (get_by_text definitions.now) (names_met met.entry) schema.now None) }
    ensures faulty { IfErr result (λ error. FirstFault (asked_of wanted)
        (get_by_text definitions.now) (names_met met.entry) schema.now (Some (fault_of error))) }
{
    match look_into(wanted, schema) {
        Finding::Reference(reference) => {
            let (name, next) = follow(reference, definitions, met)?;
            tested(wanted, next, definitions, Some(&Met { name, before: met }))
        }
        Finding::Members(members) => all_tested(wanted, members, definitions, met),
        Finding::Fits => Ok(()),
        Finding::Differs => Err(wanted.refusal()),
    }
}

#[cycle(tested)]
fn all_tested<'a>(
    wanted: Wanted,
    members: &'a [Schema],
    definitions: &'a Definitions,
    met: Option<&Met<'_>>,
) -> Result<(), ScalarError<'a>>
    ensures fit { OnOk result (FirstFaultAmong (asked_of wanted)
        (get_by_text definitions.now) (names_met met.entry) members.now None) }
    ensures faulty { IfErr result (λ error. FirstFaultAmong (asked_of wanted)
        (get_by_text definitions.now) (names_met met.entry) members.now (Some (fault_of error))) }
{
    for member in members {
        tested(wanted, member, definitions, met)?;
    }
    Ok(())
}

fn look_into(wanted: Wanted, schema: &Schema) -> Finding<'_>
    ensures { finding_value result ≡ finding (asked_of wanted) schema.now }
{
    let Schema::Object(object) = schema else {
        return Finding::Differs;
    };
    match Form::of(object.get()) {
        Form::Reference(reference) => Finding::Reference(reference.as_str()),
        Form::Combination(subschemas) => members_of(subschemas),
        _ => match single_type(object.get()) {
            Some(kind) if wanted.takes(kind) => Finding::Fits,
            _ => Finding::Differs,
        },
    }
}

/// The members of an `all_of` or an `any_of` of one, or of a `one_of`.
fn members_of(subschemas: &Subschemas) -> Finding<'_>
    ensures { finding_value result ≡ finding_of_kind (kind_of subschemas.now) }
{
    match Kind::of(subschemas) {
        Kind::AllOf(schemas) | Kind::AnyOf(schemas) if schemas.len() == 1 => {
            Finding::Members(schemas.as_slice())
        }
        Kind::OneOf(schemas) => Finding::Members(schemas.as_slice()),
        _ => Finding::Differs,
    }
}

/// The single type of a schema that has neither subschemas, array, object nor reference.
fn single_type(object: &SchemaObject) -> Option<InstanceType>
    ensures { result ≡ single_type object.now }
{
    match object {
        SchemaObject {
            instance_type: Some(InstanceTypes::Single(kind)),
            subschemas: None,
            array: None,
            object: None,
            reference: None,
            ..
        } => Some(*kind),
        _ => None,
    }
}

/// The schema of the items of a list, where its type and its array are its only parts.
fn items_of(schema: &Schema) -> Option<&Schema>
    ensures { option_copied result ≡ item_of schema.now }
{
    let Schema::Object(object) = schema else {
        return None;
    };
    match object.get() {
        SchemaObject {
            instance_type: Some(InstanceTypes::Single(InstanceType::Array)),
            format: None,
            enum_values: None,
            const_value: None,
            subschemas: None,
            number: None,
            string: None,
            array: Some(array),
            object: None,
            reference: None,
            ..
        } => one_item(array),
        _ => None,
    }
}

/// The one schema of all items.
fn one_item(array: &ArrayParts) -> Option<&Schema>
    ensures { option_copied result ≡ one_item (out-ArrayParts array.now).items }
{
    match &array.items {
        Some(Items::One(item)) => Some(item),
        _ => None,
    }
}
