//! The members of a struct.

ghost use Rattle.std.specs.Prelude.{◌≡◌, ◌++◌, [], map, Ok, Err, Some, IfErr, IfOk, IfSome, OnOk};
ghost use Rattle.std.specs.HashMap.{get_by_text};
ghost use Rattle.std.specs.Option.{option_copied};
ghost use Rattle.std.specs.Str.{encode_utf8_all};
ghost use Rattle.schema_values.specs.Order.{property_name, sorted_by};
ghost use Rattle.schema_values.specs.declared.schema.ObjectParts.{out-ObjectParts};
ghost use Rattle.schema_util.specs.Code.{HasGiven, HaveGiven, flattened_value};
ghost use Rattle.schema_util.specs.Forms.{kind_of};
ghost use Rattle.schema_util.specs.Met.{names_met};
ghost use Rattle.schema_util.specs.References.{reason_of};
ghost use Rattle.schema_util.specs.StructMembers.{flattened, flattened_of_kind, is_named};
ghost use Rattle.schema_util.specs.StructMembers.{member_of, misfit_of, own_members, Gives, GiveAll};
ghost use Rattle.schema_util.specs.StructMembers.{unresolved};

use crate::description::schema_extract_description;
use crate::form::{Form, Kind};
use crate::met::Met;
use crate::references::{ResolveError, follow};
use schema_values::{
    Definitions, List, ObjectParts, Property, Schema, Subschemas, Text, copy_text, in_order,
};
use std::alloc::{AllocError, Global};
use thiserror::Error;

/// A member of a struct.
#[derive(Drop)]
pub struct StructMember {
    /// Its name.
    pub name: Text,
    /// What is said of it.
    pub description: Option<Text>,
    /// The schema of its values, without the description.
    pub schema: Schema,
    /// Whether it is told to be required: where the argument and the struct's schema both say so, and never
    /// where it comes from `any_of`.
    pub required: bool,
}

impl StructMember {
    /// A member equal to this one.
    pub fn copy(&self, alloc: Global) -> Result<StructMember, AllocError>
        ensures { IfOk result (λ copy. copy ≡ self.now) }
    {
        Ok(StructMember {
            name: self.name.copy(alloc)?,
            description: copy_text(alloc, &self.description)?,
            schema: self.schema.copy(alloc)?,
            required: self.required,
        })
    }
}

/// Why a schema is that of no struct.
#[derive(Debug, Drop, Error)]
pub enum Schema2StructError {
    /// No definition has this name; the whole reference, where it has another form than
    /// `#/components/schemas/NAME`.
    #[error("no definition {0}")]
    Dangling(Text),
    /// This name comes again on the way along references, `any_of` and `all_of`.
    #[error("{0} comes again")]
    Cycle(Text),
    /// A struct has other subschemas than one `any_of` or an `all_of` of one.
    #[error("a struct with other subschemas than one anyOf or an allOf of one")]
    InvalidSubschema,
    /// The schema is that of an enumeration.
    #[error("an enumeration")]
    InvalidEnum,
    /// The schema is that of no object.
    #[error("no object")]
    InvalidType,
    /// There was not enough memory.
    #[error("out of memory")]
    OutOfMemory,
}

impl From<AllocError> for Schema2StructError {
    ghost use Rattle.std.specs.Prelude.{◌≡◌};
    ghost use Rattle.schema_util.specs.declared.struct_members.Schema2StructError.TheVariants.{OutOfMemory};

    ghost from_gives = { λ _ e. e ≡ OutOfMemory };

    fn from(_: AllocError) -> Schema2StructError {
        Schema2StructError::OutOfMemory
    }
}

impl Schema2StructError {
    /// An error equal to this one.
    pub fn copy(&self, alloc: Global) -> Result<Schema2StructError, AllocError>
        ensures { IfOk result (λ copy. copy ≡ self.now) }
    {
        match self {
            Schema2StructError::Dangling(name) => Ok(Schema2StructError::Dangling(name.copy(
                alloc,
            )?)),
            Schema2StructError::Cycle(name) => Ok(Schema2StructError::Cycle(name.copy(alloc)?)),
            Schema2StructError::InvalidSubschema => Ok(Schema2StructError::InvalidSubschema),
            Schema2StructError::InvalidEnum => Ok(Schema2StructError::InvalidEnum),
            Schema2StructError::InvalidType => Ok(Schema2StructError::InvalidType),
            Schema2StructError::OutOfMemory => Ok(Schema2StructError::OutOfMemory),
        }
    }

    fn of_reference(
        alloc: Global,
        error: ResolveError<'_>,
    ) -> Result<Schema2StructError, AllocError>
        ensures { IfOk result (λ made. misfit_of made ≡ Some (unresolved (reason_of error.entry))) }
    {
        match error {
            ResolveError::Dangling(name) => Ok(Schema2StructError::Dangling(text_of(alloc, name)?)),
            ResolveError::Cycle(name) => Ok(Schema2StructError::Cycle(text_of(alloc, name)?)),
        }
    }
}

fn text_of(alloc: Global, name: &str) -> Result<Text, AllocError>
    ensures { IfOk result (λ text. encode_utf8_all text ≡ name.now) }
{
    Text::from_str(alloc, name)
}

/// The members that a schema with a single type, and no part beside it but an object and subschemas, gives:
/// its properties in the order of their names, each without its description, required where `required` and
/// the schema both say so; then those of a lone `any_of`, none of them required, or of an `all_of` of one.
/// A reference gives those of its definition. `InvalidSubschema` where such a schema has other subschemas;
/// `InvalidEnum` where the parts of a schema are values, with or without types, or subschemas alone;
/// `InvalidType` where they are anything else. `Dangling` as `resolve` has it; `Cycle` where a name comes
/// again on one way along references, `any_of` and `all_of`. The first cause is told, depth first and from
/// the left.
///
/// A definition is looked into anew at each reference to it, so the time and the number of members may be
/// exponential in the number of definitions where they share others.
pub fn schema2struct(
    alloc: Global,
    schema: &Schema,
    definitions: &Definitions,
    required: bool,
) -> Result<List<StructMember>, Schema2StructError>
    ensures members { IfOk result
        (λ members. Gives (get_by_text definitions.now) [] required schema.now (Ok members)) }
    ensures refused { IfErr result (λ error. IfSome (misfit_of error) (λ why.
        Gives (get_by_text definitions.now) [] required schema.now (Err why))) }
{
    let mut members = List::new(alloc);
    add_struct(alloc, &mut members, schema, definitions, required, None)?;
    Ok(members)
}

/// Adds the members of a schema behind the names that were met.
#[cycle(add)]
fn add_struct(
    alloc: Global,
    members: &mut List<StructMember>,
    schema: &Schema,
    definitions: &Definitions,
    required: bool,
    met: Option<&Met<'_>>,
) -> Result<(), Schema2StructError>
    ensures added { OnOk result (HasGiven
        (get_by_text definitions.now) (names_met met.entry) required schema.now members.old members.new) }
    ensures refused { IfErr result (λ error. IfSome (misfit_of error) (λ why.
        Gives (get_by_text definitions.now) (names_met met.entry) required schema.now (Err why))) }
{
    let Schema::Object(object) = schema else {
        return Err(Schema2StructError::InvalidType);
    };
    match Form::of(object.get()) {
        Form::Reference(reference) => match follow(reference.as_str(), definitions, met) {
            Ok((name, next)) => {
                let met = Met { name, before: met };
                add_struct(alloc, members, next, definitions, required, Some(&met))
            }
            Err(error) => Err(Schema2StructError::of_reference(alloc, error)?),
        },
        Form::Struct(parts, subschemas) => {
            let Some((may_require, schemas)) = flattened(required, subschemas) else {
                return Err(Schema2StructError::InvalidSubschema);
            };
            add_properties(alloc, members, parts, required)?;
            add_each(alloc, members, schemas, definitions, may_require, met)
        }
        Form::Combination(_) | Form::Values => Err(Schema2StructError::InvalidEnum),
        Form::Bare | Form::Other => Err(Schema2StructError::InvalidType),
    }
}

#[cycle(add)]
fn add_each(
    alloc: Global,
    members: &mut List<StructMember>,
    schemas: &[Schema],
    definitions: &Definitions,
    required: bool,
    met: Option<&Met<'_>>,
) -> Result<(), Schema2StructError>
    ensures added { OnOk result (HaveGiven
        (get_by_text definitions.now) (names_met met.entry) required schemas.now members.old members.new) }
    ensures refused { IfErr result (λ error. IfSome (misfit_of error) (λ why.
        GiveAll (get_by_text definitions.now) (names_met met.entry) required schemas.now (Err why))) }
{
    for schema in schemas {
        add_struct(alloc, members, schema, definitions, required, met)?;
    }
    Ok(())
}

fn add_properties(
    alloc: Global,
    members: &mut List<StructMember>,
    parts: Option<&ObjectParts>,
    required: bool,
) -> Result<(), AllocError>
    ensures { OnOk result (members.new ≡ members.old ++ own_members required (option_copied parts.entry)) }
{
    match parts {
        Some(parts) => add_own(alloc, members, parts, required),
        None => Ok(()),
    }
}

fn add_own(
    alloc: Global,
    members: &mut List<StructMember>,
    parts: &ObjectParts,
    required: bool,
) -> Result<(), AllocError>
    ensures { OnOk result (members.new ≡ members.old
        ++ map (member_of required (out-ObjectParts parts.now).required)
        (sorted_by property_name (out-ObjectParts parts.now).properties)) }
{
    let ordered = in_order(alloc, parts.properties.as_slice())?;
    for property in ordered.iter() {
        let member = member(alloc, property, required, parts.required.as_slice())?;
        members.push(member)?;
    }
    Ok(())
}

fn member(
    alloc: Global,
    property: &Property,
    required: bool,
    names: &[Text],
) -> Result<StructMember, AllocError>
    ensures { IfOk result (λ member. member ≡ member_of required names.now property.now) }
{
    let (description, schema) = schema_extract_description(alloc, &property.schema)?;
    Ok(StructMember {
        name: property.name.copy(alloc)?,
        description,
        schema,
        required: required && is_named(names, &property.name),
    })
}

fn is_named(names: &[Text], name: &Text) -> bool
    ensures { result ≡ is_named names.now name.now }
{
    names.iter().any(|one| one == name)
}

/// The schemas whose members come beside a struct's own, and whether those may be required.
fn flattened<'a>(required: bool, subschemas: Option<&'a Subschemas>) -> Option<(bool, &'a [Schema])>
    ensures { flattened_value result ≡ flattened required (option_copied subschemas.entry) }
{
    match subschemas {
        Some(subschemas) => flattened_of_kind(required, subschemas),
        None => Some((required, &[])),
    }
}

fn flattened_of_kind(required: bool, subschemas: &Subschemas) -> Option<(bool, &[Schema])>
    ensures { flattened_value result ≡ flattened_of_kind required (kind_of subschemas.now) }
{
    match Kind::of(subschemas) {
        Kind::AnyOf(schemas) => Some((false, schemas.as_slice())),
        Kind::AllOf(schemas) if schemas.len() == 1 => Some((required, schemas.as_slice())),
        _ => None,
    }
}
