//! What references lead to.

ghost use Rattle.std.specs.Prelude.{◌≡◌, [], None, Ok, Err, IfOk, IfErr};
ghost use Rattle.std.specs.HashMap.{get_by_text};
ghost use Rattle.std.specs.Option.{option_copied};
ghost use Rattle.schema_util.specs.Met.{names_met};
ghost use Rattle.schema_util.specs.Code.{follow_value, resolve_value};
ghost use Rattle.schema_util.specs.References.{ComesTo, name_in, reference_of};
ghost use Rattle.schema_util.specs.References.{follow, reason_of};

use crate::form::Form;
use crate::met::{Met, is_met};
use schema_values::{Definitions, Schema};
use thiserror::Error;

/// Why a reference leads to no schema.
#[derive(Clone, Copy, Debug, PartialEq, Eq, Error)]
pub enum ResolveError<'a> {
    /// No definition has this name; the whole reference, where it has another form than
    /// `#/components/schemas/NAME`.
    #[error("no definition {0}")]
    Dangling(&'a str),
    /// This name comes again on the way.
    #[error("{0} comes again")]
    Cycle(&'a str),
}

/// The first schema on the way along references that is no reference itself. Takes no memory.
///
/// A reference has the form `#/components/schemas/NAME` and stands alone beside annotations: beside other
/// parts it is no reference here, and its schema is answered itself. Each name is compared with those that
/// were met before it, so the time grows with the square of the chain's length. `Dangling` where a name has
/// no definition or the reference is of another form, `Cycle` where a name comes a second time.
pub fn resolve<'a>(
    schema: &'a Schema,
    definitions: &'a Definitions,
) -> Result<&'a Schema, ResolveError<'a>>
    ensures resolved { IfOk result
        (λ found. ComesTo (get_by_text definitions.now) [] schema.now (Ok found.now)) }
    ensures settled { IfOk result (λ found. reference_of found.now ≡ None) }
    ensures refused { IfErr result
        (λ error. ComesTo (get_by_text definitions.now) [] schema.now (Err (reason_of error))) }
{
    resolve_behind(schema, definitions, None)
}

/// The same behind the names that were met.
fn resolve_behind<'a>(
    schema: &'a Schema,
    definitions: &'a Definitions,
    met: Option<&Met<'_>>,
) -> Result<&'a Schema, ResolveError<'a>>
    ensures { ComesTo (get_by_text definitions.now) (names_met met.entry) schema.now (resolve_value result) }
{
    let Some(reference) = reference_of(schema) else {
        return Ok(schema);
    };
    let (name, next) = follow(reference, definitions, met)?;
    resolve_behind(next, definitions, Some(&Met { name, before: met }))
}

/// The definition that a reference means, with its name, where the name was not met.
pub(crate) fn follow<'a>(
    reference: &'a str,
    definitions: &'a Definitions,
    met: Option<&Met<'_>>,
) -> Result<(&'a str, &'a Schema), ResolveError<'a>>
    ensures { follow_value result
        ≡ follow (get_by_text definitions.now) (names_met met.entry) reference.now }
{
    let Some(name) = name_in(reference) else {
        return Err(ResolveError::Dangling(reference));
    };
    if is_met(met, name) {
        return Err(ResolveError::Cycle(name));
    }
    match definitions.get(name) {
        Some(schema) => Ok((name, schema)),
        None => Err(ResolveError::Dangling(name)),
    }
}

/// The name in a reference to a definition.
fn name_in(reference: &str) -> Option<&str>
    ensures { option_copied result ≡ name_in reference.now }
{
    reference.strip_prefix("#/components/schemas/")
}

/// The reference of a schema that has no other part. Annotations are no parts.
fn reference_of(schema: &Schema) -> Option<&str>
    ensures { option_copied result ≡ reference_of schema.now }
{
    match schema {
        Schema::Bool(_) => None,
        Schema::Object(object) => match Form::of(object.get()) {
            Form::Reference(reference) => Some(reference.as_str()),
            _ => None,
        },
    }
}
