ghost use Rattle.std.specs.Prelude.{◌≡◌, IfOk, IfErr, IfSome, IfNone, Err, option_map};
ghost use Rattle.std.specs.Str.{chars};
ghost use Rattle.openapi_values.specs.Refusal.{refusal_of};
ghost use Rattle.openapi_values.specs.SchemaJson.{schema_json};

use crate::refusal::refusal;
use crate::written::written;
use schema_values::{Json, Schema, Text};
use std::alloc::{AllocError, Global};
use thiserror::Error;

/// Why a schema is not written in OpenAPI 3.0.3.
#[derive(Clone, Copy, Debug, PartialEq, Eq, Error)]
pub enum J2oasError {
    /// A schema has several types.
    #[error("several types")]
    TypeArray,
    /// A schema has the type of all numbers.
    #[error("the type of all numbers")]
    FloatSchema,
    /// Each item of an array has a schema of its own.
    #[error("items with schemas of their own")]
    TupleArray,
    /// An array has no schema of its items.
    #[error("an array without a schema of its items")]
    NoItems,
    /// A const is none of the values that stand beside it.
    #[error("a const that is none of the values beside it")]
    EnumConflict,
    /// A const stands where type and subschemas do not stand together.
    #[error("a const without a type and subschemas beside it")]
    ConstUnsupported,
    /// Values are given without a type, or beside an object or an array.
    #[error("values without a type, or of an object or an array")]
    EnumWithoutType,
    /// A value that is neither null nor of the type.
    #[error("a value that is neither null nor of the type")]
    BadEnumValue,
    /// A bound stands beside its exclusive form.
    #[error("a bound beside its exclusive form")]
    BadBounds,
    /// A schema without a type has subschemas of no kind, or of more than one.
    #[error("subschemas of no kind, or of more than one, without a type")]
    BadSubschema,
    /// There was not enough memory.
    #[error("out of memory")]
    OutOfMemory,
}

impl From<AllocError> for J2oasError {
    ghost use Rattle.std.specs.Prelude.{◌≡◌};
    ghost use Rattle.openapi_values.specs.declared.j2oas.J2oasError.TheVariants.{OutOfMemory};

    ghost from_gives = { λ _ e. e ≡ OutOfMemory };

    fn from(_: AllocError) -> J2oasError {
        J2oasError::OutOfMemory
    }
}

/// A schema as it stands in the document (OpenAPI 3.0.3, Schema Object), with the given name as its title,
/// if there is one. A truth value and a reference show none.
///
/// Of a schema that has several faults one is told: of its own the first in the order of the variants of
/// `J2oasError`; where it has none of its own, the first of the schemas in it, in the order in which they are
/// written. Follows no reference, and copies what it writes.
pub fn j2oas_schema(alloc: Global, name: Option<&str>, schema: &Schema) -> Result<Json, J2oasError>
    ensures ok { IfOk result (λ json. json ≡ schema_json
        (option_map (λ name. chars name.now) name.entry) schema.now) }
    ensures refused { IfSome (refusal_of schema.now) (λ refusal. result ≡ Err refusal) }
    ensures memory { IfNone (refusal_of schema.now) (IfErr result (λ e. e ≡ J2oasError.OutOfMemory)) }
{
    if let Some(refusal) = refusal(schema) {
        return Err(refusal);
    }
    Ok(titled(alloc, name, schema)?)
}

fn titled(alloc: Global, name: Option<&str>, schema: &Schema) -> Result<Json, AllocError>
    ensures { IfOk result (λ json. json ≡ schema_json
        (option_map (λ name. chars name.now) name.entry) schema.now) }
{
    let title = match name {
        Some(name) => Some(Text::from_str(alloc, name)?),
        None => None,
    };
    written(alloc, &title, schema)
}
