//! How a cause is told.
ghost use Rattle.std.specs.Prelude.{◌≡◌, ℕ, List as ListOf, All, IfNone, IfOk, IsTrue};
ghost use Rattle.schema_values.specs.Ascii.{all_ascii};
ghost use Rattle.endpoint_parameters.specs.Told.{IsTried, SaysFirst, quoted};

use crate::first::{Condition, first_of};
use crate::parameter::Parameter;
use schema_values::Text;
use std::alloc::{AllocError, Global};

/// A name in quotation marks between two texts. Fails only for want of memory.
pub fn quoted(alloc: Global, before: &str, after: &str, name: &Text) -> Result<Text, AllocError>
    requires before { IsTrue (all_ascii before.now) }
    requires after { IsTrue (all_ascii after.now) }
    ensures { IfOk result (λ text. text ≡ quoted before.now after.now name.now) }
{
    let mut text = Text::from_ascii(alloc, before)?;
    text.push_ascii("'")?;
    text.push_text(name)?;
    text.push_ascii("'")?;
    text.push_ascii(after)?;
    Ok(text)
}

/// A condition on parameters that is a cause, and how it is told.
pub trait ParameterCause<'a>: Condition<Parameter<'a>> {
    /// What is told of a name.
    ghost text: { Self → ListOf ℕ → ListOf ℕ };

    /// What is told of a name. Fails only for want of memory.
    fn tell(&self, alloc: Global, name: &Text) -> Result<Text, AllocError>
        ensures { IfOk result (λ told. told ≡ text self.now name.now) };
}

/// What is told of the first parameter of which a condition holds. Fails only for want of memory.
pub fn tell_first<'a, C: ParameterCause<'a>>(
    alloc: Global,
    cause: &C,
    parameters: &[Parameter<'a>],
) -> Result<Option<Text>, AllocError>
    ensures told { IfOk result (IsTried (SaysFirst parameters.now (C.Holds cause.now)
        (C.text cause.now))) }
    ensures clear { IfOk result (λ told. IfNone told (All (C.Clear cause.now) parameters.now)) }
{
    match first_of(cause, parameters) {
        Some(parameter) => Ok(Some(cause.tell(alloc, parameter.name())?)),
        None => Ok(None),
    }
}
