// Refusals, and the words in which they are told.
ghost use Rattle.std.specs.Prelude.{◌≡◌, ◌++◌, IfOk, IsTrue};
ghost use Rattle.std.specs.declared.result.Result.TheVariants.{Err};
ghost use Rattle.schema_values.specs.Ascii.{all_ascii};
ghost use Rattle.typed_values.specs.Denotes.{Told, refused};
ghost use Rattle.typed_values.specs.Faults.{fault_text};
ghost use Rattle.api_extract.specs.Answers.{IsGiven, IsTold};
ghost use Rattle.api_extract.specs.Refusals.{refused_plainly, told_as};

use crate::extract_error::ExtractError;
use handler_shapes::Arg;
use schema_values::Text;
use std::alloc::{AllocError, Global};
use typed_values::{DecodeError, Fault, FaultKind, Stop, Tree};

/// A tree as an argument, or a refusal whose message is the fault's text behind a prefix.
pub(crate) fn tree_argument(
    alloc: Global,
    prefix: &str,
    answer: Result<Tree, DecodeError>,
) -> Result<Arg, ExtractError>
    requires { IsTrue (all_ascii prefix.now) }
    ensures { (told : Told) → IsTold answer told → IsGiven result (told_as prefix.now told) }
{
    match answer {
        Ok(tree) => Ok(Arg::Tree(tree)),
        Err(DecodeError::Fault(fault)) => {
            let message = message(alloc, prefix, &fault)?;
            Err(ExtractError::Refused(fault, message))
        }
        Err(DecodeError::OutOfMemory) => Err(ExtractError::OutOfMemory),
    }
}

/// The message for the client: a prefix and the fault's text.
pub(crate) fn message(alloc: Global, prefix: &str, fault: &Fault) -> Result<Text, AllocError>
    requires { IsTrue (all_ascii prefix.now) }
    ensures { IfOk result (λ message. message ≡ prefix.now ++ fault_text fault.now) }
{
    let mut message = Text::from_ascii(alloc, prefix)?;
    message.push_text(&fault.text(alloc)?)?;
    Ok(message)
}

/// A fault of the whole.
pub(crate) fn whole_fault(alloc: Global, kind: FaultKind) -> DecodeError
    ensures { IsTold (Err result) (refused kind) }
{
    Stop::refused(alloc, kind).into_error(alloc)
}

/// A refusal of the whole, told by its kind alone.
pub(crate) fn refuse_plainly(alloc: Global, kind: FaultKind) -> Result<Arg, ExtractError>
    ensures { IsGiven result (refused_plainly kind) }
{
    tree_argument(alloc, "", Err(whole_fault(alloc, kind)))
}
