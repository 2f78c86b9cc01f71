// The slots that take the body, and those before them.
ghost use Rattle.std.specs.Prelude.{◌≡◌, ◌++◌, [], ◌∷◌, true, false, All, IfSome, MatchOption};
ghost use Rattle.handler_shapes.specs.BodySlots.{BodyComesLast, takes_body};
ghost use Rattle.api_extract.specs.Extraction.{IsPushed};

use crate::extract_error::ExtractError;
use handler_shapes::{Arg, ArgList, Slot};

/// The slots before the one that takes the body, which is the last one, if there is one.
pub(crate) fn without_body(slots: &[Slot]) -> (&[Slot], Option<&Slot>)
    requires { BodyComesLast slots.now }
    ensures shared { All (λ slot. takes_body slot ≡ false) result.0.now }
    ensures joined { MatchOption result.1 (slots.now ≡ result.0.now)
        (λ last. slots.now ≡ result.0.now ++ last.now ∷ []) }
    ensures last { IfSome result.1 (λ last. takes_body last.now ≡ true) }
{
    match slots.split_last() {
        Some((last, shared)) => {
            if last.takes_body() {
                (shared, Some(last))
            } else {
                (slots, None)
            }
        }
        None => (slots, None),
    }
}

/// An argument behind others.
pub(crate) fn pushed(
    mut args: ArgList,
    last: Result<Arg, ExtractError>,
) -> Result<ArgList, ExtractError>
    ensures { IsPushed args last result }
{
    args.push(last?)?;
    Ok(args)
}
