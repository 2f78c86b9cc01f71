// Numbers of kinds, as texts write them.
ghost use Rattle.std.specs.Prelude.{◌≡◌, Some};
ghost use Rattle.std.specs.Str.{chars};
ghost use Rattle.typed_values.specs.Answer.{Tells};
ghost use Rattle.scalar_texts.specs.CutNumbers.{cut_in};
ghost use Rattle.scalar_texts.specs.Texts as texts;

use crate::kinds::{has_no_sign, kind_name};
use crate::scalars::bad_text;
use descriptors::{IntKind, Tree};
use request_words::{cut_number, has_minus};
use std::alloc::Global;
use typed_values::{Stop, is_number_of};

/// The number of a text, within its kind and its bounds.
pub fn number_of_text(
    alloc: Global,
    kind: IntKind,
    min: Option<i128>,
    max: Option<i128>,
    text: &str,
) -> Result<Tree, Stop>
    ensures { Tells result (texts.number_of_text kind min max (chars text.now)) }
{
    match cut_in(kind, text) {
        Some(number) => number_within(alloc, kind, min, max, text, &number),
        None => Err(bad_text(alloc, text, kind_name(kind))),
    }
}

// The number that a text writes, where it is within its kind and its bounds.
fn number_within(
    alloc: Global,
    kind: IntKind,
    min: Option<i128>,
    max: Option<i128>,
    text: &str,
    number: &i128,
) -> Result<Tree, Stop>
    ensures { Tells result (texts.number_or_fault kind min max (chars text.now) (Some number.now)) }
{
    if is_number_of(kind, min, max, *number) {
        Ok(Tree::Int(*number))
    } else {
        Err(bad_text(alloc, text, kind_name(kind)))
    }
}

fn cut_in(kind: IntKind, text: &str) -> Option<i128>
    ensures { result ≡ cut_in kind (chars text.now) }
{
    if has_no_sign(kind) && has_minus(text) {
        None
    } else {
        cut_number(text)
    }
}
