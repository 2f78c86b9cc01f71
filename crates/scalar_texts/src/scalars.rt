// Texts under scalar descriptors.
ghost use Rattle.std.specs.Prelude.{◌≡◌, ◌≤◌, IsTrue, length, option_map};
ghost use Rattle.std.specs.Str.{chars};
ghost use Rattle.std.specs.declared.result.Result.TheVariants.{Err};
ghost use Rattle.schema_values.specs.Ascii.{all_ascii};
ghost use Rattle.descriptors.specs.Definitions.{listed_name};
ghost use Rattle.typed_values.specs.declared.fault.FaultKind.TheVariants.{BadText};
ghost use Rattle.typed_values.specs.Answer.{Tells};
ghost use Rattle.typed_values.specs.Denotes.{Told, refused, just, named_from};
ghost use Rattle.scalar_texts.specs.Texts as texts;

use descriptors::{Named, Tree};
use request_words::is_str_word;
use schema_values::{Boxed, Text};
use std::alloc::Global;
use typed_values::{FaultKind, Stop, is_length_within};

/// A fault at the root: a text that is no value of the kind with this name.
pub(crate) fn bad_text(alloc: Global, text: &str, kind: &str) -> Stop
    requires { IsTrue (all_ascii kind.now) }
    ensures { Tells (Err result) (refused (BadText (chars text.now) kind.now)) }
{
    match Text::from_str(alloc, text) {
        Ok(text) => Stop::bad_text(alloc, &text, kind),
        Err(_) => Stop::OutOfMemory,
    }
}

/// One of the two words of truth values.
pub(crate) fn truth_of_text(alloc: Global, text: &str) -> Result<Tree, Stop>
    ensures { Tells result (texts.truth_of_text (chars text.now)) }
{
    if is_str_word(text, "true") {
        Ok(Tree::Bool(true))
    } else if is_str_word(text, "false") {
        Ok(Tree::Bool(false))
    } else {
        Err(bad_text(alloc, text, "bool"))
    }
}

// The number of characters.
fn character_count(text: &str) -> usize
    ensures { result ≡ length (chars text.now) }
{
    text.chars().count()
}

/// The text itself, where its length is within the bounds.
pub(crate) fn words_of_text(
    alloc: Global,
    min: Option<u32>,
    max: Option<u32>,
    text: &str,
) -> Result<Tree, Stop>
    ensures { Tells result (texts.words_of_text min max (chars text.now)) }
{
    if is_length_within(min, max, character_count(text)) {
        Ok(Tree::Text(Text::from_str(alloc, text)?))
    } else {
        Err(Stop::refused(alloc, FaultKind::BadLength))
    }
}

/// The text itself, where it is one character.
pub(crate) fn character_of_text(alloc: Global, text: &str) -> Result<Tree, Stop>
    ensures { Tells result (texts.character_of_text (chars text.now)) }
{
    if character_count(text) == 1 {
        Ok(Tree::Text(Text::from_str(alloc, text)?))
    } else {
        Err(bad_text(alloc, text, "char"))
    }
}

/// The place of a name.
pub(crate) fn name_of_text(alloc: Global, names: &[Named], text: &str) -> Result<Tree, Stop>
    requires { length names.now ≤ 4294967296 }
    ensures { Tells result (texts.name_of_text names.now (chars text.now)) }
{
    match find_listed(names, text) {
        Some((place, _)) => Ok(Tree::Variant(place as u32, Boxed::new(alloc, Tree::Unit)?)),
        None => Err(Stop::refused(alloc, FaultKind::NotListed)),
    }
}

// The first of some names that a text is, and its place.
fn find_listed<'a>(names: &'a [Named], text: &str) -> Option<(usize, &'a Named)>
    ensures { option_map (λ found. (found.0, found.1.now)) result
        ≡ named_from listed_name 0 names.now (chars text.now) }
{
    for (place, named) in names.iter().enumerate() {
        if named.name.equals_str(text) {
            return Some((place, named));
        }
    }
    None
}

/// What an answer gives under an option: a fault stays as it is.
pub fn in_some(alloc: Global, answer: Result<Tree, Stop>) -> Result<Tree, Stop>
    ensures { (told : Told) → Tells answer told → Tells result (just told) }
{
    Ok(Tree::Some(Boxed::new(alloc, answer?)?))
}
