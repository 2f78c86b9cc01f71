//! Names in order, each once, and joined.
ghost use Rattle.std.specs.Prelude.{◌≡◌, ◌++◌, IfOk, IsTrue, OnOk};
ghost use Rattle.schema_values.specs.Ascii.{all_ascii};
ghost use Rattle.endpoint_checks.specs.Names.{between, is_among, listing, missing_in, with_commas};

use schema_values::{List, Text};
use std::alloc::{AllocError, Global};
use std::collections::BTreeSet;

/// Whether a name is one of some names.
pub(crate) fn is_among(name: &Text, names: &[Text]) -> bool
    ensures { result ≡ is_among name.now names.now }
{
    names.iter().any(|other| *name == *other)
}

/// The names that are not among others, in order, each once.
pub(crate) fn missing_in(
    alloc: Global,
    others: &[Text],
    names: &[Text],
) -> Result<List<Text>, AllocError>
    ensures { IfOk result (λ missing. missing ≡ missing_in others.now names.now) }
{
    let mut missing = BTreeSet::new(alloc);
    for name in names {
        if !is_among(name, others) {
            missing.insert(name.copy(alloc)?)?;
        }
    }
    listed(alloc, missing)
}

fn listed(alloc: Global, set: BTreeSet<Text>) -> Result<List<Text>, AllocError>
    ensures { IfOk result (λ names. names ≡ set.keys) }
{
    let mut names = List::new(alloc);
    for name in set {
        names.push(name)?;
    }
    Ok(names)
}

/// Names with commas between them.
fn with_commas(alloc: Global, names: &[Text]) -> Result<Text, AllocError>
    ensures { IfOk result (λ joined. joined ≡ with_commas names.now) }
{
    let mut joined = Text::new(alloc);
    let Some((first, rest)) = names.split_first() else {
        return Ok(joined);
    };
    joined.push_text(first)?;
    for name in rest {
        joined.push_ascii(",")?;
        joined.push_text(name)?;
    }
    Ok(joined)
}

/// Puts names in brackets behind a text at the end of a message; nothing where there are none.
pub(crate) fn push_listing(
    alloc: Global,
    message: &mut Text,
    text: &str,
    names: &[Text],
) -> Result<(), AllocError>
    requires { IsTrue (all_ascii text.now) }
    ensures { OnOk result (message.new ≡ message.old ++ listing text.now names.now) }
{
    if names.is_empty() {
        return Ok(());
    }
    message.push_ascii(text)?;
    message.push_ascii("(")?;
    message.push_text(&with_commas(alloc, names)?)?;
    message.push_ascii(")")
}

/// Puts what joins two listings at the end of a message, where both have names.
pub(crate) fn push_between(
    message: &mut Text,
    names: &[Text],
    others: &[Text],
) -> Result<(), AllocError>
    ensures { OnOk result (message.new ≡ message.old ++ between names.now others.now) }
{
    match (names, others) {
        ([_, ..], [_, ..]) => message.push_ascii(" and "),
        _ => Ok(()),
    }
}
