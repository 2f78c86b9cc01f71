//! The pairs of a query and of a form.

ghost use Rattle.std.specs.Prelude.{◌≡◌, IfOk, IsTrue};
ghost use Rattle.schema_values.specs.Ascii.{all_ascii};
ghost use Rattle.request_words.specs.Pairs.{decoded, form_pairs, query_pairs, has_pair};

use crate::words::is_word;
use form_urlencoded::{decode, raw_pairs};
use schema_values::{HasName, List, Text};
use std::alloc::{AllocError, Global};

/// A name, and a text that stands under it.
#[derive(Drop)]
pub struct NamedText {
    /// The name.
    pub name: Text,
    /// The text.
    pub value: Text,
}

impl NamedText {
    /// A pair equal to this one. Fails only for want of memory.
    pub fn copy(&self, alloc: Global) -> Result<NamedText, AllocError>
        ensures { IfOk result (λ copy. copy ≡ self.now) }
    {
        Ok(NamedText {
            name: self.name.copy(alloc)?,
            value: self.value.copy(alloc)?,
        })
    }
}

impl HasName for NamedText {
    ghost use Rattle.request_words.specs.Pairs.{pair_name};

    ghost name_of = { pair_name };

    fn name(&self) -> &Text {
        &self.name
    }
}

/// The pairs of a query, decoded, in order (URL Standard, section 6.2). Fails only for want of memory.
pub fn query_pairs(alloc: Global, query: &Text) -> Result<List<NamedText>, AllocError>
    ensures { IfOk result (λ pairs. pairs ≡ query_pairs query.now) }
{
    form_pairs(alloc, query.as_bytes())
}

/// The pairs of a form's bytes, decoded, in order (URL Standard, section 5.1). Fails only for want of memory.
pub fn form_pairs(alloc: Global, bytes: &[u8]) -> Result<List<NamedText>, AllocError>
    ensures { IfOk result (λ pairs. pairs ≡ form_pairs bytes.now) }
{
    let mut pairs = List::new(alloc);
    for (name, value) in raw_pairs(bytes) {
        let name = decoded(alloc, name)?;
        let value = decoded(alloc, value)?;
        pairs.push(NamedText { name, value })?;
    }
    Ok(pairs)
}

// The text that a name or a value stands for.
fn decoded(alloc: Global, bytes: &[u8]) -> Result<Text, AllocError>
    ensures { IfOk result (λ text. text ≡ decoded bytes.now) }
{
    Ok(Text::from_string(decode(alloc, bytes)?.into_owned(alloc)?))
}

/// Whether a pair has a name that is an ASCII word, looked for from the first pair on.
pub fn has_pair(pairs: &[NamedText], name: &str) -> bool
    requires { IsTrue (all_ascii name.now) }
    ensures { result ≡ has_pair pairs.now name.now }
{
    for pair in pairs {
        if is_word(&pair.name, name) {
            return true;
        }
    }
    false
}
