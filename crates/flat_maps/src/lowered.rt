// Names in lower case, as header names are compared (RFC 9110, section 5.1).
ghost use Rattle.std.specs.Prelude.{◌≡◌, IfOk};
ghost use Rattle.request_words.specs.HeaderLines.{lower};

use crate::given::{Given, LookUp};
use schema_values::Text;
use std::alloc::{AllocError, Global};

/// Names, among which each one is looked up in lower case.
#[derive(Clone, Copy)]
pub(crate) struct Lowered<'a, L> {
    pub names: &'a L,
}

impl<L: LookUp> LookUp for Lowered<'_, L> {
    ghost use Rattle.flat_maps.specs.Given.{lowered};

    ghost names = { λ all. lowered (L.names all.names.now) };

    fn look_up(&self, alloc: Global, name: &Text) -> Result<Option<Given<'_>>, AllocError> {
        let name = lower(alloc, name)?;
        self.names.look_up(alloc, &name)
    }
}

// A text with its ASCII letters in lower case.
fn lower(alloc: Global, text: &Text) -> Result<Text, AllocError>
    ensures { IfOk result (λ lowered. lowered ≡ lower text.now) }
{
    let mut lowered = Text::new(alloc);
    for character in text.as_str().chars() {
        lowered.push(character.to_ascii_lowercase())?;
    }
    Ok(lowered)
}
