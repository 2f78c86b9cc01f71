//! Why there is no map of texts, or no value of one.
ghost use Rattle.std.specs.Prelude.{◌≡◌, IfOk, IsTrue};
ghost use Rattle.schema_values.specs.Ascii.{all_ascii};
ghost use Rattle.flat_maps.specs.MapErrors.{Refuses};
ghost use Rattle.flat_maps.specs.Refusals.{invalid_type};

use schema_values::Text;
use std::alloc::{AllocError, Global};
use std::fmt;

/// Why a map of texts denotes no value, or a value is written as none.
#[derive(Debug, Drop)]
pub enum MapError {
    /// It is refused, and this is what is told.
    Refused(Text),
    /// There was not enough memory.
    OutOfMemory,
}

impl MapError {
    /// An error equal to this one.
    pub fn copy(&self, alloc: Global) -> Result<MapError, AllocError>
        ensures { IfOk result (λ copy. copy ≡ self.now) }
    {
        match self {
            MapError::Refused(text) => Ok(MapError::Refused(text.copy(alloc)?)),
            MapError::OutOfMemory => Ok(MapError::OutOfMemory),
        }
    }

    /// A refusal with these ASCII words.
    pub(crate) fn refused(alloc: Global, words: &str) -> MapError
        requires { IsTrue (all_ascii words.now) }
        ensures { Refuses result words.now }
    {
        match Text::from_ascii(alloc, words) {
            Ok(text) => MapError::Refused(text),
            Err(_) => MapError::OutOfMemory,
        }
    }

    /// A refusal of a value whose type has this ASCII name.
    pub(crate) fn invalid_type(alloc: Global, name: &str) -> MapError
        requires { IsTrue (all_ascii name.now) }
        ensures { Refuses result (invalid_type name.now) }
    {
        match type_refused(alloc, name) {
            Ok(text) => MapError::Refused(text),
            Err(_) => MapError::OutOfMemory,
        }
    }
}

fn type_refused(alloc: Global, name: &str) -> Result<Text, AllocError>
    requires { IsTrue (all_ascii name.now) }
    ensures { IfOk result (λ text. text ≡ invalid_type name.now) }
{
    let mut text = Text::from_ascii(alloc, "invalid type: ")?;
    text.push_ascii(name)?;
    Ok(text)
}

impl From<AllocError> for MapError {
    ghost use Rattle.std.specs.Prelude.{◌≡◌};
    ghost use Rattle.flat_maps.specs.declared.map_error.MapError.TheVariants.{OutOfMemory};

    ghost from_gives = { λ _ e. e ≡ OutOfMemory };

    fn from(_: AllocError) -> MapError {
        MapError::OutOfMemory
    }
}

/// Writes what is told.
impl fmt::Display for MapError {
    ghost use Rattle.std.specs.Prelude.{Some};
    ghost use Rattle.flat_maps.specs.MapErrors.{error_text};

    ghost output = { λ error. Some (error_text error) };

    fn fmt<W: fmt::Write>(&self, f: &mut fmt::Formatter<W>) -> fmt::Result {
        match self {
            MapError::Refused(text) => fmt::Display::fmt(text, f),
            MapError::OutOfMemory => fmt::Display::fmt("out of memory", f),
        }
    }
}
