ghost use Rattle.std.specs.Prelude.{◌≡◌, ◌≢◌, IfOk, IsTrue};
ghost use Rattle.std.specs.declared.result.Result.TheVariants.{Err};
ghost use Rattle.schema_values.specs.Ascii.{all_ascii};
ghost use Rattle.typed_values.specs.declared.fault.FaultKind.TheVariants.{BadText, Doubled, Missing, Unknown};
ghost use Rattle.typed_values.specs.declared.fault.Place.TheVariants.{Name};
ghost use Rattle.typed_values.specs.Answer.{Tells, IfFault, IsFaultOf};
ghost use Rattle.typed_values.specs.Denotes.{Told, below, refused};

use crate::fault::{DecodeError, Fault, FaultKind, Misfit, Place, Stop};
use crate::path::path_text;
use schema_values::{List, Text};
use std::alloc::{AllocError, Global};

impl Stop {
    /// A fault at the root. It takes no memory, and is never want of memory.
    pub fn refused(alloc: Global, kind: FaultKind) -> Stop
        ensures told { Tells (Err result) (refused kind) }
        ensures fault { result ≢ Stop.OutOfMemory }
    {
        Stop::Misfit(Misfit {
            kind,
            places: List::new(alloc),
        })
    }

    /// The same fault, below a place, and want of memory as it is.
    pub fn below(self, place: Place) -> Stop
        ensures told { (told : Told) → Tells (Err self) told → Tells (Err result) (below place told) }
        ensures memory { self ≡ Stop.OutOfMemory → result ≡ Stop.OutOfMemory }
    {
        match self {
            Stop::Misfit(mut misfit) => match misfit.places.push(place) {
                Ok(()) => Stop::Misfit(misfit),
                Err(_) => Stop::OutOfMemory,
            },
            Stop::OutOfMemory => Stop::OutOfMemory,
        }
    }

    /// The same fault, below a name, and want of memory as it is.
    pub fn below_name(self, alloc: Global, name: &Text) -> Stop
        ensures told { (told : Told) → Tells (Err self) told
            → Tells (Err result) (below (Name name.now) told) }
        ensures memory { self ≡ Stop.OutOfMemory → result ≡ Stop.OutOfMemory }
    {
        match name.copy(alloc) {
            Ok(name) => self.below(Place::Name(name)),
            Err(_) => Stop::OutOfMemory,
        }
    }

    /// A fault at the root: what has to have this name is not there.
    pub fn missing(alloc: Global, name: &Text) -> Stop
        ensures { Tells (Err result) (refused (Missing name.now)) }
    {
        match name.copy(alloc) {
            Ok(name) => Stop::refused(alloc, FaultKind::Missing(name)),
            Err(_) => Stop::OutOfMemory,
        }
    }

    /// A fault at the root: a name that is not taken.
    pub fn unknown(alloc: Global, name: &Text) -> Stop
        ensures { Tells (Err result) (refused (Unknown name.now)) }
    {
        match name.copy(alloc) {
            Ok(name) => Stop::refused(alloc, FaultKind::Unknown(name)),
            Err(_) => Stop::OutOfMemory,
        }
    }

    /// A fault at the root: a name that is given more than once.
    pub fn doubled(alloc: Global, name: &Text) -> Stop
        ensures { Tells (Err result) (refused (Doubled name.now)) }
    {
        match name.copy(alloc) {
            Ok(name) => Stop::refused(alloc, FaultKind::Doubled(name)),
            Err(_) => Stop::OutOfMemory,
        }
    }

    /// A fault at the root: a text that is no value of the kind with this name.
    pub fn bad_text(alloc: Global, text: &Text, kind: &str) -> Stop
        requires { IsTrue (all_ascii kind.now) }
        ensures { Tells (Err result) (refused (BadText text.now kind.now)) }
    {
        match unreadable(alloc, text, kind) {
            Ok(kind) => Stop::refused(alloc, kind),
            Err(_) => Stop::OutOfMemory,
        }
    }

    /// The error as it is handed out, and want of memory as it is.
    pub fn into_error(self, alloc: Global) -> DecodeError
        ensures told { (told : Told) → Tells (Err self) told → IfFault result (IsFaultOf told) }
        ensures memory { self ≡ Stop.OutOfMemory → result ≡ DecodeError.OutOfMemory }
    {
        match self {
            Stop::Misfit(misfit) => match path_text(alloc, misfit.places.as_slice()) {
                Ok(path) => DecodeError::Fault(Fault {
                    path,
                    kind: misfit.kind,
                }),
                Err(_) => DecodeError::OutOfMemory,
            },
            Stop::OutOfMemory => DecodeError::OutOfMemory,
        }
    }
}

/// The kind of fault of a text that is no value of the kind with this name.
fn unreadable(alloc: Global, text: &Text, kind: &str) -> Result<FaultKind, AllocError>
    requires { IsTrue (all_ascii kind.now) }
    ensures { IfOk result (λ fault. fault ≡ BadText text.now kind.now) }
{
    let kind = Text::from_ascii(alloc, kind)?;
    Ok(FaultKind::BadText(text.copy(alloc)?, kind))
}
