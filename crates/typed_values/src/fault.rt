ghost use Rattle.std.specs.Prelude.{◌≡◌, IfOk};

use schema_values::{List, Text};
use std::alloc::{AllocError, Global};

/// Why a value, a text, a header or a page token is not decoded.
#[derive(Debug, Drop)]
pub enum FaultKind {
    /// A field of this name that must be there is absent, or a tag is.
    Missing(Text),
    /// A field of this name is there more than once, where one is asked.
    Doubled(Text),
    /// A member of this name, where no other names than those of the fields are taken.
    Unknown(Text),
    /// A value of another kind.
    WrongKind,
    /// This text denotes no value of the kind with this name, which is bool, char or one of i8 to u64, or a
    /// number outside its bounds.
    BadText(Text, Text),
    /// A number outside its kind or its bounds.
    OutOfRange,
    /// A text with too few or too many characters, or a list with too few or too many items.
    BadLength,
    /// A text that is none of the names.
    NotListed,
    /// A value that no alternative takes.
    NoAlternative,
    /// Bytes that are no JSON.
    NotJson,
    /// A header whose value has a byte that is neither a visible ASCII character nor a space or a tab
    /// (RFC 9110, section 5.5).
    HeaderBytes,
    /// A limit on the items of a page that is no whole number from 1 to 4294967295.
    BadLimit,
    /// A page token of more than 512 bytes.
    TokenTooLarge,
    /// A page token that is not in the URL-safe base64 with padding (RFC 4648, section 5).
    TokenNotBase64,
    /// A page token whose bytes tell no place in the pages.
    TokenCorrupted,
    /// A content type with a byte that is neither a visible ASCII character nor a space or a tab.
    ContentTypeBytes,
    /// This content type is none that a body may have.
    ContentTypeUnsupported(Text),
    /// The first content type is expected of the body, and the second is given.
    ContentTypeMismatch(Text, Text),
}

/// A fault, and the path to it: `.` at the root, else names joined by dots, with `[k]` for item k of a list.
#[derive(Debug, Drop)]
pub struct Fault {
    /// The path.
    pub path: Text,
    /// What is wrong there.
    pub kind: FaultKind,
}

impl FaultKind {
    /// A kind equal to this one.
    pub fn copy(&self, alloc: Global) -> Result<FaultKind, AllocError>
        ensures { IfOk result (λ copy. copy ≡ self.now) }
    {
        match self {
            FaultKind::Missing(name) => Ok(FaultKind::Missing(name.copy(alloc)?)),
            FaultKind::Doubled(name) => Ok(FaultKind::Doubled(name.copy(alloc)?)),
            FaultKind::Unknown(name) => Ok(FaultKind::Unknown(name.copy(alloc)?)),
            FaultKind::WrongKind => Ok(FaultKind::WrongKind),
            FaultKind::BadText(text, kind) => {
                Ok(FaultKind::BadText(text.copy(alloc)?, kind.copy(alloc)?))
            }
            FaultKind::OutOfRange => Ok(FaultKind::OutOfRange),
            FaultKind::BadLength => Ok(FaultKind::BadLength),
            FaultKind::NotListed => Ok(FaultKind::NotListed),
            FaultKind::NoAlternative => Ok(FaultKind::NoAlternative),
            FaultKind::NotJson => Ok(FaultKind::NotJson),
            FaultKind::HeaderBytes => Ok(FaultKind::HeaderBytes),
            FaultKind::BadLimit => Ok(FaultKind::BadLimit),
            FaultKind::TokenTooLarge => Ok(FaultKind::TokenTooLarge),
            FaultKind::TokenNotBase64 => Ok(FaultKind::TokenNotBase64),
            FaultKind::TokenCorrupted => Ok(FaultKind::TokenCorrupted),
            FaultKind::ContentTypeBytes => Ok(FaultKind::ContentTypeBytes),
            FaultKind::ContentTypeUnsupported(given) => {
                Ok(FaultKind::ContentTypeUnsupported(given.copy(alloc)?))
            }
            FaultKind::ContentTypeMismatch(expected, given) => Ok(FaultKind::ContentTypeMismatch(
                expected.copy(alloc)?,
                given.copy(alloc)?,
            )),
        }
    }
}

impl Fault {
    /// A fault equal to this one.
    pub fn copy(&self, alloc: Global) -> Result<Fault, AllocError>
        ensures { IfOk result (λ copy. copy ≡ self.now) }
    {
        Ok(Fault {
            path: self.path.copy(alloc)?,
            kind: self.kind.copy(alloc)?,
        })
    }
}

/// Why there is no tree.
#[derive(Debug, Drop)]
pub enum DecodeError {
    /// The JSON denotes no tree, and this is the fault that is told first.
    Fault(Fault),
    /// There was not enough memory.
    OutOfMemory,
}

impl DecodeError {
    /// An error equal to this one.
    pub fn copy(&self, alloc: Global) -> Result<DecodeError, AllocError>
        ensures { IfOk result (λ copy. copy ≡ self.now) }
    {
        match self {
            DecodeError::Fault(fault) => Ok(DecodeError::Fault(fault.copy(alloc)?)),
            DecodeError::OutOfMemory => Ok(DecodeError::OutOfMemory),
        }
    }
}

impl From<AllocError> for DecodeError {
    ghost use Rattle.std.specs.Prelude.{◌≡◌};
    ghost use Rattle.typed_values.specs.declared.fault.DecodeError.TheVariants.{OutOfMemory};

    ghost from_gives = { λ _ e. e ≡ OutOfMemory };

    fn from(_: AllocError) -> DecodeError {
        DecodeError::OutOfMemory
    }
}

/// A step of a path.
#[derive(Drop)]
pub enum Place {
    /// A field, a key or a variant of this name.
    Name(Text),
    /// The item of a list at this place, counted from 0.
    Item(usize),
}

impl Place {
    /// A place equal to this one.
    pub fn copy(&self, alloc: Global) -> Result<Place, AllocError>
        ensures { IfOk result (λ copy. copy ≡ self.now) }
    {
        match self {
            Place::Name(name) => Ok(Place::Name(name.copy(alloc)?)),
            Place::Item(place) => Ok(Place::Item(*place)),
        }
    }
}

fn copy_places(alloc: Global, places: &[Place]) -> Result<List<Place>, AllocError>
    ensures { IfOk result (λ copies. copies ≡ places.now) }
{
    let mut copies = List::new(alloc);
    for place in places {
        copies.push(place.copy(alloc)?)?;
    }
    Ok(copies)
}

/// A fault on the way out.
#[derive(Drop)]
pub struct Misfit {
    /// What is wrong.
    pub kind: FaultKind,
    /// The places passed so far, the innermost first.
    pub places: List<Place>,
}

impl Misfit {
    /// A fault equal to this one, on the same way.
    pub fn copy(&self, alloc: Global) -> Result<Misfit, AllocError>
        ensures { IfOk result (λ copy. copy ≡ self.now) }
    {
        Ok(Misfit {
            kind: self.kind.copy(alloc)?,
            places: copy_places(alloc, self.places.as_slice())?,
        })
    }
}

/// Why decoding stops.
#[derive(Drop)]
pub enum Stop {
    /// There is a fault.
    Misfit(Misfit),
    /// There was not enough memory.
    OutOfMemory,
}

impl Stop {
    /// A cause equal to this one.
    pub fn copy(&self, alloc: Global) -> Result<Stop, AllocError>
        ensures { IfOk result (λ copy. copy ≡ self.now) }
    {
        match self {
            Stop::Misfit(misfit) => Ok(Stop::Misfit(misfit.copy(alloc)?)),
            Stop::OutOfMemory => Ok(Stop::OutOfMemory),
        }
    }
}

impl From<AllocError> for Stop {
    ghost use Rattle.std.specs.Prelude.{◌≡◌};
    ghost use Rattle.typed_values.specs.declared.fault.Stop.TheVariants.{OutOfMemory};

    ghost from_gives = { λ _ e. e ≡ OutOfMemory };

    fn from(_: AllocError) -> Stop {
        Stop::OutOfMemory
    }
}
