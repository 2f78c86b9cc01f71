//! Why a line is not answered.
use schema_values::ReadError;
use std::alloc::{AllocError, AllocFailed, Global};

/// Why a line is not answered.
#[derive(Drop)]
pub enum CaseError {
    /// The line says something else where this is expected.
    Expected(&'static str),
    /// The table or the descriptor fails its check, and this is told of it.
    Flawed(&'static str),
    /// There was not enough memory.
    OutOfMemory,
}

impl From<AllocError> for CaseError {
    ghost use Rattle.std.specs.Prelude.{◌≡◌};
    ghost use Rattle.case_notation.specs.declared.error.CaseError.TheVariants.{OutOfMemory};

    ghost from_gives = { λ _ made. made ≡ OutOfMemory };

    fn from(_: AllocError) -> CaseError {
        CaseError::OutOfMemory
    }
}

impl<T: Drop> From<AllocFailed<T>> for CaseError {
    ghost use Rattle.std.specs.Prelude.{◌≡◌};
    ghost use Rattle.case_notation.specs.declared.error.CaseError.TheVariants.{OutOfMemory};

    ghost from_gives = { λ _ made. made ≡ OutOfMemory };

    fn from(_: AllocFailed<T>) -> CaseError {
        CaseError::OutOfMemory
    }
}

impl From<ReadError> for CaseError {
    ghost use Rattle.std.specs.Prelude.{◌≡◌, ◌↔◌};
    ghost use Rattle.schema_values.specs.declared.read.ReadError.TheVariants.{OutOfMemory as NoMemory};
    ghost use Rattle.case_notation.specs.declared.error.CaseError.TheVariants.{OutOfMemory};

    ghost from_gives = { λ error made. made ≡ OutOfMemory ↔ error ≡ NoMemory };

    fn from(error: ReadError) -> CaseError {
        match error {
            ReadError::Unreadable => CaseError::Expected("JSON"),
            ReadError::OutOfMemory => CaseError::OutOfMemory,
        }
    }
}

impl CaseError {
    /// The line that tells it.
    pub fn text(&self, alloc: Global) -> Result<String, AllocError> {
        match self {
            CaseError::Expected(what) => format!(in alloc; "? expected {what}"),
            CaseError::Flawed(flaw) => format!(in alloc; "? flawed: {flaw}"),
            CaseError::OutOfMemory => Err(AllocError),
        }
    }
}
