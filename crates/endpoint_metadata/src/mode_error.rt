//! Why nothing is said of some slots.
use std::alloc::AllocError;

/// Why nothing is said of some slots.
#[derive(Clone, Copy, Debug, PartialEq, Eq)]
pub enum ModeError {
    /// Two slots of pages ask for different names.
    IncompatibleModes,
    /// There was not enough memory.
    OutOfMemory,
}

impl From<AllocError> for ModeError {
    ghost use Rattle.std.specs.Prelude.{◌≡◌};
    ghost use Rattle.endpoint_metadata.specs.declared.mode_error.ModeError.TheVariants.{OutOfMemory};

    ghost from_gives = { λ _ error. error ≡ OutOfMemory };

    fn from(_: AllocError) -> ModeError {
        ModeError::OutOfMemory
    }
}
