//! Why an endpoint was not registered.
ghost use Rattle.std.specs.Prelude.{◌≡◌, IfOk, IsOk};

use api_registration::ApiDescriptionRegisterError;
use std::alloc::{AllocError, Global};

/// Why an endpoint was not registered. Endpoints and tags are as they were then, and the index has at each key the
/// places of before.
#[derive(Debug, Drop)]
pub enum RegisterError {
    /// A cause stands against it.
    Refused(ApiDescriptionRegisterError),
    /// There was not enough memory.
    OutOfMemory,
}

impl RegisterError {
    /// An error equal to this one. Fails only for want of memory, and never of `OutOfMemory`.
    pub fn copy(&self, alloc: Global) -> Result<RegisterError, AllocError>
        ensures copy { IfOk result (λ copy. copy ≡ self.now) }
        ensures plain { self.now ≡ RegisterError.OutOfMemory → IsOk result }
    {
        match self {
            RegisterError::Refused(error) => Ok(RegisterError::Refused(error.copy(alloc)?)),
            RegisterError::OutOfMemory => Ok(RegisterError::OutOfMemory),
        }
    }
}

impl From<AllocError> for RegisterError {
    ghost use Rattle.std.specs.Prelude.{◌≡◌};
    ghost use Rattle.api_descriptions.specs.declared.register_error.RegisterError.TheVariants.{OutOfMemory};

    ghost from_gives = { λ _ error. error ≡ OutOfMemory };

    fn from(_: AllocError) -> RegisterError {
        RegisterError::OutOfMemory
    }
}
