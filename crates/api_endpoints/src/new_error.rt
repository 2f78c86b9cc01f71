//! Why there is no endpoint.
ghost use Rattle.std.specs.Prelude.{◌≡◌, IfOk, IsOk, List as ListOf, ℕ};

use endpoint_metadata::ModeError;
use schema_values::Text;
use std::alloc::{AllocError, Global};

/// Why there is no such endpoint.
#[derive(Debug, Drop, thiserror::Error)]
pub enum NewEndpointError {
    /// The media type is none that bodies have.
    #[error("unsupported media type: {0}")]
    UnsupportedMime(Text),
    /// Two slots of pages ask for different names on the first page.
    #[error("incompatible extension modes")]
    IncompatibleModes,
    /// There was not enough memory.
    #[error("out of memory")]
    OutOfMemory,
}

impl NewEndpointError {
    /// An error equal to this one. Fails only for want of memory, which none takes but `UnsupportedMime`.
    pub fn copy(&self, alloc: Global) -> Result<NewEndpointError, AllocError>
        ensures copy { IfOk result (λ copy. copy ≡ self.now) }
        ensures plain { ((mime : ListOf ℕ) → ¬ (self.now ≡ NewEndpointError.UnsupportedMime mime)) → IsOk result }
    {
        match self {
            NewEndpointError::UnsupportedMime(mime) => {
                Ok(NewEndpointError::UnsupportedMime(mime.copy(alloc)?))
            }
            NewEndpointError::IncompatibleModes => Ok(NewEndpointError::IncompatibleModes),
            NewEndpointError::OutOfMemory => Ok(NewEndpointError::OutOfMemory),
        }
    }
}

impl From<AllocError> for NewEndpointError {
    ghost use Rattle.std.specs.Prelude.{◌≡◌};
    ghost use Rattle.api_endpoints.specs.declared.new_error.NewEndpointError.TheVariants.{OutOfMemory};

    ghost from_gives = { λ _ error. error ≡ OutOfMemory };

    fn from(_: AllocError) -> NewEndpointError {
        NewEndpointError::OutOfMemory
    }
}

impl From<ModeError> for NewEndpointError {
    ghost use Rattle.std.specs.Prelude.{◌≡◌};
    ghost use Rattle.api_endpoints.specs.NewErrors.{mode_refusal};

    ghost from_gives = { λ mode error. error ≡ mode_refusal mode };

    fn from(error: ModeError) -> NewEndpointError {
        match error {
            ModeError::IncompatibleModes => NewEndpointError::IncompatibleModes,
            ModeError::OutOfMemory => NewEndpointError::OutOfMemory,
        }
    }
}
