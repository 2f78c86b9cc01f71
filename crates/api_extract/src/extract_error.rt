//! Why a request gives a handler no arguments.
ghost use Rattle.std.specs.Prelude.{◌≡◌, IfOk};

use body_reading::BodyError;
use schema_values::Text;
use std::alloc::{AllocError, Global};
use typed_values::Fault;

/// Why a request gives a handler no arguments.
#[derive(Debug, Drop)]
pub enum ExtractError {
    /// The first slot that is given nothing, by this fault, with the message for the client.
    Refused(Fault, Text),
    /// A call on the body failed.
    BodyFault,
    /// The content of the body is above the limit: so many bytes came by the first frame that
    /// passed it, or 2^64-1 where those are more.
    BodyTooLarge(u64),
    /// More frames came than the budget allows: so many.
    FrameBudget(u64),
    /// There was not enough memory.
    OutOfMemory,
}

impl ExtractError {
    /// An error equal to this one. Fails only for want of memory.
    pub fn copy(&self, alloc: Global) -> Result<ExtractError, AllocError>
        ensures { IfOk result (λ copy. copy ≡ self.now) }
    {
        match self {
            ExtractError::Refused(fault, message) => {
                let message = message.copy(alloc)?;
                Ok(ExtractError::Refused(fault.copy(alloc)?, message))
            }
            ExtractError::BodyFault => Ok(ExtractError::BodyFault),
            ExtractError::BodyTooLarge(sum) => Ok(ExtractError::BodyTooLarge(*sum)),
            ExtractError::FrameBudget(count) => Ok(ExtractError::FrameBudget(*count)),
            ExtractError::OutOfMemory => Ok(ExtractError::OutOfMemory),
        }
    }
}

impl From<AllocError> for ExtractError {
    ghost use Rattle.std.specs.Prelude.{◌≡◌};
    ghost use Rattle.api_extract.specs.declared.extract_error.ExtractError.TheVariants.{OutOfMemory};

    ghost from_gives = { λ _ error. error ≡ OutOfMemory };

    fn from(_: AllocError) -> ExtractError {
        ExtractError::OutOfMemory
    }
}

impl From<BodyError> for ExtractError {
    ghost use Rattle.std.specs.Prelude.{◌≡◌};
    ghost use Rattle.api_extract.specs.ReadingErrors.{reading_error};

    ghost from_gives = { λ reading error. error ≡ reading_error reading };

    fn from(error: BodyError) -> ExtractError {
        match error {
            BodyError::BodyFault => ExtractError::BodyFault,
            BodyError::BodyTooLarge(sum) => ExtractError::BodyTooLarge(sum),
            BodyError::FrameBudget(count) => ExtractError::FrameBudget(count),
            BodyError::OutOfMemory => ExtractError::OutOfMemory,
        }
    }
}
