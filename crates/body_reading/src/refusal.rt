//! Why a reader gave no content.
ghost use Rattle.std.specs.Prelude.{◌≡◌, IfOk};

use http_status::HttpError;
use std::alloc::{AllocError, Global};
use std::fmt;
use thiserror::Error;

/// Why a reader of a body gave no content. Each closes it.
#[derive(Debug, Drop, Error)]
pub enum StreamRefusal {
    /// A call on the body failed; the error that is answered.
    Fault(HttpError),
    /// The content is above the reader's cap; the error that is answered.
    TooLarge(HttpError),
    /// More frames came than the reader's budget allows; the error that is answered.
    FrameBudget(HttpError),
    /// An earlier call closed the reader.
    Closed,
    /// There was not enough memory for the error that is answered.
    OutOfMemory,
}

/// Writes the error that is answered, or what else was wrong.
impl fmt::Display for StreamRefusal {
    ghost use Rattle.std.specs.Prelude.{Some};
    ghost use Rattle.body_reading.specs.Texts.{stream_refusal_text};

    ghost output = { λ refusal. Some (stream_refusal_text refusal) };

    fn fmt<W: fmt::Write>(&self, f: &mut fmt::Formatter<W>) -> fmt::Result {
        match self {
            StreamRefusal::Fault(error) => fmt::Display::fmt(error, f),
            StreamRefusal::TooLarge(error) => fmt::Display::fmt(error, f),
            StreamRefusal::FrameBudget(error) => fmt::Display::fmt(error, f),
            StreamRefusal::Closed => f.write_str("the body is closed"),
            StreamRefusal::OutOfMemory => f.write_str("out of memory"),
        }
    }
}

impl From<AllocError> for StreamRefusal {
    ghost use Rattle.std.specs.Prelude.{◌≡◌};
    ghost use Rattle.body_reading.specs.declared.refusal.StreamRefusal.TheVariants.{OutOfMemory};

    ghost from_gives = { λ _ refusal. refusal ≡ OutOfMemory };

    fn from(_: AllocError) -> StreamRefusal {
        StreamRefusal::OutOfMemory
    }
}

impl StreamRefusal {
    /// A refusal equal to this one. Fails only for want of memory.
    pub fn copy(&self, alloc: Global) -> Result<StreamRefusal, AllocError>
        ensures { IfOk result (λ copy. copy ≡ self.now) }
    {
        match self {
            StreamRefusal::Fault(error) => Ok(StreamRefusal::Fault(error.copy(alloc)?)),
            StreamRefusal::TooLarge(error) => Ok(StreamRefusal::TooLarge(error.copy(alloc)?)),
            StreamRefusal::FrameBudget(error) => Ok(StreamRefusal::FrameBudget(error.copy(alloc)?)),
            StreamRefusal::Closed => Ok(StreamRefusal::Closed),
            StreamRefusal::OutOfMemory => Ok(StreamRefusal::OutOfMemory),
        }
    }
}
