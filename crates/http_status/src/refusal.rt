//! Errors that are answered, beside want of memory.
ghost use Rattle.std.specs.Prelude.{◌≡◌, IfOk, IsOk};

use crate::HttpError;
use std::alloc::{AllocError, Global};
use std::fmt;
use thiserror::Error;

/// Why a call gave no value: an error that is answered, or want of memory.
#[derive(Debug, Drop, Error)]
pub enum HttpRefusal {
    /// The error that is answered.
    Http(HttpError),
    /// There was not enough memory.
    OutOfMemory,
}

/// Writes the error, or that there was not enough memory.
impl fmt::Display for HttpRefusal {
    ghost use Rattle.std.specs.Prelude.{Some};
    ghost use Rattle.http_status.specs.Texts.{refusal_text};

    ghost output = { λ refusal. Some (refusal_text refusal) };

    fn fmt<W: fmt::Write>(&self, f: &mut fmt::Formatter<W>) -> fmt::Result {
        match self {
            HttpRefusal::Http(error) => fmt::Display::fmt(error, f),
            HttpRefusal::OutOfMemory => f.write_str("out of memory"),
        }
    }
}

impl From<AllocError> for HttpRefusal {
    ghost use Rattle.std.specs.Prelude.{◌≡◌};
    ghost use Rattle.http_status.specs.declared.refusal.HttpRefusal.TheVariants.{OutOfMemory};

    ghost from_gives = { λ _ refusal. refusal ≡ OutOfMemory };

    fn from(_: AllocError) -> HttpRefusal {
        HttpRefusal::OutOfMemory
    }
}

impl From<HttpError> for HttpRefusal {
    ghost use Rattle.std.specs.Prelude.{◌≡◌};
    ghost use Rattle.http_status.specs.declared.refusal.HttpRefusal.TheVariants.{Http};

    ghost from_gives = { λ error refusal. refusal ≡ Http error };

    fn from(error: HttpError) -> HttpRefusal {
        HttpRefusal::Http(error)
    }
}

impl HttpRefusal {
    /// A refusal equal to this one. Fails only for want of memory, and never of `OutOfMemory`.
    pub fn copy(&self, alloc: Global) -> Result<HttpRefusal, AllocError>
        ensures copy { IfOk result (λ copy. copy ≡ self.now) }
        ensures plain { self.now ≡ HttpRefusal.OutOfMemory → IsOk result }
    {
        match self {
            HttpRefusal::Http(error) => Ok(HttpRefusal::Http(error.copy(alloc)?)),
            HttpRefusal::OutOfMemory => Ok(HttpRefusal::OutOfMemory),
        }
    }
}
