//! Bodies that are read to their end and thrown away.
ghost use Rattle.std.specs.Prelude.{◌≡◌, ◌+◌, ◌-◌, ◌<◌, ◌≤◌, ◌^◌, IfOk, IfSome, IsErrOf};
ghost use Rattle.http_bodies.specs.Dumping.{Dumps, IsOrRanOut, data_size, dumped};
ghost use Rattle.http_bodies.specs.Sources.{CalledFor, GoesOn, HasFailed};

use crate::frame::{FrameError, FrameSource};
use std::alloc::Global;
use std::fmt;
use thiserror::Error;

/// Why a body was not dumped to its end.
#[derive(Clone, Copy, Debug, Drop, PartialEq, Eq, Error)]
pub enum DumpError {
    /// The body failed.
    Failed,
    /// More frames came than the budget allows.
    FrameBudget,
    /// There was not enough memory.
    OutOfMemory,
}

/// Writes why the body was not dumped to its end.
impl fmt::Display for DumpError {
    ghost use Rattle.std.specs.Prelude.{Some};
    ghost use Rattle.http_bodies.specs.Texts.{dump_error_text};

    ghost output = { λ error. Some (dump_error_text error) };

    fn fmt<W: fmt::Write>(&self, f: &mut fmt::Formatter<W>) -> fmt::Result {
        f.write_str(match self {
            DumpError::Failed => "reading the body failed",
            DumpError::FrameBudget => "more frames than the budget allows",
            DumpError::OutOfMemory => "out of memory",
        })
    }
}

impl From<FrameError> for DumpError {
    ghost use Rattle.std.specs.Prelude.{◌≡◌};
    ghost use Rattle.http_bodies.specs.Dumping.{dump_error_of};

    ghost from_gives = { λ error dumping. dumping ≡ dump_error_of error };

    fn from(error: FrameError) -> DumpError {
        match error {
            FrameError::Failed => DumpError::Failed,
            FrameError::OutOfMemory => DumpError::OutOfMemory,
        }
    }
}

/// Reads a body to its end and throws away what comes, at most one frame more than `budget` says.
/// Gives the number of bytes of its content, or 2^64-1 where that is less.
pub fn http_dump_body<B: FrameSource>(
    alloc: Global,
    body: &mut B,
    budget: u64,
) -> Result<u64, DumpError>
    requires { budget < 2 ^ 64 - 1 }

    // What came of a source that tells its frames: more frames than the budget exactly at
    // `FrameBudget`, and all that were left at an `Ok`.
    ensures came { Dumps budget (B.state body.old).left (B.state body.new).left result }
    ensures size { IfSome (B.state body.old).left (λ frames.
        IfOk result (λ sum. sum ≡ data_size frames)) }
    ensures complete { IfSome (B.state body.old).left (λ frames.
        ¬ HasFailed (B.state body.old) (B.state body.new)
        → IsOrRanOut (dumped budget frames) result) }

    // A fault comes only where the count of faults rose, and a count that rose is told as that
    // fault.
    ensures failed { IsErrOf result DumpError.Failed
        → HasFailed (B.state body.old) (B.state body.new) }
    ensures counts { ¬ IsErrOf result DumpError.Failed
        → (B.state body.new).faults ≡ (B.state body.old).faults }
    ensures goes_on { GoesOn (B.state body.old) (B.state body.new) }

    // It calls the body at most once more than the budget, and of a source that tells its frames not
    // again behind the end or an error.
    ensures calls { B.calls body.new ≤ B.calls body.old + budget + 1 }
    ensures called { CalledFor (B.state body.old).left (B.state body.new).left
        (B.calls body.old) (B.calls body.new) }

    // It takes no memory itself.
    ensures memory { IsErrOf result DumpError.OutOfMemory → B.asks body.old }
    ensures spared { B.asks body.new → B.asks body.old }
{
    let mut sum = 0u64;
    for _ in 0..budget + 1 {
        match body.next_frame(alloc)? {
            Some(frame) => sum = sum.saturating_add(frame.data().len() as u64),
            None => return Ok(sum),
        }
    }
    Err(DumpError::FrameBudget)
}
