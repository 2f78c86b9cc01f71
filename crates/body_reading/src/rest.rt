//! The rest of a body, which is thrown away.
ghost use Rattle.std.specs.Prelude.{◌≡◌, ◌+◌, ◌≤◌, IsErrOf, OnOk};
ghost use Rattle.http_bodies.specs.Sources.{CalledFor, GoesOn, HasFailed};
ghost use Rattle.body_reading.specs.Whole.{TakesAtMost, TakesRoom};

use http_bodies::{DumpError, FrameError, FrameSource, http_dump_body};
use std::alloc::Global;

/// Throws away so many frames of a body, or all that are left where these are fewer.
pub fn throw_away<S: FrameSource>(
    alloc: Global,
    source: &mut S,
    room: u64,
) -> Result<(), FrameError>
    ensures most { TakesAtMost room (S.state source.old).left (S.state source.new).left }
    ensures all { OnOk result (TakesRoom room (S.state source.old).left (S.state source.new).left) }
    ensures fault { IsErrOf result FrameError.Failed
        → HasFailed (S.state source.old) (S.state source.new) }
    ensures counts { ¬ IsErrOf result FrameError.Failed
        → (S.state source.new).faults ≡ (S.state source.old).faults }
    ensures goes_on { GoesOn (S.state source.old) (S.state source.new) }
    ensures calls { S.calls source.new ≤ S.calls source.old + room }
    ensures called { CalledFor (S.state source.old).left (S.state source.new).left
        (S.calls source.old) (S.calls source.new) }

    // It takes no memory itself.
    ensures memory { IsErrOf result FrameError.OutOfMemory → S.asks source.old }
{
    if room == 0 {
        return Ok(());
    }
    match http_dump_body(alloc, source, room - 1) {
        Ok(_) | Err(DumpError::FrameBudget) => Ok(()),
        Err(DumpError::Failed) => Err(FrameError::Failed),
        Err(DumpError::OutOfMemory) => Err(FrameError::OutOfMemory),
    }
}
