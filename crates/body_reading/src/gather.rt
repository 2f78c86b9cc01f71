//! Frames of any source, gathered in memory.
ghost use Rattle.std.specs.Prelude.{◌≡◌, ◌+◌, ◌-◌, ◌^◌, ◌<◌, ◌≤◌, [], ◌∷◌, IfOk};
ghost use Rattle.http_bodies.specs.Bodies.{failing};
ghost use Rattle.http_bodies.specs.Memory.{fresh_frames};
ghost use Rattle.http_bodies.specs.Sources.{CalledFor, GoesOn};
ghost use Rattle.body_reading.specs.Gathered.{GathersInto};
ghost use Rattle.body_reading.specs.Whole.{TakesAtMost};

use http_bodies::{Body, Frame, FrameError, FrameSource, MemoryFrames, SafeFrames};
use schema_values::List;
use std::alloc::{AllocError, Global};

/// A body of the frames of a source, at most one more than the budget: as many as a reader with
/// this budget looks at. Where a call on the source fails, none is made after it, and the body
/// fails at the same place. Fails only for want of memory; the frames that came are lost then.
pub fn gather_frames<S: FrameSource>(
    alloc: Global,
    source: &mut S,
    budget: u64,
) -> Result<Body, AllocError>
    requires { budget < 2 ^ 64 - 1 }

    // The frames that came, with the end behind them, or a call that failed.
    ensures gathered { IfOk result (λ body.
        GathersInto budget (S.state source.old) (S.state source.new) body) }

    // However it ends, at most one frame more than the budget was taken.
    ensures most { TakesAtMost (budget + 1) (S.state source.old).left (S.state source.new).left }
    ensures goes_on { GoesOn (S.state source.old) (S.state source.new) }

    // It calls the source at most once more than the budget, and one that tells its frames not again
    // behind the end or an error.
    ensures calls { S.calls source.new ≤ S.calls source.old + budget + 1 }
    ensures called { CalledFor (S.state source.old).left (S.state source.new).left
        (S.calls source.old) (S.calls source.new) }
{
    let mut frames = List::new(alloc);
    for count in 0..budget + 1 {
        match source.next_frame(alloc) {
            Ok(Some(frame)) => frames.push(frame)?,
            Ok(None) => break,
            Err(FrameError::Failed) => return failing_behind(alloc, frames, count),
            Err(FrameError::OutOfMemory) => return Err(AllocError),
        }
    }
    Ok(Body::with_frames(SafeFrames::new(frames)))
}

// A body of these frames, and of a call of this number that fails.
fn failing_behind(alloc: Global, frames: List<Frame>, count: u64) -> Result<Body, AllocError>
    ensures { IfOk result (λ body. body ≡ failing (fresh_frames frames (count ∷ []))) }
{
    let mut calls = List::new(alloc);
    calls.push(count)?;
    Ok(Body::with_faults(MemoryFrames::new(frames, calls)))
}
