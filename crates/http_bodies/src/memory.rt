//! Frames in memory: with a list of calls that fail, or with none.
ghost use Rattle.std.specs.Prelude.{◌≡◌, ◌+◌, ◌≤◌, Some, IfOk, IsErrOf, IsOk, OnErr, is_err};
ghost use Rattle.http_bodies.specs.Bodies.{failing, never_failing, state_of};
ghost use Rattle.http_bodies.specs.Memory.{after_frame_call, fresh_frames, is_failing, one_more};
ghost use Rattle.http_bodies.specs.Sources.{GivesFrame, GoesOn, HasFailed};

use crate::frame::{Frame, FrameError, FrameSource};
use schema_values::List;
use std::alloc::{AllocError, Global};
use std::collections::VecDeque;
use std::marker::Model;

/// Frames that come by calls which never fail. Contracts see the frames that are left.
#[derive(Drop)]
pub struct SafeFrames {
    frames: VecDeque<Frame>,
}

/// Frames, and the numbers, from 0, of the calls that fail. Calls after the first 2^64-1 do not
/// fail.
#[derive(Drop)]
pub struct MemoryFrames {
    frames: VecDeque<Frame>,
    failing: List<u64>,
    calls: u64,
    faults: u64,
}

impl Model for SafeFrames {
    ghost use Rattle.std.specs.Prelude.{List};
    ghost use Rattle.http_bodies.specs.declared.frame.Frame.{Frame};

    ghost Value = { List Frame };

    ghost view = { λ s. s.frames.items };
}

impl Model for MemoryFrames {
    ghost use Rattle.http_bodies.specs.Memory.{FrameMemory};

    ghost Value = { FrameMemory };

    ghost view = { λ s. record {
      frames = s.frames.items;
      failing = s.failing;
      calls = s.calls;
      faults = s.faults;
    } };
}

impl SafeFrames {
    /// A source of these frames.
    pub fn new(frames: List<Frame>) -> Self
        ensures { result ≡ frames }
    {
        SafeFrames {
            frames: VecDeque::from(frames.into_vec()),
        }
    }

    /// A source of the same frames as are left here. Fails only for want of memory.
    pub fn copy(&self, alloc: Global) -> Result<SafeFrames, AllocError>
        ensures { IfOk result (λ copy. copy ≡ self.now) }
    {
        Ok(SafeFrames {
            frames: copy_frames(alloc, &self.frames)?,
        })
    }
}

impl MemoryFrames {
    /// A source of these frames whose calls of these numbers fail.
    pub fn new(frames: List<Frame>, failing: List<u64>) -> Self
        ensures { result ≡ fresh_frames frames failing }
    {
        MemoryFrames {
            frames: VecDeque::from(frames.into_vec()),
            failing,
            calls: 0,
            faults: 0,
        }
    }

    /// A source of the same frames as are left here, with the same calls that fail, and the same
    /// counts. Fails only for want of memory.
    pub fn copy(&self, alloc: Global) -> Result<MemoryFrames, AllocError>
        ensures { IfOk result (λ copy. copy ≡ self.now) }
    {
        let failing = List::from_vec(self.failing.as_slice().to_vec(alloc)?);
        Ok(MemoryFrames {
            frames: copy_frames(alloc, &self.frames)?,
            failing,
            calls: self.calls,
            faults: self.faults,
        })
    }
}

// The same frames.
fn copy_frames(alloc: Global, frames: &VecDeque<Frame>) -> Result<VecDeque<Frame>, AllocError>
    ensures { IfOk result (λ copies. copies.items ≡ frames.now.items) }
{
    let mut copies = VecDeque::with_capacity(alloc, frames.len())?;
    for frame in frames {
        copies.push_back(frame.copy(alloc)?)?;
    }
    Ok(copies)
}

// Whether the call with this number is one of those that fail. Counts the call.
fn is_failing(failing: &[u64], calls: &mut u64) -> bool
    ensures answer { result ≡ is_failing failing.now calls.old }
    ensures counted { calls.new ≡ one_more calls.old }
{
    let number = *calls;
    if number == u64::MAX {
        return false;
    }
    *calls = number + 1;
    failing.contains(&number)
}

impl FrameSource for SafeFrames {
    ghost state = { λ frames. state_of (never_failing frames) };

    ghost asks = { λ _. ⊥ };

    /// It takes no memory, and the same time for each frame.
    fn next_frame(&mut self, _alloc: Global) -> Result<Option<Frame>, FrameError>
        ensures gives { IfOk result (λ given. GivesFrame (Some self.old) given (Some self.new)) }
        ensures always { IsOk result }
    {
        Ok(self.frames.pop_front())
    }
}

impl FrameSource for MemoryFrames {
    ghost state = { λ memory. state_of (failing memory) };

    ghost calls = { λ memory. memory.calls };

    ghost asks = { λ _. ⊥ };

    /// It takes no memory, and the same time for each frame, but for the search among the numbers
    /// of the calls that fail.
    fn next_frame(&mut self, _alloc: Global) -> Result<Option<Frame>, FrameError>
        ensures gives { IfOk result (λ given.
            GivesFrame (Some self.old.frames) given (Some self.new.frames)) }
        ensures kept { OnErr result (self.new.frames ≡ self.old.frames) }
        ensures failed { IsErrOf result FrameError.Failed
            → HasFailed (state_of (failing self.old)) (state_of (failing self.new)) }
        ensures counts { ¬ IsErrOf result FrameError.Failed → self.new.faults ≡ self.old.faults }
        ensures goes_on { GoesOn (state_of (failing self.old)) (state_of (failing self.new)) }

        // It fails at these calls and at no other, and the count rises by each.
        ensures exactly { is_err result ≡ is_failing self.old.failing self.old.calls }
        ensures fault { OnErr result (IsErrOf result FrameError.Failed) }
        ensures after { self.new ≡ after_frame_call self.old self.new.frames }
        ensures once { self.new.calls ≤ self.old.calls + 1 }
    {
        if is_failing(self.failing.as_slice(), &mut self.calls) {
            self.faults = self.faults.saturating_add(1);
            return Err(FrameError::Failed);
        }
        Ok(self.frames.pop_front())
    }
}
