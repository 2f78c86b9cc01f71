//! Bodies of frames in memory.
ghost use Rattle.std.specs.Prelude.{◌≡◌, ◌+◌, ◌≤◌, [], Some, IfOk, IsErrOf, OnErr, is_err};
ghost use Rattle.std.specs.Prelude.{option_to_list};
ghost use Rattle.http_bodies.specs.Bodies.{after_body_call, calls_of, failing, fails_next};
ghost use Rattle.http_bodies.specs.Bodies.{faults_of, frames_of, never_failing, state_of};
ghost use Rattle.http_bodies.specs.Frames.{content_frames};
ghost use Rattle.http_bodies.specs.Sources.{GivesFrame, GoesOn, HasFailed};

use crate::frame::{Frame, FrameError, FrameSource};
use crate::memory::{MemoryFrames, SafeFrames};
use schema_values::List;
use std::alloc::Global;
use std::marker::Model;
use std::mem;

// Where the frames of a body lie.
#[derive(Drop)]
enum Held {
    Nothing,
    Content(List<u8>),
    Frames(SafeFrames),
    Faulty(MemoryFrames),
}

/// A body: frames in memory, of which the first that is left is taken next (RFC 9110, section 6.4).
///
/// Contracts see the frames that are left, and, where some of its calls fail, the numbers of those
/// and how many calls and faults were counted. It holds no box, so that a handler behind a box can
/// take one and give one. A boxed source, or one of a user's own, is a `FrameSource` itself.
#[derive(Drop)]
pub struct Body {
    held: Held,
}

impl Model for Body {
    ghost use Rattle.http_bodies.specs.Bodies.{BodyState, held_body};

    ghost Value = { BodyState };

    ghost view = { λ body. held_body body.held };
}

impl Body {
    /// A body without frames.
    pub fn empty() -> Body
        ensures { result ≡ never_failing [] }
    {
        Body {
            held: Held::Nothing,
        }
    }

    /// A body of one frame with this content, or of none where the content is empty.
    pub fn with_content(content: List<u8>) -> Body
        ensures { result ≡ never_failing (content_frames content) }
    {
        Body {
            held: Held::Content(content),
        }
    }

    /// A body of these frames, whose calls never fail.
    pub fn with_frames(frames: SafeFrames) -> Body
        ensures { result ≡ never_failing frames }
    {
        Body {
            held: Held::Frames(frames),
        }
    }

    /// A body of these frames, some of whose calls fail. It counts on from its source's calls and
    /// faults.
    pub fn with_faults(frames: MemoryFrames) -> Body
        ensures { result ≡ failing frames }
    {
        Body {
            held: Held::Faulty(frames),
        }
    }

    /// Takes the first frame that is left, and gives it; none exactly where no frame is left. After
    /// an error nothing was taken. It takes no memory, and the same time for each frame, but for
    /// the search of `MemoryFrames` for the calls that fail.
    pub fn next_frame(&mut self, alloc: Global) -> Result<Option<Frame>, FrameError>
        ensures gives { IfOk result (λ given.
            GivesFrame (Some (frames_of self.old)) given (Some (frames_of self.new))) }
        ensures kept { OnErr result (frames_of self.new ≡ frames_of self.old) }

        // A fault comes only where the count of faults rose, and a count that rose is told as that
        // fault.
        ensures failed { IsErrOf result FrameError.Failed
            → HasFailed (state_of self.old) (state_of self.new) }
        ensures counts { ¬ IsErrOf result FrameError.Failed
            → faults_of self.new ≡ faults_of self.old }
        ensures goes_on { GoesOn (state_of self.old) (state_of self.new) }

        // It fails at the calls that its frames were told and at no other, so that a body without
        // such calls never fails. Beside the frames only the counts of calls and faults change.
        ensures exactly { is_err result ≡ fails_next self.old }
        ensures fault { OnErr result (IsErrOf result FrameError.Failed) }
        ensures after { self.new ≡ after_body_call self.old (frames_of self.new) }
        ensures once { calls_of self.new ≤ calls_of self.old + 1 }
    {
        match &mut self.held {
            Held::Nothing => Ok(None),
            Held::Content(content) => Ok(content_frame(alloc, content)),
            Held::Frames(frames) => frames.next_frame(alloc),
            Held::Faulty(frames) => frames.next_frame(alloc),
        }
    }
}

// The frame of this content, if it has bytes. Leaves no byte.
fn content_frame(alloc: Global, content: &mut List<u8>) -> Option<Frame>
    ensures taken { content.new ≡ [] }
    ensures frame { option_to_list result ≡ content_frames content.old }
{
    let bytes = mem::replace(content, List::new(alloc));
    if bytes.is_empty() {
        return None;
    }
    Some(Frame::Bytes(bytes))
}

impl FrameSource for Body {
    ghost state = { state_of };

    ghost calls = { calls_of };

    ghost asks = { λ _. ⊥ };

    fn next_frame(&mut self, alloc: Global) -> Result<Option<Frame>, FrameError> {
        Body::next_frame(self, alloc)
    }
}
