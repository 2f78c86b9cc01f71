//! Frames of a body, and what gives them in turn.
ghost use Rattle.std.specs.Prelude.{◌≡◌, ◌+◌, ◌≤◌, IfOk, IsErrOf, OnErr};
ghost use Rattle.http_bodies.specs.Frames.{data_of};
ghost use Rattle.http_bodies.specs.Sources.{GivesFrame, GoesOn, HasFailed};

use header_lists::HeaderList;
use schema_values::List;
use std::alloc::{AllocError, Global};
use std::fmt;
use thiserror::Error;

/// A piece of a body: content, or header lines behind all content (RFC 9110, sections 6.4 and 6.5).
#[derive(Drop)]
pub enum Frame {
    /// Bytes of the content.
    Bytes(List<u8>),
    /// Header lines.
    Trailers(HeaderList),
}

impl Frame {
    /// The bytes of content in the frame. Trailers have none.
    pub fn data(&self) -> &[u8]
        ensures { result.now ≡ data_of self.now }
    {
        match self {
            Frame::Bytes(bytes) => bytes.as_slice(),
            Frame::Trailers(_) => &[],
        }
    }

    /// A frame equal to this one. Fails only for want of memory.
    pub fn copy(&self, alloc: Global) -> Result<Frame, AllocError>
        ensures { IfOk result (λ copy. copy ≡ self.now) }
    {
        match self {
            Frame::Bytes(bytes) => Ok(Frame::Bytes(List::from_bytes(alloc, bytes.as_slice())?)),
            Frame::Trailers(lines) => Ok(Frame::Trailers(lines.copy(alloc)?)),
        }
    }
}

/// Why no frame was given.
#[derive(Clone, Copy, Debug, Drop, PartialEq, Eq, Error)]
pub enum FrameError {
    /// The source failed.
    Failed,
    /// There was not enough memory.
    OutOfMemory,
}

/// Writes why no frame was given.
impl fmt::Display for FrameError {
    ghost use Rattle.std.specs.Prelude.{Some};
    ghost use Rattle.http_bodies.specs.Texts.{frame_error_text};

    ghost output = { λ error. Some (frame_error_text error) };

    fn fmt<W: fmt::Write>(&self, f: &mut fmt::Formatter<W>) -> fmt::Result {
        f.write_str(match self {
            FrameError::Failed => "reading the body failed",
            FrameError::OutOfMemory => "out of memory",
        })
    }
}

/// Gives frames in turn. A box of a `FrameSource` is one too.
pub trait FrameSource: Drop {
    ghost use Rattle.std.specs.Prelude.{ℕ, ⊤};
    ghost use Rattle.http_bodies.specs.Frames.{SourceState};

    /// The frames that are left, where the source tells them; how often it has failed; whether it
    /// can fail.
    ghost state: { Self → SourceState };

    /// How often it was called, where it counts that.
    ghost calls: { Self → ℕ } = { λ _. 0 };

    /// That a call may want memory. Where this is not given, it may.
    ghost asks: { Self → Type 0 } = { λ _. ⊤ };

    /// Takes the first frame that is left, and gives it; none exactly where no frame is left. After
    /// an error nothing was taken.
    fn next_frame(&mut self, alloc: Global) -> Result<Option<Frame>, FrameError>
        ensures gives { IfOk result (λ given.
            GivesFrame (state self.old).left given (state self.new).left) }
        ensures kept { OnErr result ((state self.new).left ≡ (state self.old).left) }

        // A fault comes only where the count of faults rose, and a count that rose is told as that
        // fault.
        ensures failed { IsErrOf result FrameError.Failed
            → HasFailed (state self.old) (state self.new) }
        ensures counts { ¬ IsErrOf result FrameError.Failed
            → (state self.new).faults ≡ (state self.old).faults }
        ensures goes_on { GoesOn (state self.old) (state self.new) }

        // Whatever it answers, it counts as one call at most.
        ensures once { calls self.new ≤ calls self.old + 1 }

        // Memory runs out only where it may want some, and a source that never does stays so.
        ensures memory { IsErrOf result FrameError.OutOfMemory → asks self.old }
        ensures spared { asks self.new → asks self.old };
}

impl FrameSource for Box<dyn FrameSource> {
    ghost state = { λ b. (FrameSource-box b).state b.value };

    ghost calls = { λ b. (FrameSource-box b).calls b.value };

    ghost asks = { λ b. (FrameSource-box b).asks b.value };

    fn next_frame(&mut self, alloc: Global) -> Result<Option<Frame>, FrameError> {
        (**self).next_frame(alloc)
    }
}
