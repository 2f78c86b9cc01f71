//! The body of a response, read whole.
ghost use Rattle.std.specs.Prelude.{◌≡◌, ◌+◌, ◌-◌, ◌<◌, ◌≤◌, ◌^◌, ◌++◌, Some, IfOk, IsErrOf, OnOk};
ghost use Rattle.http_bodies.specs.Bodies.{calls_of, frames_of};
ghost use Rattle.http_bodies.specs.Frames.{all_data, data_of};
ghost use Rattle.http_bodies.specs.Sources.{CalledFor};
ghost use Rattle.reply_lines.specs.ResponseBodies.{FailsWithin, HasMoreFrames, IsReadWhole, TakesFirst};

use http_bodies::{Body, Frame, FrameError};
use schema_values::List;
use std::alloc::{AllocError, Global};

/// Why the body of a response was not read whole.
#[derive(Clone, Copy, Debug, PartialEq, Eq)]
pub(crate) enum ContentError {
    /// A call on the body failed.
    BodyFault,
    /// It has more frames than the budget.
    FrameBudget,
    /// There was not enough memory.
    OutOfMemory,
}

impl From<AllocError> for ContentError {
    ghost use Rattle.std.specs.Prelude.{◌≡◌};
    ghost use Rattle.reply_lines.specs.declared.response_body.ContentError.TheVariants.{OutOfMemory};

    ghost from_gives = { λ _ error. error ≡ OutOfMemory };

    fn from(_: AllocError) -> ContentError {
        ContentError::OutOfMemory
    }
}

/// The content of a body of at most `budget` frames. Takes a frame by each call, and makes one call
/// more, which gives the end, or a frame above the budget. The first call that fails is the last.
pub(crate) fn read_content(
    alloc: Global,
    body: &mut Body,
    budget: u64,
) -> Result<List<u8>, ContentError>
    requires { budget < 2 ^ 64 - 1 }
    ensures whole { IfOk result (λ content.
        IsReadWhole budget body.old × (content ≡ all_data (frames_of body.old))) }
    ensures fault { IsErrOf result ContentError.BodyFault → FailsWithin budget body.old }
    ensures over { IsErrOf result ContentError.FrameBudget → HasMoreFrames budget body.old }
    ensures taken { TakesFirst (budget + 1) body.old body.new }
    ensures calls { calls_of body.new ≤ calls_of body.old + budget + 1 }
    ensures called { CalledFor (Some (frames_of body.old)) (Some (frames_of body.new))
        (calls_of body.old) (calls_of body.new) }
{
    let mut content = Vec::new(alloc);
    for _ in 0..budget + 1 {
        match body.next_frame(alloc) {
            Ok(Some(frame)) => append(&mut content, frame)?,
            Ok(None) => return Ok(List::from_vec(content)),
            Err(FrameError::Failed) => return Err(ContentError::BodyFault),
            Err(FrameError::OutOfMemory) => return Err(ContentError::OutOfMemory),
        }
    }
    Err(ContentError::FrameBudget)
}

// Puts the content of a frame behind what came before. The first content is not copied.
fn append(content: &mut Vec<u8>, frame: Frame) -> Result<(), AllocError>
    ensures { OnOk result (content.new.items ≡ content.old.items ++ data_of frame) }
{
    match frame {
        Frame::Bytes(bytes) => {
            if content.is_empty() {
                *content = bytes.into_vec();
                return Ok(());
            }
            content.extend_from_slice(bytes.as_slice())
        }
        Frame::Trailers(_) => Ok(()),
    }
}
