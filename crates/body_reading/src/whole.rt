//! Bodies that are read whole.
ghost use Rattle.std.specs.Prelude.{◌≡◌, ◌+◌, ◌-◌, ◌^◌, ◌<◌, ◌≤◌, ◌⊎◌, ◌++◌, IfSome};
ghost use Rattle.std.specs.Prelude.{ℕ, [], IsErrOf, IsOk, OnOk, Err, length};
ghost use Rattle.http_bodies.specs.Frames.{data_of};
ghost use Rattle.http_bodies.specs.Sources.{CalledFor, GoesOn, HasFailed};
ghost use Rattle.body_reading.specs.Whole.{HasContent, IsCutShort, Reads, TakesAtMost, TakesRoom, whole};

use crate::rest::throw_away;
use http_bodies::{Frame, FrameError, FrameSource};
use schema_values::List;
use std::alloc::{AllocError, Global};
use std::fmt;
use thiserror::Error;

/// Why a body was not read whole.
#[derive(Clone, Copy, Debug, Drop, PartialEq, Eq, Error)]
pub enum BodyError {
    /// A call on the body failed.
    BodyFault,
    /// The content is above the limit: so many bytes came by the first frame that passed it, or
    /// 2^64-1 where those are more.
    BodyTooLarge(u64),
    /// More frames came than the budget allows: so many.
    FrameBudget(u64),
    /// There was not enough memory.
    OutOfMemory,
}

/// Writes why the body was not read whole.
impl fmt::Display for BodyError {
    ghost use Rattle.std.specs.Prelude.{Some};
    ghost use Rattle.body_reading.specs.Texts.{body_error_text};

    ghost output = { λ error. Some (body_error_text error) };

    fn fmt<W: fmt::Write>(&self, f: &mut fmt::Formatter<W>) -> fmt::Result {
        match self {
            BodyError::BodyFault => f.write_str("reading the body failed"),
            BodyError::BodyTooLarge(sum) => write!(f, "the body is too large: {sum} bytes came"),
            BodyError::FrameBudget(count) => write!(f, "more frames than allowed: {count} came"),
            BodyError::OutOfMemory => f.write_str("out of memory"),
        }
    }
}

impl From<AllocError> for BodyError {
    ghost use Rattle.std.specs.Prelude.{◌≡◌};
    ghost use Rattle.body_reading.specs.declared.whole.BodyError.TheVariants.{OutOfMemory};

    ghost from_gives = { λ _ error. error ≡ OutOfMemory };

    fn from(_: AllocError) -> BodyError {
        BodyError::OutOfMemory
    }
}

impl From<FrameError> for BodyError {
    ghost use Rattle.std.specs.Prelude.{◌≡◌};
    ghost use Rattle.body_reading.specs.Whole.{body_error_of};

    ghost from_gives = { λ error reading. reading ≡ body_error_of error };

    fn from(error: FrameError) -> BodyError {
        match error {
            FrameError::Failed => BodyError::BodyFault,
            FrameError::OutOfMemory => BodyError::OutOfMemory,
        }
    }
}

/// Reads a body to its end: at most `limit` bytes of content, in at most `budget` frames. Trailers
/// are frames without content.
///
/// Where the content is above the limit, the rest is thrown away within the budget, and the answer
/// is `BodyTooLarge`, however many frames there are. The source is called at most `budget` + 1
/// times: the end may be learnt by one call behind the last frame that is allowed.
pub fn read_whole<S: FrameSource>(
    alloc: Global,
    source: &mut S,
    limit: u64,
    budget: u64,
) -> Result<List<u8>, BodyError>
    requires { budget < 2 ^ 64 - 1 }

    // The answer on a source that tells its frames: what these frames call for, unless a call
    // failed or memory ran out.
    ensures outcome { IfSome (S.state source.old).left (λ frames.
        IsCutShort result ⊎ (result ≡ whole limit budget frames)) }

    // What came of any source, at most one frame more than the budget, and what the answer tells
    // of it: content, size and number of frames, each with its cause.
    ensures came { Reads limit budget (S.state source.old).left (S.state source.new).left result }

    // A size is told of a limit below 2^64-1 alone: this one is never passed.
    ensures below { (sum : ℕ) → result ≡ Err (BodyError.BodyTooLarge sum) → limit < 2 ^ 64 - 1 }

    // A fault comes only where the count of faults rose, and a count that rose is told as that
    // fault.
    ensures fault { IsErrOf result BodyError.BodyFault
        → HasFailed (S.state source.old) (S.state source.new) }
    ensures counts { ¬ IsErrOf result BodyError.BodyFault
        → (S.state source.new).faults ≡ (S.state source.old).faults }
    ensures goes_on { GoesOn (S.state source.old) (S.state source.new) }

    // It calls the source at most once more than the budget, what it throws away with it, and one
    // that tells its frames not again behind the end or an error.
    ensures calls { S.calls source.new ≤ S.calls source.old + budget + 1 }
    ensures called { CalledFor (S.state source.old).left (S.state source.new).left
        (S.calls source.old) (S.calls source.new) }

    // Memory runs out only where the source may want some, or some frame has content.
    ensures memory { IsErrOf result BodyError.OutOfMemory
        → S.asks source.old ⊎ HasContent (S.state source.old).left }
{
    let mut content = Vec::new(alloc);
    for count in 0..budget + 1 {
        let Some(frame) = source.next_frame(alloc)? else {
            return Ok(List::from_vec(content));
        };
        let sum = sum_of(&content, frame.data());
        if sum > limit {
            return Err(too_large(alloc, source, sum, budget - count));
        }
        append(&mut content, frame)?;
    }
    Err(BodyError::FrameBudget(budget + 1))
}

// How many bytes two slices in memory have together.
fn sum_of(front: &[u8], back: &[u8]) -> u64
    ensures { result ≡ length front.now + length back.now }
{
    front.len() as u64 + back.len() as u64
}

// Puts the content of a frame behind what came before. The first content is not copied, so it takes
// no memory.
fn append(content: &mut Vec<u8>, frame: Frame) -> Result<(), AllocError>
    ensures content { OnOk result (content.new.items ≡ content.old.items ++ data_of frame) }
    ensures none { content.old.items ≡ [] → IsOk result }
{
    match frame {
        Frame::Bytes(bytes) => {
            if content.is_empty() {
                *content = bytes.into_vec();
                return Ok(());
            }
            content.extend_from_slice(bytes.as_slice())
        }
        Frame::Trailers(_) => Ok(()),
    }
}

// What is answered on a content above the limit, of so many bytes so far, once `room` frames more
// came, or the end.
fn too_large<S: FrameSource>(alloc: Global, source: &mut S, sum: u64, room: u64) -> BodyError
    ensures told { IsCutShort (Err result) ⊎ (result ≡ BodyError.BodyTooLarge sum) }
    ensures most { TakesAtMost room (S.state source.old).left (S.state source.new).left }
    ensures rest { (result ≡ BodyError.BodyTooLarge sum)
        → TakesRoom room (S.state source.old).left (S.state source.new).left }
    ensures fault { result ≡ BodyError.BodyFault
        → HasFailed (S.state source.old) (S.state source.new) }
    ensures counts { ¬ (result ≡ BodyError.BodyFault)
        → (S.state source.new).faults ≡ (S.state source.old).faults }
    ensures goes_on { GoesOn (S.state source.old) (S.state source.new) }
    ensures calls { S.calls source.new ≤ S.calls source.old + room }
    ensures called { CalledFor (S.state source.old).left (S.state source.new).left
        (S.calls source.old) (S.calls source.new) }
    ensures memory { result ≡ BodyError.OutOfMemory → S.asks source.old }
{
    match throw_away(alloc, source, room) {
        Ok(()) => BodyError::BodyTooLarge(sum),
        Err(error) => BodyError::from(error),
    }
}
