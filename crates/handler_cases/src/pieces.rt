//! A source of frames of one's own: a content that is cut into pieces of a length. The content of a
//! case stands under `"content"`, none where it is left out, and the length under `"piece"`, 4 where
//! it is left out. `"fails_at"` is the number, from 0, of the call that fails, if one does.
use case_notation::CaseError;
use endpoint_notation::{number_or, u64_of};
use http_bodies::{Frame, FrameError, FrameSource};
use schema_values::{Json, List};
use std::alloc::Global;

/// A content in pieces of a length. It tells nothing of what is left.
#[derive(Drop)]
pub struct Pieces<'c> {
    left: &'c [u8],
    length: u64,
    calls: u64,
    fails_at: Option<u64>,
    faults: u64,
}

impl Pieces<'_> {
    /// How many bytes were not given.
    pub fn unread(&self) -> u64 {
        self.left.len() as u64
    }
}

/// The pieces of a content, as a case says.
pub fn pieces_of<'c>(case: &Json, content: &'c [u8]) -> Result<Pieces<'c>, CaseError> {
    let fails_at = match case.get("fails_at") {
        Some(call) => Some(u64_of(call)?),
        None => None,
    };
    Ok(Pieces {
        left: content,
        length: number_or(case, "piece", 4)?,
        calls: 0,
        fails_at,
        faults: 0,
    })
}

// Whether the call that comes now is the one that fails. Counts it.
fn is_failing(calls: &mut u64, fails_at: Option<u64>) -> bool {
    let call = *calls;
    *calls = call.saturating_add(1);
    fails_at == Some(call)
}

// A piece of so many bytes at most, and what is behind it.
fn cut(content: &[u8], length: u64) -> (&[u8], &[u8]) {
    match usize::try_from(length) {
        Ok(length) if length < content.len() => content.split_at(length),
        _ => (content, &[]),
    }
}

impl<'c> FrameSource for Pieces<'c> {
    ghost use Rattle.std.specs.Prelude.{None, true};

    ghost state = { λ s. record { left = None; faults = s.faults; can_fail = true } };

    fn next_frame(&mut self, alloc: Global) -> Result<Option<Frame>, FrameError> {
        if is_failing(&mut self.calls, self.fails_at) {
            self.faults = self.faults.saturating_add(1);
            return Err(FrameError::Failed);
        }
        let (piece, left) = cut(self.left, self.length);
        if piece.is_empty() {
            return Ok(None);
        }
        match List::from_bytes(alloc, piece) {
            Ok(bytes) => {
                self.left = left;
                Ok(Some(Frame::Bytes(bytes)))
            }
            Err(_) => Err(FrameError::OutOfMemory),
        }
    }
}
