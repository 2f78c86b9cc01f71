//! Bodies that a handler reads content by content.
ghost use Rattle.std.specs.Prelude.{◌≡◌, ◌+◌, ◌-◌, ◌<◌, ◌≤◌, ◌↔◌, ◌⊎◌, [], ◌∷◌, true, false, drop};
ghost use Rattle.std.specs.Prelude.{if◌then◌else◌, nat_lt, length, IfOk, IfSome};
ghost use Rattle.std.specs.Prelude.{IsErrOf, IsErr, OnErr, OnOk, is_err};
ghost use Rattle.http_bodies.specs.Bodies.{calls_of, faults_of, frames_of, never_failing, state_of};
ghost use Rattle.http_bodies.specs.Frames.{content_frames};
ghost use Rattle.http_bodies.specs.Sources.{CalledFor, GoesOn, HasFailed};
ghost use Rattle.http_bodies.specs.declared.frame.Frame.TheVariants.{Bytes};
ghost use Rattle.body_reading.specs.Streams.{Advances, InOrder, IsAnswer, IsExcess, IsOver};
ghost use Rattle.body_reading.specs.Streams.{SameLimits, answer_of, closed_stream, contents};
ghost use Rattle.body_reading.specs.Streams.{fresh_stream};
ghost use Rattle.body_reading.specs.Streams.{next_in, next_of, refusal_of, room_of, stream_fault};
ghost use Rattle.body_reading.specs.Streams.{with_content};
ghost use Rattle.body_reading.specs.Whole.{TakesAtMost, TakesRoom};

use crate::flaw::BodyFlaw;
use crate::refusal::StreamRefusal;
use crate::rest::throw_away;
use http_bodies::{Body, Frame, FrameError};
use schema_values::List;
use std::alloc::Global;
use std::marker::Model;

/// A body that is read content by content: at most `cap` bytes in at most `budget` frames.
///
/// Contracts see the body, the cap, the budget, how many bytes and frames came so far, and whether
/// the reader is closed, as it is once a call answered an error. `budget` less `frames` falls with
/// each content that is given, so a loop over `next_data` has it as its measure.
#[derive(Drop)]
pub struct StreamingBody {
    body: Body,
    cap: u64,
    budget: u64,
    sum: u64,
    frames: u64,
    closed: bool,
}

impl Model for StreamingBody {
    ghost use Rattle.body_reading.specs.Streams.{StreamState};

    ghost Value = { StreamState };

    ghost view = { λ s. record {
      body = s.body;
      cap = s.cap;
      budget = s.budget;
      sum = s.sum;
      frames = s.frames;
      closed = s.closed;
    } };
}

impl StreamingBody {
    /// A reader of this body, of which nothing was read.
    pub fn new(body: Body, cap: u64, budget: u64) -> StreamingBody
        ensures { result ≡ fresh_stream body cap budget }
    {
        StreamingBody {
            body,
            cap,
            budget,
            sum: 0,
            frames: 0,
            closed: false,
        }
    }

    /// A reader of this content in one frame, or in none where it is empty. Its cap is the
    /// content's length, its budget one frame.
    pub fn from_bytes(content: List<u8>) -> StreamingBody
        ensures { result
            ≡ fresh_stream (never_failing (content_frames content)) (length content) 1 }
    {
        let cap = content.len() as u64;
        StreamingBody::new(Body::with_content(content), cap, 1)
    }

    /// Takes the next frame with content, and gives that content; none where no such frame is left.
    /// Trailers on the way are passed over, and count as frames.
    ///
    /// An error closes the reader: a call on the body failed, or the content is above the cap, or
    /// there are more frames than the budget; each carries an error 400 without a code. Where the
    /// content is above the cap, the rest of the body is thrown away within the budget first. It
    /// takes memory only for that error.
    pub fn next_data(&mut self, alloc: Global) -> Result<Option<List<u8>>, StreamRefusal>
        // Of an open reader it is told what comes next of the frames, unless a call failed, or
        // there was no memory for a refusal.
        ensures next { self.old.closed ≡ false → IsAnswer (answer_of (next_of self.old)) result }
        ensures memory { IsErrOf result StreamRefusal.OutOfMemory → IsErr (next_of self.old)
            ⊎ HasFailed (state_of self.old.body) (state_of self.new.body) }

        // Contents come in order, none is left out, and there is none exactly where none is left.
        ensures order { IfOk result
            (InOrder (frames_of self.old.body) (frames_of self.new.body)) }
        ensures advances { IfOk result (λ _. Advances self.old self.new) }
        ensures rest { IsExcess result → frames_of self.new.body
            ≡ drop (room_of self.old + 1) (frames_of self.old.body) }

        // An error where the next content is allowed loses none: only trailers were taken.
        ensures lost { OnErr result (IfOk (next_of self.old) (λ _.
            contents (frames_of self.new.body) ≡ contents (frames_of self.old.body))) }

        // However it ends, at most one frame more than may yet come was taken.
        ensures taken { TakesAtMost (room_of self.old + 1) (Some (frames_of self.old.body))
            (Some (frames_of self.new.body)) }

        // It calls the body at most once more than frames may yet come, what it throws away with
        // it, and not again behind the end or an error; and for a content that it gives once for
        // each frame that it counts.
        ensures calls { calls_of self.new.body ≤ calls_of self.old.body + room_of self.old + 1 }
        ensures called { CalledFor (Some (frames_of self.old.body)) (Some (frames_of self.new.body))
            (calls_of self.old.body) (calls_of self.new.body) }
        ensures each { IfOk result (λ next. IfSome next (λ _. calls_of self.new.body
            ≤ calls_of self.old.body + (self.new.frames - self.old.frames))) }

        // A fault comes only where the count of faults rose, and a count that rose is told as that
        // fault, or as want of memory.
        ensures fault { IsErrOf result stream_fault
            → HasFailed (state_of self.old.body) (state_of self.new.body) }
        ensures counts { ¬ IsErrOf result stream_fault → ¬ IsErrOf result StreamRefusal.OutOfMemory
            → faults_of self.new.body ≡ faults_of self.old.body }
        ensures goes_on { GoesOn (state_of self.old.body) (state_of self.new.body) }

        // An error closes the reader, and a closed one stays as it is.
        ensures closed { IsErrOf result StreamRefusal.Closed ↔ (self.old.closed ≡ true) }
        ensures closes { self.new.closed ≡ is_err result }
        ensures stays { self.old.closed ≡ true → self.new ≡ self.old }

        // The limits stay, and a content that is given brings the budget nearer.
        ensures limits { SameLimits self.old self.new }
        ensures nearer { IfOk result (λ next. IfSome next (λ _.
            (self.old.frames < self.new.frames) × (self.new.frames ≤ self.new.budget))) }
    {
        if self.closed {
            return Err(StreamRefusal::Closed);
        }
        match self.next_content(alloc) {
            Ok(content) => Ok(content),
            Err(flaw) => Err(self.refuse(alloc, flaw)),
        }
    }

    // Takes the frames up to the next one with content, and tells what comes next: content, the
    // end, or what is wrong with the body.
    fn next_content(&mut self, alloc: Global) -> Result<Option<List<u8>>, BodyFlaw>
        ensures next { (result ≡ next_of self.old) ⊎ (result ≡ Err BodyFlaw.Fault) }
        ensures order { IfOk result
            (InOrder (frames_of self.old.body) (frames_of self.new.body)) }
        ensures advances { IfOk result (λ _. Advances self.old self.new) }
        ensures rest { IsOver result → drop (room_of self.new) (frames_of self.new.body)
            ≡ drop (room_of self.old + 1) (frames_of self.old.body) }
        ensures lost { IsErrOf result BodyFlaw.Fault
            → contents (frames_of self.new.body) ≡ contents (frames_of self.old.body) }
        ensures taken { TakesAtMost (room_of self.old + 1 - room_of self.new)
            (Some (frames_of self.old.body)) (Some (frames_of self.new.body)) }
        ensures calls { calls_of self.new.body
            ≤ calls_of self.old.body + (room_of self.old + 1 - room_of self.new) }
        ensures each { IfOk result (λ next. IfSome next (λ _. calls_of self.new.body
            ≤ calls_of self.old.body + (self.new.frames - self.old.frames))) }
        ensures called { CalledFor (Some (frames_of self.old.body)) (Some (frames_of self.new.body))
            (calls_of self.old.body) (calls_of self.new.body) }
        ensures paired { IsOver result → calls_of self.new.body + length (frames_of self.new.body)
            ≤ calls_of self.old.body + length (frames_of self.old.body) }
        ensures room { room_of self.new ≤ room_of self.old }
        ensures fault { IsErrOf result BodyFlaw.Fault
            → HasFailed (state_of self.old.body) (state_of self.new.body) }
        ensures counts { ¬ IsErrOf result BodyFlaw.Fault
            → faults_of self.new.body ≡ faults_of self.old.body }
        ensures goes_on { GoesOn (state_of self.old.body) (state_of self.new.body) }
        ensures open { self.new.closed ≡ self.old.closed }
        ensures limits { SameLimits self.old self.new }
        ensures nearer { IfOk result (λ next. IfSome next (λ _.
            (self.old.frames < self.new.frames) × (self.new.frames ≤ self.new.budget))) }
    {
        'passing: loop {
            match self.body.next_frame(alloc) {
                Ok(None) => return Ok(None),
                Ok(Some(Frame::Bytes(content))) => return self.judge(content),
                Ok(Some(Frame::Trailers(_))) => {
                    if self.frames >= self.budget {
                        return Err(BodyFlaw::FrameBudget);
                    }
                    self.frames += 1;
                }
                Err(_) => return Err(BodyFlaw::Fault),
            }
        }
    }

    // Gives the content of a frame that was taken, and counts both, if cap and budget allow.
    fn judge(&mut self, content: List<u8>) -> Result<Option<List<u8>>, BodyFlaw>
        ensures next { result ≡ next_in self.old.cap self.old.sum (room_of self.old)
            (Bytes content ∷ []) }
        ensures given { IfOk result (λ next. next ≡ Some content) }
        ensures counted { OnOk result (self.new ≡ with_content self.old content) }
        ensures within { OnOk result (self.new.frames ≤ self.new.budget) }
        ensures kept { OnErr result (self.new ≡ self.old) }
    {
        let Some(sum) = sum_within(self.cap, self.sum, content.len()) else {
            return Err(BodyFlaw::TooLarge(self.cap));
        };
        if self.frames >= self.budget {
            return Err(BodyFlaw::FrameBudget);
        }
        self.sum = sum;
        self.frames += 1;
        Ok(Some(content))
    }

    // Closes the reader. Where the content is above the cap, the rest is thrown away within the
    // budget first; a frame beyond the budget leaves no room.
    fn refuse(&mut self, alloc: Global, flaw: BodyFlaw) -> StreamRefusal
        ensures told { (result ≡ refusal_of flaw) ⊎ (result ≡ stream_fault)
            ⊎ (result ≡ StreamRefusal.OutOfMemory) }
        ensures rest { IsExcess (Err result) → TakesRoom (room_of self.old)
            (Some (frames_of self.old.body)) (Some (frames_of self.new.body)) }
        ensures taken { TakesAtMost (room_of self.old) (Some (frames_of self.old.body))
            (Some (frames_of self.new.body)) }
        ensures calls { calls_of self.new.body ≤ calls_of self.old.body + room_of self.old }
        ensures called { CalledFor (Some (frames_of self.old.body)) (Some (frames_of self.new.body))
            (calls_of self.old.body) (calls_of self.new.body) }
        ensures unasked { (flaw ≡ BodyFlaw.Fault)
            → calls_of self.new.body ≤ calls_of self.old.body }
        ensures still { (flaw ≡ BodyFlaw.Fault)
            → frames_of self.new.body ≡ frames_of self.old.body }
        ensures fault { result ≡ stream_fault → (flaw ≡ BodyFlaw.Fault)
            ⊎ HasFailed (state_of self.old.body) (state_of self.new.body) }
        ensures counts { ¬ (result ≡ stream_fault) → ¬ (result ≡ StreamRefusal.OutOfMemory)
            → faults_of self.new.body ≡ faults_of self.old.body }
        ensures goes_on { GoesOn (state_of self.old.body) (state_of self.new.body) }
        ensures closed { self.new ≡ closed_stream self.old self.new.body }
    {
        let room = match flaw {
            BodyFlaw::Fault => 0,
            _ => self.budget.saturating_sub(self.frames),
        };
        self.closed = true;
        match throw_away(alloc, &mut self.body, room) {
            Ok(()) => refusal(alloc, flaw),
            Err(FrameError::Failed) => refusal(alloc, BodyFlaw::Fault),
            Err(FrameError::OutOfMemory) => StreamRefusal::OutOfMemory,
        }
    }
}

// The refusal that tells what is wrong with a body, or want of memory.
fn refusal(alloc: Global, flaw: BodyFlaw) -> StreamRefusal
    ensures { (result ≡ refusal_of flaw) ⊎ (result ≡ StreamRefusal.OutOfMemory) }
{
    let Ok(error) = flaw.http_error(alloc) else {
        return StreamRefusal::OutOfMemory;
    };
    match flaw {
        BodyFlaw::Fault => StreamRefusal::Fault(error),
        BodyFlaw::TooLarge(_) => StreamRefusal::TooLarge(error),
        BodyFlaw::FrameBudget => StreamRefusal::FrameBudget(error),
    }
}

// The sum of two counts of bytes, if it is within the cap.
fn sum_within(cap: u64, sum: u64, more: usize) -> Option<u64>
    ensures { result ≡ (if nat_lt cap (sum + more) then None else Some (sum + more)) }
{
    let sum = sum.checked_add(more as u64)?;
    if sum > cap { None } else { Some(sum) }
}
