//! A session over any answering of lines: a front is written, and then the reply to each line.
ghost use Rattle.std.specs.Prelude.{◌≡◌, ◌⊎◌, Some, ◌+◌, ◌-◌, ◌^◌, ◌<◌, ◌≤◌, List as ListOf, ℕ, take, IfOk};
ghost use Rattle.std.specs.Prelude.{OnOk, OnErr, IfErr, IsErrOf};
ghost use Rattle.schema_values.specs.Causes.{HasRisen};
ghost use Rattle.line_session.specs.Calls.{IsRepliedBy, IsServedBy};
ghost use Rattle.line_session.specs.Lines.{HasLongLine, IsTooMuch, PassesNoLimit};
ghost use Rattle.line_session.specs.Session.{Replied, PartReplied, IsAnswered};
ghost use Rattle.line_session.specs.Status.{CountsFaults, IsServed, MeetsLimits, lost_at, status_of};

use crate::ends::{Sink, SinkError, Source};
use crate::line_reader::{LineReader, NextLine};
use crate::writing::{write_all, write_line};
use schema_values::List;
use std::alloc::{AllocError, Global};

/// What answers lines. It may choose among replies, and each line goes on from the state that the line before
/// left.
pub trait Answering {
    /// What is carried from line to line.
    type State;

    /// Memory that is used again from line to line, and of which no contract speaks.
    type Room: Drop;

    /// What has to hold before a line can be answered; it goes on holding.
    ghost can_answer: { Self → Type 0 };

    /// From a state the line may be answered by this reply, which leaves that state.
    ghost answers: { Self → Self.State → ListOf ℕ → ListOf ℕ → Self.State → Type 0 };

    /// From a state the line may be answered by a reply that is lost before it stands in bytes, which leaves
    /// that state.
    ghost lost: { Self → Self.State → ListOf ℕ → Self.State → Type 0 };

    /// The room for a session. Fails only for want of memory.
    fn room(&self, alloc: Global) -> Result<Self::Room, AllocError>;

    /// The reply to a line, without a newline. Fails only for want of memory: then the line was not answered,
    /// or it was and the reply is lost.
    fn answer(
        &self,
        alloc: Global,
        room: &mut Self::Room,
        state: &mut Self::State,
        line: &[u8],
    ) -> Result<List<u8>, AllocError>
        requires { can_answer self.now }
        ensures ok { IfOk result (λ reply. answers self.now state.old line.now reply state.new) }
        ensures err { OnErr result ((state.new ≡ state.old)
            ⊎ lost self.now state.old line.now state.new) };
}

/// How a session ended.
#[derive(Clone, Copy, Debug, Drop, PartialEq, Eq)]
pub enum SessionEnd {
    /// The input was read to its end, and every line answered.
    Done,
    /// The source failed. The lines that ended before were answered.
    ReadFault,
    /// The sink failed. It took a part of the front and the replies, from their beginning.
    WriteFault,
    /// A line is longer than allowed; with the number of bytes at which that showed.
    LineTooLong(u64),
    /// There are more bytes than allowed; with the number of bytes at which that showed.
    TooMuchInput(u64),
    /// Memory ran out. The sink took a part of the front and the replies, from their beginning.
    OutOfMemory,
}

// Answers a line.
fn answer<A: Answering, K: Sink>(
    alloc: Global,
    answering: &A,
    room: &mut A::Room,
    state: &mut A::State,
    line: &[u8],
    sink: &mut K,
) -> Result<(), SinkError>
    requires { A.can_answer answering.now }
    ensures ok { OnOk result (Replied (A.answers answering.now) (K.taken sink.old)
        (K.taken sink.new) state.old line.now state.new) }
    ensures part { IfErr result (λ error. PartReplied (A.answers answering.now)
        (lost_at (A.lost answering.now) error) (K.taken sink.old) (K.taken sink.new)
        state.old line.now state.new) }
    ensures later { K.faults sink.old ≤ K.faults sink.new }
    ensures failed { IsErrOf result SinkError.Failed → HasRisen (K.faults sink.old) (K.faults sink.new) }
    ensures counts { ¬ IsErrOf result SinkError.Failed → K.faults sink.new ≡ K.faults sink.old }
    ensures calls { IsRepliedBy (A.answers answering.now) (A.lost answering.now) K.Sink sink.old sink.new
        state.old line.now state.new result }
{
    match answering.answer(alloc, room, state, line) {
        Ok(reply) => write_line(sink, reply),
        Err(_) => Err(SinkError::OutOfMemory),
    }
}

// The status of a write that failed.
fn status_of(error: SinkError) -> SessionEnd
    ensures { result ≡ status_of error }
{
    match error {
        SinkError::Failed => SessionEnd::WriteFault,
        SinkError::OutOfMemory => SessionEnd::OutOfMemory,
    }
}

// Writes the front, and then answers each line.
fn serve_lines<A: Answering, S: Source, K: Sink>(
    alloc: Global,
    answering: &A,
    room: &mut A::Room,
    state: &mut A::State,
    front: &[u8],
    most_input: u64,
    longest_line: u64,
    source: &mut S,
    sink: &mut K,
) -> SessionEnd
    requires ready { A.can_answer answering.now }
    requires most { most_input < 2 ^ 64 - 1 }
    requires longest { longest_line < 2 ^ 64 - 1 }
    ensures served { IsServed (A.answers answering.now) (A.lost answering.now) front.now most_input
        longest_line (S.left source.old) (S.left source.new)
        (K.taken sink.old) (K.taken sink.new) state.old state.new result }
    ensures counts { CountsFaults (S.faults source.old) (S.faults source.new)
        (K.faults sink.old) (K.faults sink.new) result }
    ensures calls { IsServedBy (A.answers answering.now) (A.lost answering.now) front.now most_input
        longest_line S.Source K.Sink source.old source.new sink.old sink.new state.old state.new result }
{
    if let Err(error) = write_all(sink, front) {
        return status_of(error);
    }
    let Ok(mut reader) = LineReader::new(alloc, most_input) else {
        return SessionEnd::OutOfMemory;
    };
    'lines: loop {
        match reader.next_line(alloc, longest_line, source) {
            NextLine::Ended(line) => {
                if let Err(error) = answer(alloc, answering, room, state, &line, sink) {
                    return status_of(error);
                }
            }
            NextLine::End(line) => {
                if line.is_empty() {
                    return SessionEnd::Done;
                }
                if let Err(error) = answer(alloc, answering, room, state, &line, sink) {
                    return status_of(error);
                }
                return SessionEnd::Done;
            }
            NextLine::ReadFault => return SessionEnd::ReadFault,
            NextLine::TooLong => return SessionEnd::LineTooLong(longest_line + 1),
            NextLine::TooMuchInput => return SessionEnd::TooMuchInput(most_input + 1),
            NextLine::OutOfMemory => return SessionEnd::OutOfMemory,
        }
    }
}

/// Writes the front, and then the reply to each line of the source, each with a newline behind it.
///
/// A line ends at a newline; the last needs none, where it is not empty. At most `most_input` bytes are
/// handled, in lines of at most `longest_line` bytes without their newline. The first byte beyond either ends
/// the session, and the first of them counts; at the same byte it is too much input.
pub fn serve<A: Answering, S: Source, K: Sink>(
    alloc: Global,
    answering: &A,
    state: &mut A::State,
    front: &[u8],
    most_input: u64,
    longest_line: u64,
    source: &mut S,
    sink: &mut K,
) -> SessionEnd
    requires ready { A.can_answer answering.now }
    requires most { most_input < 2 ^ 64 - 1 }
    requires longest { longest_line < 2 ^ 64 - 1 }
    ensures served { IsServed (A.answers answering.now) (A.lost answering.now) front.now most_input
        longest_line (S.left source.old) (S.left source.new)
        (K.taken sink.old) (K.taken sink.new) state.old state.new result }
    // The calls that were made of the source and the sink, and that what the status says holds of the bytes that
    // they gave and took.
    ensures calls { IsServedBy (A.answers answering.now) (A.lost answering.now) front.now most_input
        longest_line S.Source K.Sink source.old source.new sink.old sink.new state.old state.new result }
    // Of a source and a sink that tell their bytes.
    ensures session { result ≡ SessionEnd.Done → (all before : ListOf ℕ) →
        S.left source.old ≡ Some all → K.taken sink.old ≡ Some before →
        IsAnswered (A.answers answering.now) front.now all before
        (S.left source.new) (K.taken sink.new) state.old state.new }
    // Of a source that tells its bytes.
    ensures limits { (all : ListOf ℕ) → S.left source.old ≡ Some all
        → MeetsLimits most_input longest_line all result }
    // Where nothing fails, the end is the one that the bytes call for, or memory runs out.
    ensures complete { (all : ListOf ℕ) → S.left source.old ≡ Some all
        → PassesNoLimit most_input longest_line all →
        ¬ HasRisen (S.faults source.old) (S.faults source.new) →
        ¬ HasRisen (K.faults sink.old) (K.faults sink.new) →
        (result ≡ SessionEnd.Done) ⊎ (result ≡ SessionEnd.OutOfMemory) }
    ensures too_long { (all : ListOf ℕ) → S.left source.old ≡ Some all
        → HasLongLine longest_line (take most_input all) →
        ¬ HasRisen (S.faults source.old) (S.faults source.new) →
        ¬ HasRisen (K.faults sink.old) (K.faults sink.new) →
        (result ≡ SessionEnd.LineTooLong (longest_line + 1)) ⊎ (result ≡ SessionEnd.OutOfMemory) }
    ensures too_much { (all : ListOf ℕ) → S.left source.old ≡ Some all
        → IsTooMuch most_input longest_line all →
        ¬ HasRisen (S.faults source.old) (S.faults source.new) →
        ¬ HasRisen (K.faults sink.old) (K.faults sink.new) →
        (result ≡ SessionEnd.TooMuchInput (most_input + 1)) ⊎ (result ≡ SessionEnd.OutOfMemory) }
    ensures source_later { S.faults source.old ≤ S.faults source.new }
    ensures sink_later { K.faults sink.old ≤ K.faults sink.new }
    ensures read_fault { result ≡ SessionEnd.ReadFault →
        HasRisen (S.faults source.old) (S.faults source.new) }
    ensures write_fault { result ≡ SessionEnd.WriteFault →
        HasRisen (K.faults sink.old) (K.faults sink.new) }
    // A count of faults that rose ended the session, by whose it is.
    ensures read_risen { S.faults source.old < S.faults source.new → result ≡ SessionEnd.ReadFault }
    ensures write_risen { K.faults sink.old < K.faults sink.new → result ≡ SessionEnd.WriteFault }
{
    let Ok(mut room) = answering.room(alloc) else {
        return SessionEnd::OutOfMemory;
    };
    serve_lines(
        alloc,
        answering,
        &mut room,
        state,
        front,
        most_input,
        longest_line,
        source,
        sink,
    )
}
