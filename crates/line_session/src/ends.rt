//! What a session reads from and writes to. Each end counts its own faults, which generic code cannot. A call
//! that tells of none leaves the count, so what tries again after a fault that it counts is no end.
ghost use Rattle.std.specs.Prelude.{◌≡◌, ◌<◌, ◌≤◌, ℕ, List, length, ⊤, IfOk, IsErrOf, OnOk, Result};
ghost use Rattle.std.specs.declared.option.Option.{Option};
ghost use Rattle.std.specs.Io.{ReadsAtMost, WritesAtMost};
ghost use Rattle.std.specs.Io.KnownBytes.{ReadConsumes, WriteAppends};
ghost use Rattle.schema_values.specs.Causes.{HasRisen, HasCause};
ghost use Rattle.line_session.specs.declared.ends.Failed.{Failed as FailedValue};
ghost use Rattle.line_session.specs.declared.ends.SinkError.{SinkError as ErrorValue};

/// The source could not be read.
#[derive(Clone, Copy, Debug, Drop, PartialEq, Eq)]
pub struct Failed;

/// Why a sink took nothing.
#[derive(Clone, Copy, Debug, Drop, PartialEq, Eq)]
pub enum SinkError {
    /// The sink could not be written.
    Failed,
    /// There was not enough memory.
    OutOfMemory,
}

/// Bytes to be read.
pub trait Source {
    /// The bytes that are left, where the source tells them.
    ghost left: { Self → Option (List ℕ) };

    /// How often it has failed.
    ghost faults: { Self → ℕ };

    /// What a call may do beyond what is asked below, where the source says so: from this source, with the
    /// buffer as it is then and with this answer, to that source.
    ghost read_gives: { Self → List ℕ → Result ℕ FailedValue → Self → Type 0 } = { λ _ _ _ _. ⊤ };

    /// Takes bytes from the front of what is left, and gives their number; 0 only at the end or for an empty
    /// buffer. At an `Err` nothing was taken.
    fn read(&mut self, buf: &mut [u8]) -> Result<usize, Failed>
        ensures bound { ReadsAtMost result buf.new }
        ensures bytes { ReadConsumes (left self.old) (left self.new) result buf.new }
        ensures cause { HasCause (faults self.old) (faults self.new) result }
        ensures counts { OnOk result (faults self.new ≡ faults self.old) }
        ensures gives { read_gives self.old buf.new result self.new };
}

/// Where bytes are written.
pub trait Sink {
    /// The bytes that it has taken, where it tells them.
    ghost taken: { Self → Option (List ℕ) };

    /// How often it has failed.
    ghost faults: { Self → ℕ };

    /// What a call may do beyond what is asked below, where the sink says so: from this sink, with this piece
    /// and this answer, to that sink.
    ghost write_gives: { Self → List ℕ → Result ℕ ErrorValue → Self → Type 0 } = { λ _ _ _ _. ⊤ };

    /// Takes bytes from the front of a piece, at least one of a piece that is not empty, and gives their
    /// number. At an `Err` nothing was taken.
    fn write(&mut self, piece: &[u8]) -> Result<usize, SinkError>
        ensures bound { WritesAtMost result piece.now }
        ensures progress { 0 < length piece.now → IfOk result (λ n. 0 < n) }
        ensures bytes { WriteAppends (taken self.old) (taken self.new) result piece.now }
        ensures later { faults self.old ≤ faults self.new }
        ensures failed { IsErrOf result SinkError.Failed → HasRisen (faults self.old) (faults self.new) }
        ensures counts { ¬ IsErrOf result SinkError.Failed → faults self.new ≡ faults self.old }
        ensures gives { write_gives self.old piece.now result self.new };
}
