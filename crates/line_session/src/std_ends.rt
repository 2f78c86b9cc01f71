//! The edge to std: any reader is a source and any writer a sink, which count the errors that they meet.
use crate::ends::{Failed, Sink, SinkError, Source};
use std::io::{Read, Write};

/// A reader of std as a source. Each error that it meets is a fault, also of a call that was interrupted, and
/// nothing else is.
#[derive(Drop)]
pub struct StdSource<R: Read> {
    inner: R,
    faults: u64,
}

/// A writer of std as a sink. Each error that it meets is a fault, and so is a write that takes no byte of
/// some; nothing else is.
#[derive(Drop)]
pub struct StdSink<W: Write> {
    inner: W,
    faults: u64,
}

impl<R: Read> StdSource<R> {
    ghost use Rattle.std.specs.Prelude.{◌≡◌};
    ghost use Rattle.line_session.specs.StdEnds.{source_faults, source_reader};

    /// A source over this reader, which has not failed yet.
    pub fn new(inner: R) -> Self
        ensures reader { source_reader result ≡ inner }
        ensures faults { source_faults result ≡ 0 }
    {
        StdSource { inner, faults: 0 }
    }
}

impl<W: Write> StdSink<W> {
    ghost use Rattle.std.specs.Prelude.{◌≡◌};
    ghost use Rattle.line_session.specs.StdEnds.{sink_faults, sink_writer};

    /// A sink over this writer, which has not failed yet.
    pub fn new(inner: W) -> Self
        ensures writer { sink_writer result ≡ inner }
        ensures faults { sink_faults result ≡ 0 }
    {
        StdSink { inner, faults: 0 }
    }
}

impl<R: Read> Source for StdSource<R> {
    ghost use Rattle.std.specs.Prelude.{◌≡◌, OnErr, OnOk};
    ghost use Rattle.std.specs.Io.{ReadsAtMost};
    ghost use Rattle.std.specs.Io.KnownBytes.{ReadConsumes};
    ghost use Rattle.schema_values.specs.Causes.{HasCause};
    ghost use Rattle.line_session.specs.Memory.{one_more};
    ghost use Rattle.line_session.specs.StdEnds.{source_faults, source_reader};

    ghost left = { λ s. R.remaining s.inner };

    ghost faults = { λ s. s.faults };

    ghost read_gives = { λ old buf result new. OnErr result (new.faults ≡ one_more old.faults) };

    /// Makes one call. An error raises the count by one, up to the last value of a counter.
    fn read(&mut self, buf: &mut [u8]) -> Result<usize, Failed>
        ensures bound { ReadsAtMost result buf.new }
        ensures bytes { ReadConsumes (R.remaining (source_reader self.old))
            (R.remaining (source_reader self.new)) result buf.new }
        ensures cause { HasCause (source_faults self.old) (source_faults self.new) result }
        ensures counts { OnOk result (source_faults self.new ≡ source_faults self.old) }
        ensures raised { OnErr result (source_faults self.new ≡ one_more (source_faults self.old)) }
    {
        match self.inner.read(buf) {
            Ok(count) => Ok(count),
            Err(_) => {
                self.faults = self.faults.saturating_add(1);
                Err(Failed)
            }
        }
    }
}

impl<W: Write> Sink for StdSink<W> {
    ghost use Rattle.std.specs.Prelude.{◌≡◌, ◌<◌, ◌≤◌, IfOk, IsErrOf, OnErr, length};
    ghost use Rattle.std.specs.Io.{WritesAtMost};
    ghost use Rattle.std.specs.Io.KnownBytes.{WriteAppends};
    ghost use Rattle.schema_values.specs.Causes.{HasRisen};
    ghost use Rattle.line_session.specs.Memory.{one_more};
    ghost use Rattle.line_session.specs.StdEnds.{sink_faults, sink_writer};

    ghost taken = { λ s. W.contents s.inner };

    ghost faults = { λ s. s.faults };

    ghost write_gives = { λ old piece result new. OnErr result (new.faults ≡ one_more old.faults) };

    /// Makes one call. An error, or that no byte of some was taken, raises the count by one, up to the last
    /// value of a counter.
    fn write(&mut self, piece: &[u8]) -> Result<usize, SinkError>
        ensures bound { WritesAtMost result piece.now }
        ensures progress { 0 < length piece.now → IfOk result (λ n. 0 < n) }
        ensures bytes { WriteAppends (W.contents (sink_writer self.old))
            (W.contents (sink_writer self.new)) result piece.now }
        ensures later { sink_faults self.old ≤ sink_faults self.new }
        ensures failed { IsErrOf result SinkError.Failed
            → HasRisen (sink_faults self.old) (sink_faults self.new) }
        ensures counts { ¬ IsErrOf result SinkError.Failed → sink_faults self.new ≡ sink_faults self.old }
        ensures raised { OnErr result (sink_faults self.new ≡ one_more (sink_faults self.old)) }
    {
        match self.inner.write(piece) {
            Ok(count) if count > 0 || piece.is_empty() => Ok(count),
            _ => {
                self.faults = self.faults.saturating_add(1);
                Err(SinkError::Failed)
            }
        }
    }
}
