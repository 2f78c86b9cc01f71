//! Whole texts to a sink, which may take them in parts.
ghost use Rattle.std.specs.Prelude.{◌≡◌, ◌≤◌, OnOk, OnErr, IfErr, IsErrOf};
ghost use Rattle.std.specs.Io.KnownBytes.{Appends};
ghost use Rattle.schema_values.specs.Causes.{HasRisen};
ghost use Rattle.line_session.specs.Calls.{IsWrittenBy, TookPartAndFailed};
ghost use Rattle.line_session.specs.Lines.{end_line};
ghost use Rattle.line_session.specs.Parts.{AppendsPart};

use crate::ends::{Sink, SinkError};
use schema_values::List;

/// Writes all of `bytes`; at an `Err` a part from the front. It takes no memory itself: each error is the answer of
/// the sink to the last call.
pub fn write_all<K: Sink>(sink: &mut K, bytes: &[u8]) -> Result<(), SinkError>
    ensures ok { OnOk result (Appends (K.taken sink.old) (K.taken sink.new) bytes.now) }
    ensures part { OnErr result (AppendsPart (K.taken sink.old) (K.taken sink.new) bytes.now) }
    ensures later { K.faults sink.old ≤ K.faults sink.new }
    ensures failed { IsErrOf result SinkError.Failed → HasRisen (K.faults sink.old) (K.faults sink.new) }
    ensures counts { ¬ IsErrOf result SinkError.Failed → K.faults sink.new ≡ K.faults sink.old }
    ensures calls { IsWrittenBy K.Sink bytes.now sink.old sink.new result }
    ensures told { IfErr result (λ error. TookPartAndFailed K.Sink sink.old bytes.now error sink.new) }
{
    let mut at = 0;
    while at < bytes.len() {
        at += sink.write(&bytes[at..])?;
    }
    Ok(())
}

/// Writes a line and its newline; at an `Err` a part from the front.
pub fn write_line<K: Sink>(sink: &mut K, mut line: List<u8>) -> Result<(), SinkError>
    ensures ok { OnOk result (Appends (K.taken sink.old) (K.taken sink.new) (end_line line)) }
    ensures part { OnErr result (AppendsPart (K.taken sink.old) (K.taken sink.new) (end_line line)) }
    ensures later { K.faults sink.old ≤ K.faults sink.new }
    ensures failed { IsErrOf result SinkError.Failed → HasRisen (K.faults sink.old) (K.faults sink.new) }
    ensures counts { ¬ IsErrOf result SinkError.Failed → K.faults sink.new ≡ K.faults sink.old }
    ensures calls { IsWrittenBy K.Sink (end_line line) sink.old sink.new result }
{
    if line.push(b'\n').is_err() {
        return Err(SinkError::OutOfMemory);
    }
    write_all(sink, line.as_slice())
}
