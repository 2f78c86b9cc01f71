//! Sessions of lines of which each is answered with itself, but for a line `lost`, whose reply is lost.
use crate::limits::{Limits, read_limits};
use crate::streams::{read_sink, read_source, written_told};
use case_notation::{CaseError, Reader, Record, string_told};
use line_session::{Answering, MemorySink, MemorySource, SessionEnd, serve};
use schema_values::{Json, List};
use std::alloc::{AllocError, Global};

// Replies with the line itself, and counts the lines.
struct Echo;

impl Answering for Echo {
    ghost use Rattle.std.specs.Prelude.{◌≡◌, ⊤};

    type State = u64;

    type Room = ();

    ghost can_answer = { λ _. ⊤ };

    ghost answers = { λ _ _ line reply _. reply ≡ line };

    ghost lost = { λ _ _ _ _. ⊤ };

    fn room(&self, _alloc: Global) -> Result<(), AllocError> {
        Ok(())
    }

    fn answer(
        &self,
        alloc: Global,
        _room: &mut (),
        state: &mut u64,
        line: &[u8],
    ) -> Result<List<u8>, AllocError> {
        let reply = List::from_bytes(alloc, line)?;
        *state = state.saturating_add(1);
        if line == b"lost".as_slice() {
            return Err(AllocError);
        }
        Ok(reply)
    }
}

// The limits of a session and its two ends.
#[derive(Drop)]
struct Ends {
    limits: Limits,
    source: MemorySource,
    sink: MemorySink,
}

/// How a session ends, how many lines it answered, and what it wrote: the front, a line `front`, and the replies.
pub fn served(alloc: Global, case: &Json) -> Result<Json, CaseError> {
    let mut reader = Reader::new(alloc);
    let ends = Ends {
        limits: read_limits(&mut reader, case),
        source: read_source(&mut reader, case),
        sink: read_sink(&mut reader, case),
    };
    served_between(alloc, Box::new(alloc, reader.finish(ends)?)?)
}

fn served_between(alloc: Global, mut ends: Box<Ends>) -> Result<Json, CaseError> {
    let mut lines = 0;
    let end = ended(alloc, &mut lines, &mut ends);
    Record::new(alloc)
        .put("ended", string_told(format!(in alloc; "{end:?}")))
        .number("answered", lines.into())
        .put("written", written_told(alloc, ends.sink.taken(), ""))
        .done()
}

fn ended(alloc: Global, lines: &mut u64, ends: &mut Ends) -> SessionEnd {
    let Limits { input, line, .. } = ends.limits;
    serve(
        alloc,
        &Echo,
        lines,
        b"front\n",
        u64::from(input),
        u64::from(line),
        &mut ends.source,
        &mut ends.sink,
    )
}
