//! The ends of sessions that are no ends in memory with calls that fail.
use line_session::{
    Answering, SafeSink, SafeSource, SessionEnd, Sink, Source, StdSink, StdSource, serve,
};
use schema_values::List;
use std::alloc::{AllocError, Global};
use std::io;
use std::test::Fail;

// Replies with the line itself, by way of its room, and counts the lines.
struct Echo;

impl Answering for Echo {
    ghost use Rattle.std.specs.Prelude.{◌≡◌, ⊤};

    type State = u64;

    type Room = Vec<u8>;

    ghost can_answer = { λ _. ⊤ };

    ghost answers = { λ _ _ line reply _. reply ≡ line };

    ghost lost = { λ _ _ _ _. ⊥ };

    fn room(&self, alloc: Global) -> Result<Vec<u8>, AllocError> {
        Ok(Vec::new(alloc))
    }

    fn answer(
        &self,
        alloc: Global,
        room: &mut Vec<u8>,
        state: &mut u64,
        line: &[u8],
    ) -> Result<List<u8>, AllocError> {
        room.clear();
        room.extend_from_slice(line)?;
        let reply = List::from_bytes(alloc, room)?;
        *state = state.saturating_add(1);
        Ok(reply)
    }
}

const FRONT: &[u8] = b"front\n";

// How a session between these ends comes to its end, and how many lines were answered.
fn session<S: Source, K: Sink>(
    alloc: Global,
    most_input: u32,
    longest_line: u32,
    source: &mut S,
    sink: &mut K,
) -> (SessionEnd, u64) {
    let mut lines = 0;
    let end = serve(
        alloc,
        &Echo,
        &mut lines,
        FRONT,
        u64::from(most_input),
        u64::from(longest_line),
        source,
        sink,
    );
    (end, lines)
}

#[test]
fn the_eleventh_byte_is_too_much(rt: HostRuntime) -> Result<(), Fail> {
    let alloc = rt.alloc();
    let mut source = SafeSource::new(List::from_bytes(alloc, b"0123\n0123\nx")?);
    let mut sink = SafeSink::new(alloc);
    let (end, lines) = session(alloc, 10, 4, &mut source, &mut sink);
    assert_eq!(rt; end, SessionEnd::TooMuchInput(11));
    assert_eq!(rt; sink.taken(), b"front\n0123\n0123\n".as_slice());
    assert_eq!(rt; lines, 2);
    Ok(())
}

// A reader of std over bytes, which gives at most three at once.
#[derive(Drop)]
pub(crate) struct Reader<'a>(pub &'a [u8]);

impl io::Read for Reader<'_> {
    fn read(&mut self, buf: &mut [u8]) -> io::Result<usize> {
        let count = self.0.len().min(buf.len()).min(3);
        let (front, rest) = self.0.split_at(count);
        buf[..count].copy_from_slice(front);
        self.0 = rest;
        Ok(count)
    }
}

#[test]
fn readers_and_writers_of_std_are_ends(rt: HostRuntime) {
    let mut written = Vec::new(rt.alloc());
    let mut source = StdSource::new(Reader(b"one\ntwo"));
    let mut sink = StdSink::new(&mut written);
    let (end, _) = session(rt.alloc(), 100, 10, &mut source, &mut sink);
    assert_eq!(rt; end, SessionEnd::Done);
    assert_eq!(rt; written.as_slice(), b"front\none\ntwo\n".as_slice());
}

// A reader of std that errs.
#[derive(Drop)]
pub(crate) struct FailingReader;

impl io::Read for FailingReader {
    fn read(&mut self, buf: &mut [u8]) -> io::Result<usize> {
        Err(io::Error::from(io::ErrorKind::Other))
    }
}

// A writer of std that takes no byte, or errs.
#[derive(Drop)]
struct FailingWriter {
    errs: bool,
}

impl io::Write for FailingWriter {
    fn write(&mut self, piece: &[u8]) -> io::Result<usize> {
        if self.errs {
            Err(io::Error::from(io::ErrorKind::Other))
        } else {
            Ok(0)
        }
    }

    fn flush(&mut self) -> io::Result<()> {
        Ok(())
    }
}

#[test]
fn a_reader_that_errs_is_a_read_fault(rt: HostRuntime) {
    let mut source = StdSource::new(FailingReader);
    let mut sink = SafeSink::new(rt.alloc());
    let (end, _) = session(rt.alloc(), 100, 10, &mut source, &mut sink);
    assert_eq!(rt; end, SessionEnd::ReadFault);
    assert_eq!(rt; sink.taken(), FRONT);
}

#[test]
fn a_writer_that_errs_or_takes_nothing_is_a_write_fault(rt: HostRuntime) {
    for errs in [true, false] {
        let mut source = SafeSource::new(List::new(rt.alloc()));
        let mut sink = StdSink::new(FailingWriter { errs });
        let (end, _) = session(rt.alloc(), 100, 10, &mut source, &mut sink);
        assert_eq!(rt; end, SessionEnd::WriteFault, "at {errs}");
    }
}
