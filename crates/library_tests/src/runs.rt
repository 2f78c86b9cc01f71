//! Runs of the tool over no endpoints, of a line that asks for nothing and one that asks for an operation that is not
//! there. Their ends are such as cases don't have: ends in memory that never fail, a reader and a writer of std, and a
//! reader of std that errs at its first call.
use crate::ends::{FailingReader, Reader};
use api_descriptions::TagConfig;
use contract_tool::{
    SafeSink, SafeSource, Sink, Source, StdSink, StdSource, ToolConfig, ToolStatus, run,
};
use request_parts::ServerConfig;
use schema_values::{List, Text};
use std::alloc::{AllocError, Global};
use std::num::NonZeroU32;
use std::test::Fail;
use tree_store::Store;

const LINES: &[u8] = b"[]\n{\"method\":\"GET\",\"template\":\"/\",\"request_id\":\"r\"}";

const DOCUMENT: &[u8] = b"{
  \"openapi\": \"3.0.3\",
  \"info\": {
    \"title\": \"none\",
    \"version\": \"1.0.0\"
  },
  \"paths\": {},
  \"components\": {}
}
";

const REPLIES: &[u8] = b"}\n{\"outcome\":\"bad-line\"}\n{\"outcome\":\"no-such-operation\"}\n";

// The status of a session over no endpoints between these ends.
fn session<S: Source, K: Sink>(
    alloc: Global,
    source: &mut S,
    sink: &mut K,
) -> Result<ToolStatus, AllocError> {
    let config = ToolConfig {
        title: Text::from_str(alloc, "none")?,
        server: ServerConfig {
            default_request_body_max_bytes: 8,
            page_max_nitems: NonZeroU32::MIN,
            page_default_nitems: NonZeroU32::MIN,
        },
        frame_budget: 8,
        longest_line: 100,
        most_input: 1_000,
    };
    let words = [
        String::from_str(alloc, "session")?,
        String::from_str(alloc, "1.0.0")?,
    ];
    Ok(run(
        alloc,
        &words,
        Vec::new(alloc),
        TagConfig::default_config(alloc),
        &mut Store::new(alloc),
        &config,
        source,
        sink,
    ))
}

#[test]
fn a_run_answers_between_ends_that_never_fail(rt: HostRuntime) -> Result<(), Fail> {
    let alloc = rt.alloc();
    let mut source = SafeSource::new(List::from_bytes(alloc, LINES)?);
    let mut sink = SafeSink::new(alloc);
    let status = session(alloc, &mut source, &mut sink)?;
    assert_eq!(rt; status.code(), 0);
    assert!(rt; sink.taken().ends_with(REPLIES));
    Ok(())
}

#[test]
fn a_run_answers_between_ends_of_std(rt: HostRuntime) -> Result<(), Fail> {
    let alloc = rt.alloc();
    let mut written = Vec::new(alloc);
    let mut source = StdSource::new(Reader(LINES));
    let mut sink = StdSink::new(&mut written);
    let status = session(alloc, &mut source, &mut sink)?;
    assert_eq!(rt; status.code(), 0);
    assert!(rt; written.as_slice().ends_with(REPLIES));
    Ok(())
}

#[test]
fn a_run_whose_reader_errs_is_a_read_fault(rt: HostRuntime) -> Result<(), Fail> {
    let alloc = rt.alloc();
    let mut source = StdSource::new(FailingReader);
    let mut sink = SafeSink::new(alloc);
    let status = session(alloc, &mut source, &mut sink)?;
    assert_eq!(rt; status.code(), 4);
    assert_eq!(rt; sink.taken(), DOCUMENT);
    Ok(())
}
