//! A session over lines: lines are read from a source, and a front and a reply to each line go to a sink.
#![tactic(auto)]

mod ends;
mod line_reader;
mod memory;
mod serving;
mod std_ends;
mod writing;

pub use ends::{Failed, Sink, SinkError, Source};
pub use line_reader::{LineReader, NextLine};
pub use memory::{MemorySink, MemorySource, SafeSink, SafeSource};
pub use serving::{Answering, SessionEnd, serve};
pub use std_ends::{StdSink, StdSource};
pub use writing::{write_all, write_line};
