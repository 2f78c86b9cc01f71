//! The program over streams: words of a command line, request lines in, a document and reply lines out.
#![tactic(auto)]

mod answering;
mod reply_line;
mod serving;
mod tool;

pub use command_line::{ToolConfig, ToolStatus};
pub use line_session::{
    Failed, MemorySink, MemorySource, SafeSink, SafeSource, Sink, SinkError, Source, StdSink,
    StdSource,
};
pub use tool::run;
