//! Bodies of requests and responses, in frames, and what gives frames in turn.
#![tactic(auto)]

mod body;
mod dump;
mod frame;
mod memory;

pub use body::Body;
pub use dump::{DumpError, http_dump_body};
pub use frame::{Frame, FrameError, FrameSource};
pub use memory::{MemoryFrames, SafeFrames};
