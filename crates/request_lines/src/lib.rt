//! What a request line asks of a version of an API: a request, and the frames of its body.
#![tactic(auto)]

mod line_error;
mod members;
mod request_frames;
mod request_head;
mod request_line;
mod request_variables;

pub use line_error::LineError;
pub use request_line::{AskedRequest, read_line};
