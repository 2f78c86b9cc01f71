//! The struct that the header lines of a request denote.
#![tactic(auto)]

mod headers;
mod lines;

pub use headers::decode_headers;
pub use lines::{first_line, last_line};
