//! Reply lines: one line of compact JSON for an outcome, with a response whose body is read whole for it, or alone.
#![tactic(auto)]

mod laws;
mod response_body;
mod writing;

pub use laws::one_reading_alone;
pub use writing::{outcome_line, response_line};
