//! Request lines as values of a Rust type, which their JSON denotes.
#![tactic(auto)]

mod choice;
mod frame;
mod header;
mod laws;
mod request_line;
mod variable;

pub use frame::{LineDigits, LineFrame};
pub use header::LineHeader;
pub use laws::{lines_are_values, request_line_descriptor, request_line_tree};
pub use request_line::RequestLine;
pub use variable::LineVariable;
