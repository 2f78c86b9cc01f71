//! Header lines in order, by names that are compared without case.
#![tactic(auto)]

mod header_list;
mod laws;

pub use header_list::HeaderList;
pub use laws::{append_adds_a_value, extend_replaces_values, insert_leaves_one_value};
