//! Values of Rust types as JSON, and what the written schemas of the types say of it.
#![tactic(auto)]

mod wire;

pub use wire::{json_value, value_json};
