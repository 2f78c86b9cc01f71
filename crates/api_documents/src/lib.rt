//! The document of endpoints at a version: what it lists and defines, and that it is sound JSON.
#![tactic(auto)]

mod bodies;
mod components;
mod documents;
mod error_names;
mod laws;
mod listed;
mod operations;
mod parameters;
mod placed;
mod reached;
mod references;
mod responses;
mod tags;

pub use documents::document;
pub use laws::{
    documents_define, documents_define_errors, documents_define_no_more, documents_list,
    documents_sound, error_names_differ, same_errors_are_equal,
};
