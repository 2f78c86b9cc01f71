//! Whether an OpenAPI document admits a request: its parameters, its pages and its body.
#![tactic(auto)]

mod bodies;
mod check;
mod forms;
mod members;
mod pages;
mod parameters;
mod query;
mod schema_in;

pub use check::check_admits;
