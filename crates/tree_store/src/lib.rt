//! A store: tables of trees, each in ascending order of its keys.
#![tactic(auto)]

mod store;
mod table;

pub use store::Store;
