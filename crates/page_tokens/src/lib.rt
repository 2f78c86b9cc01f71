//! The tokens that say where the next page of results starts.
#![tactic(auto)]

mod encoding;
mod form;
mod token;
mod token_error;

pub use token::{read_token, write_token};
pub use token_error::TokenError;
