//! What an endpoint answers a request that reaches it.
#![tactic(auto)]

mod answering;
mod handling;
mod outcome;

pub use answering::{answer, limit_at};
pub use outcome::{Exchange, ExchangeError};
