//! What comes of a request to endpoints.
#![tactic(auto)]

mod reaching;
mod requests;

pub use endpoint_answers::{Exchange, ExchangeError};
pub use requests::{exchange, exchange_from};
