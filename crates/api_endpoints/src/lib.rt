//! Endpoints with their handlers: how they are made, and what is said of them.
#![tactic(auto)]

mod accessors;
mod builders;
mod declaring;
mod endpoint;
mod new_error;

pub use declaring::declarations;
pub use endpoint::ApiEndpoint;
pub use new_error::NewEndpointError;
