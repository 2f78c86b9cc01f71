//! When an endpoint may be registered behind others, and the first cause why it may not.
#![tactic(auto)]

mod cause;
mod error;
mod laws;
mod refusals;

pub use cause::RegisterCause;
pub use endpoint_checks::EndpointIndex;
pub use error::{ApiDescriptionBuildErrors, ApiDescriptionRegisterError};
pub use laws::one_serves;
pub use refusals::first_cause;
