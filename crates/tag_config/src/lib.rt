//! Which tags endpoints may have, and what documents say of them.
#![tactic(auto)]

mod config;
mod details;
mod from_json;
mod laws;
mod policy;
mod to_json;

pub use config::TagConfig;
pub use details::{TagDetails, TagExternalDocs};
pub use laws::one_configuration;
pub use policy::EndpointTagPolicy;
