//! Requests without their bodies, the limits of a server, and the kinds of bodies.
#![tactic(auto)]

mod config;
mod content_type;
mod copies;
mod info;
mod parts;

pub use config::ServerConfig;
pub use content_type::{ApiEndpointBodyContentType, Unsupported};
pub use copies::copy_version;
pub use info::RequestInfo;
pub use parts::RequestParts;
