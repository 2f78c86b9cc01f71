//! Endpoints with their handlers: which of them are registered, the document of these, and what answers a request.
#![tactic(auto)]

mod asking;
mod definition;
mod description;
mod information;
mod laws;
mod register;
mod register_error;

pub use api_endpoints::{ApiEndpoint, NewEndpointError};
pub use api_exchanges::{Exchange, ExchangeError};
pub use api_registration::{ApiDescriptionBuildErrors, ApiDescriptionRegisterError, RegisterCause};
pub use definition::{OpenApiDefinition, WriteError};
pub use description::ApiDescription;
pub use line_session::{Sink, SinkError};
pub use register_error::RegisterError;
pub use tag_config::{EndpointTagPolicy, TagConfig, TagDetails, TagExternalDocs};
