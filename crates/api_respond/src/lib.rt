//! Handlers, what they reply, and the responses that replies are sent as.
#![tactic(auto)]

mod context;
mod encode;
mod error_responses;
mod handler;
mod named_headers;
mod reply;

pub use context::{RequestContext, RequestEndpointMetadata};
pub use encode::{encode_refusal, encode_reply};
pub use error_responses::encode_error;
pub use handler::RouteHandler;
pub use reply::{Content, ErrorReply, HandlerError, HttpHandlerResult, Reply, SuccessReply};
