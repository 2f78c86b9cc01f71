//! The limits of a server.
use std::num::NonZeroU32;

/// The limits of a server: bytes of a body, and items of a page.
#[derive(Clone, Copy, Debug, PartialEq, Eq)]
pub struct ServerConfig {
    /// How many bytes a body has at most, where its endpoint does not say.
    pub default_request_body_max_bytes: u64,
    /// How many items a page has at most.
    pub page_max_nitems: NonZeroU32,
    /// How many items a page has at most where the request does not say.
    pub page_default_nitems: NonZeroU32,
}
