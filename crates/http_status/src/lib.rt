//! Errors that are answered and their responses, and the ids of requests. Status codes, header
//! lists and bodies are passed on.
#![tactic(auto)]

mod constants;
mod error;
mod error_body;
mod error_headers;
mod laws;
mod refusal;
mod request_id;
mod response;

pub use constants::{
    CONTENT_TYPE_JSON, CONTENT_TYPE_MULTIPART_FORM_DATA, CONTENT_TYPE_NDJSON,
    CONTENT_TYPE_OCTET_STREAM, CONTENT_TYPE_URL_ENCODED, HEADER_REQUEST_ID,
};
pub use error::HttpError;
pub use error_body::{HttpErrorResponseBody, error_definition};
pub use error_headers::HeaderError;
pub use header_lists::HeaderList;
pub use http_bodies::{
    Body, DumpError, Frame, FrameError, FrameSource, MemoryFrames, SafeFrames, http_dump_body,
};
pub use laws::{constants_have_texts, error_bodies_are_typed};
pub use refusal::HttpRefusal;
pub use request_id::{RequestId, RequestIdError};
pub use response::Response;
pub use status_codes::{
    ClientErrorStatusCode, ErrorStatusCode, InvalidClientErrorStatusCode, InvalidErrorStatusCode,
    NotAClientError, NotAnError, client_constants_400, client_constants_414, error_constants_400,
    error_constants_414, error_constants_500,
};
