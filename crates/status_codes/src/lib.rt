//! Status codes of errors: those of the client and the server, and those of the client alone.
#![tactic(auto)]

mod client_error_code;
mod client_error_conversions;
mod constants;
mod error_code;
mod error_conversions;
mod errors;

pub use client_error_code::ClientErrorStatusCode;
pub use constants::{
    client_constants_400, client_constants_414, error_constants_400, error_constants_414,
    error_constants_500,
};
pub use error_code::ErrorStatusCode;
pub use errors::{
    InvalidClientErrorStatusCode, InvalidErrorStatusCode, NotAClientError, NotAnError,
};
