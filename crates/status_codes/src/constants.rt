//! The constants of both types, with their names. They are listed in parts, since the time of a proof grows
//! faster than its list.
ghost use Rattle.std.specs.Prelude.{◌≡◌, map};
ghost use Rattle.status_codes.specs.Tables.{table_400, table_414, table_500};

use crate::{ClientErrorStatusCode, ErrorStatusCode};

// Constants of a type, each with its name.
macro_rules! named {
    ($code:ident: $($name:ident)*) => {
        [$((stringify!($name), $code::$name)),*]
    };
}

macro_rules! from_400 {
    ($code:ident) => {
        named!($code:
            BAD_REQUEST UNAUTHORIZED PAYMENT_REQUIRED FORBIDDEN NOT_FOUND
            METHOD_NOT_ALLOWED NOT_ACCEPTABLE PROXY_AUTHENTICATION_REQUIRED
            REQUEST_TIMEOUT CONFLICT GONE LENGTH_REQUIRED PRECONDITION_FAILED
            PAYLOAD_TOO_LARGE
        )
    };
}

macro_rules! from_414 {
    ($code:ident) => {
        named!($code:
            URI_TOO_LONG UNSUPPORTED_MEDIA_TYPE RANGE_NOT_SATISFIABLE
            EXPECTATION_FAILED IM_A_TEAPOT MISDIRECTED_REQUEST UNPROCESSABLE_ENTITY
            LOCKED FAILED_DEPENDENCY UPGRADE_REQUIRED PRECONDITION_REQUIRED
            TOO_MANY_REQUESTS REQUEST_HEADER_FIELDS_TOO_LARGE
            UNAVAILABLE_FOR_LEGAL_REASONS
        )
    };
}

/// The constants of `ClientErrorStatusCode` from 400 to 413, with their names.
pub fn client_constants_400() -> [(&'static str, ClientErrorStatusCode); 14]
    ensures { map (λ constant. (constant.0.now, constant.1)) result ≡ table_400 }
{
    from_400!(ClientErrorStatusCode)
}

/// The constants of `ClientErrorStatusCode` from 414 to 451, with their names.
pub fn client_constants_414() -> [(&'static str, ClientErrorStatusCode); 14]
    ensures { map (λ constant. (constant.0.now, constant.1)) result ≡ table_414 }
{
    from_414!(ClientErrorStatusCode)
}

/// The constants of `ErrorStatusCode` from 400 to 413, with their names.
pub fn error_constants_400() -> [(&'static str, ErrorStatusCode); 14]
    ensures { map (λ constant. (constant.0.now, constant.1)) result ≡ table_400 }
{
    from_400!(ErrorStatusCode)
}

/// The constants of `ErrorStatusCode` from 414 to 451, with their names.
pub fn error_constants_414() -> [(&'static str, ErrorStatusCode); 14]
    ensures { map (λ constant. (constant.0.now, constant.1)) result ≡ table_414 }
{
    from_414!(ErrorStatusCode)
}

/// The constants of `ErrorStatusCode` from 500 to 511, with their names.
pub fn error_constants_500() -> [(&'static str, ErrorStatusCode); 11]
    ensures { map (λ constant. (constant.0.now, constant.1)) result ≡ table_500 }
{
    named!(ErrorStatusCode:
        INTERNAL_SERVER_ERROR NOT_IMPLEMENTED BAD_GATEWAY SERVICE_UNAVAILABLE
        GATEWAY_TIMEOUT HTTP_VERSION_NOT_SUPPORTED VARIANT_ALSO_NEGOTIATES
        INSUFFICIENT_STORAGE LOOP_DETECTED NOT_EXTENDED
        NETWORK_AUTHENTICATION_REQUIRED
    )
}
