//! Status codes of errors.
ghost use Rattle.std.specs.Prelude.{◌≡◌, ◌↔◌, ℕ, IsErr, IsErrOf, IsOk};
ghost use Rattle.std.specs.Prelude.{IsTrue, IfErr, IfOk, IfSome, OkIff, option_map};
ghost use Rattle.http.specs.StatusCode.{IsCodeText, IsStatusCode, code_digits, reason_phrase};
ghost use Rattle.http.specs.FieldValue.{IsVisibleAscii};
ghost use Rattle.status_codes.specs.Conversions.{not_an_error};
ghost use Rattle.status_codes.specs.Ranges.{IsClientErrorStatus, IsErrorStatus, IsServerErrorStatus};
ghost use Rattle.status_codes.specs.Ranges.{IsOutside, IsTextOf};

use crate::ClientErrorStatusCode;
use crate::errors::{InvalidErrorStatusCode, NotAClientError, NotAnError};
use http::StatusCode;
use std::fmt;
use std::marker::Model;

/// A status code of an error by the client or the server, from 400 to 599. Contracts see the number.
#[derive(Clone, Copy, PartialEq, Eq, PartialOrd, Ord, Hash)]
pub struct ErrorStatusCode(StatusCode);

impl Model for ErrorStatusCode {
    ghost use Rattle.std.specs.Prelude.{ℕ};
    ghost use Rattle.status_codes.specs.Ranges.{IsErrorStatus};

    ghost Value = { ℕ };

    ghost view = { λ code. code.0 };

    ghost invariant = { λ code. IsErrorStatus code.0 };

    ghost inverse = { λ number. record { 0 = number } };
}

impl ErrorStatusCode {
    /// 400 Bad Request (RFC 9110, section 15.5.1).
    pub const BAD_REQUEST: ErrorStatusCode = ErrorStatusCode(StatusCode::BAD_REQUEST);

    /// 401 Unauthorized (RFC 9110, section 15.5.2).
    pub const UNAUTHORIZED: ErrorStatusCode = ErrorStatusCode(StatusCode::UNAUTHORIZED);

    /// 402 Payment Required (RFC 9110, section 15.5.3).
    pub const PAYMENT_REQUIRED: ErrorStatusCode = ErrorStatusCode(StatusCode::PAYMENT_REQUIRED);

    /// 403 Forbidden (RFC 9110, section 15.5.4).
    pub const FORBIDDEN: ErrorStatusCode = ErrorStatusCode(StatusCode::FORBIDDEN);

    /// 404 Not Found (RFC 9110, section 15.5.5).
    pub const NOT_FOUND: ErrorStatusCode = ErrorStatusCode(StatusCode::NOT_FOUND);

    /// 405 Method Not Allowed (RFC 9110, section 15.5.6).
    pub const METHOD_NOT_ALLOWED: ErrorStatusCode = ErrorStatusCode(StatusCode::METHOD_NOT_ALLOWED);

    /// 406 Not Acceptable (RFC 9110, section 15.5.7).
    pub const NOT_ACCEPTABLE: ErrorStatusCode = ErrorStatusCode(StatusCode::NOT_ACCEPTABLE);

    /// 407 Proxy Authentication Required (RFC 9110, section 15.5.8).
    pub const PROXY_AUTHENTICATION_REQUIRED: ErrorStatusCode = ErrorStatusCode(
        StatusCode::PROXY_AUTHENTICATION_REQUIRED,
    );

    /// 408 Request Timeout (RFC 9110, section 15.5.9).
    pub const REQUEST_TIMEOUT: ErrorStatusCode = ErrorStatusCode(StatusCode::REQUEST_TIMEOUT);

    /// 409 Conflict (RFC 9110, section 15.5.10).
    pub const CONFLICT: ErrorStatusCode = ErrorStatusCode(StatusCode::CONFLICT);

    /// 410 Gone (RFC 9110, section 15.5.11).
    pub const GONE: ErrorStatusCode = ErrorStatusCode(StatusCode::GONE);

    /// 411 Length Required (RFC 9110, section 15.5.12).
    pub const LENGTH_REQUIRED: ErrorStatusCode = ErrorStatusCode(StatusCode::LENGTH_REQUIRED);

    /// 412 Precondition Failed (RFC 9110, section 15.5.13).
    pub const PRECONDITION_FAILED: ErrorStatusCode = ErrorStatusCode(
        StatusCode::PRECONDITION_FAILED,
    );

    /// 413 Payload Too Large (RFC 9110, section 15.5.14, which calls it Content Too Large).
    pub const PAYLOAD_TOO_LARGE: ErrorStatusCode = ErrorStatusCode(StatusCode::PAYLOAD_TOO_LARGE);

    /// 414 URI Too Long (RFC 9110, section 15.5.15).
    pub const URI_TOO_LONG: ErrorStatusCode = ErrorStatusCode(StatusCode::URI_TOO_LONG);

    /// 415 Unsupported Media Type (RFC 9110, section 15.5.16).
    pub const UNSUPPORTED_MEDIA_TYPE: ErrorStatusCode = ErrorStatusCode(
        StatusCode::UNSUPPORTED_MEDIA_TYPE,
    );

    /// 416 Range Not Satisfiable (RFC 9110, section 15.5.17).
    pub const RANGE_NOT_SATISFIABLE: ErrorStatusCode = ErrorStatusCode(
        StatusCode::RANGE_NOT_SATISFIABLE,
    );

    /// 417 Expectation Failed (RFC 9110, section 15.5.18).
    pub const EXPECTATION_FAILED: ErrorStatusCode = ErrorStatusCode(StatusCode::EXPECTATION_FAILED);

    /// 418 I'm a teapot (RFC 2324, section 2.3.2).
    pub const IM_A_TEAPOT: ErrorStatusCode = ErrorStatusCode(StatusCode::IM_A_TEAPOT);

    /// 421 Misdirected Request (RFC 9110, section 15.5.20).
    pub const MISDIRECTED_REQUEST: ErrorStatusCode = ErrorStatusCode(
        StatusCode::MISDIRECTED_REQUEST,
    );

    /// 422 Unprocessable Entity (RFC 9110, section 15.5.21, which calls it Unprocessable Content).
    pub const UNPROCESSABLE_ENTITY: ErrorStatusCode = ErrorStatusCode(
        StatusCode::UNPROCESSABLE_ENTITY,
    );

    /// 423 Locked (RFC 4918, section 11.3).
    pub const LOCKED: ErrorStatusCode = ErrorStatusCode(StatusCode::LOCKED);

    /// 424 Failed Dependency (RFC 4918, section 11.4).
    pub const FAILED_DEPENDENCY: ErrorStatusCode = ErrorStatusCode(StatusCode::FAILED_DEPENDENCY);

    /// 426 Upgrade Required (RFC 9110, section 15.5.22).
    pub const UPGRADE_REQUIRED: ErrorStatusCode = ErrorStatusCode(StatusCode::UPGRADE_REQUIRED);

    /// 428 Precondition Required (RFC 6585, section 3).
    pub const PRECONDITION_REQUIRED: ErrorStatusCode = ErrorStatusCode(
        StatusCode::PRECONDITION_REQUIRED,
    );

    /// 429 Too Many Requests (RFC 6585, section 4).
    pub const TOO_MANY_REQUESTS: ErrorStatusCode = ErrorStatusCode(StatusCode::TOO_MANY_REQUESTS);

    /// 431 Request Header Fields Too Large (RFC 6585, section 5).
    pub const REQUEST_HEADER_FIELDS_TOO_LARGE: ErrorStatusCode = ErrorStatusCode(
        StatusCode::REQUEST_HEADER_FIELDS_TOO_LARGE,
    );

    /// 451 Unavailable For Legal Reasons (RFC 7725, section 3).
    pub const UNAVAILABLE_FOR_LEGAL_REASONS: ErrorStatusCode = ErrorStatusCode(
        StatusCode::UNAVAILABLE_FOR_LEGAL_REASONS,
    );

    /// 500 Internal Server Error (RFC 9110, section 15.6.1).
    pub const INTERNAL_SERVER_ERROR: ErrorStatusCode = ErrorStatusCode(
        StatusCode::INTERNAL_SERVER_ERROR,
    );

    /// 501 Not Implemented (RFC 9110, section 15.6.2).
    pub const NOT_IMPLEMENTED: ErrorStatusCode = ErrorStatusCode(StatusCode::NOT_IMPLEMENTED);

    /// 502 Bad Gateway (RFC 9110, section 15.6.3).
    pub const BAD_GATEWAY: ErrorStatusCode = ErrorStatusCode(StatusCode::BAD_GATEWAY);

    /// 503 Service Unavailable (RFC 9110, section 15.6.4).
    pub const SERVICE_UNAVAILABLE: ErrorStatusCode = ErrorStatusCode(
        StatusCode::SERVICE_UNAVAILABLE,
    );

    /// 504 Gateway Timeout (RFC 9110, section 15.6.5).
    pub const GATEWAY_TIMEOUT: ErrorStatusCode = ErrorStatusCode(StatusCode::GATEWAY_TIMEOUT);

    /// 505 HTTP Version Not Supported (RFC 9110, section 15.6.6).
    pub const HTTP_VERSION_NOT_SUPPORTED: ErrorStatusCode = ErrorStatusCode(
        StatusCode::HTTP_VERSION_NOT_SUPPORTED,
    );

    /// 506 Variant Also Negotiates (RFC 2295, section 8.1).
    pub const VARIANT_ALSO_NEGOTIATES: ErrorStatusCode = ErrorStatusCode(
        StatusCode::VARIANT_ALSO_NEGOTIATES,
    );

    /// 507 Insufficient Storage (RFC 4918, section 11.5).
    pub const INSUFFICIENT_STORAGE: ErrorStatusCode = ErrorStatusCode(
        StatusCode::INSUFFICIENT_STORAGE,
    );

    /// 508 Loop Detected (RFC 5842, section 7.2).
    pub const LOOP_DETECTED: ErrorStatusCode = ErrorStatusCode(StatusCode::LOOP_DETECTED);

    /// 510 Not Extended (RFC 2774, section 7).
    pub const NOT_EXTENDED: ErrorStatusCode = ErrorStatusCode(StatusCode::NOT_EXTENDED);

    /// 511 Network Authentication Required (RFC 6585, section 6).
    pub const NETWORK_AUTHENTICATION_REQUIRED: ErrorStatusCode = ErrorStatusCode(
        StatusCode::NETWORK_AUTHENTICATION_REQUIRED,
    );
}

impl ErrorStatusCode {
    /// The code of a status. `NotAnError` exactly outside 400 to 599.
    pub fn from_status(status: StatusCode) -> Result<ErrorStatusCode, NotAnError>
        ensures ok { OkIff result (IsErrorStatus status) status }
        ensures refused { IfErr result (λ error. error.0 ≡ status) }
    {
        if (400..=599).contains(&status.as_u16()) {
            Ok(ErrorStatusCode(status))
        } else {
            Err(NotAnError(status))
        }
    }

    /// The code of a number. `NotAnError` exactly of a status outside 400 to 599, `InvalidStatus` exactly
    /// outside 100 to 999.
    pub fn from_u16(src: u16) -> Result<ErrorStatusCode, InvalidErrorStatusCode>
        ensures ok { OkIff result (IsErrorStatus src) src }
        ensures refused { IsErrOf result (not_an_error src) ↔ IsOutside IsErrorStatus src }
        ensures invalid { IsErrOf result InvalidErrorStatusCode.InvalidStatus ↔ ¬ (IsStatusCode src) }
    {
        match StatusCode::from_u16(src) {
            Ok(status) => Ok(ErrorStatusCode::from_status(status)?),
            Err(_) => Err(InvalidErrorStatusCode::InvalidStatus),
        }
    }

    /// The code that three digits write. `NotAnError` exactly of a status outside 400 to 599,
    /// `InvalidStatus` exactly where the bytes are not the digits of a number from 100 to 999.
    pub fn from_bytes(src: &[u8]) -> Result<ErrorStatusCode, InvalidErrorStatusCode>
        ensures ok { IfOk result (λ code. src.now ≡ code_digits code) }
        ensures range { IsOk result ↔ IsTextOf IsErrorStatus src.now }
        ensures refused { (status : ℕ) → IsErrOf result (not_an_error status)
            ↔ (IsOutside IsErrorStatus status × (src.now ≡ code_digits status)) }
        ensures invalid { IsErrOf result InvalidErrorStatusCode.InvalidStatus ↔ ¬ (IsCodeText src.now) }
    {
        match StatusCode::from_bytes(src) {
            Ok(status) => Ok(ErrorStatusCode::from_status(status)?),
            Err(_) => Err(InvalidErrorStatusCode::InvalidStatus),
        }
    }

    /// The same number as a status.
    pub fn as_status(&self) -> StatusCode
        ensures value { result ≡ self.now }
        ensures range { IsErrorStatus result }
    {
        self.0
    }

    /// The number.
    pub fn as_u16(&self) -> u16
        ensures value { result ≡ self.now }
        ensures range { IsErrorStatus result }
    {
        self.0.as_u16()
    }

    /// The three digits, with no reason phrase.
    pub fn as_str(&self) -> &str
        ensures { result.now ≡ code_digits self.now }
    {
        self.0.as_str()
    }

    /// The standard reason phrase, if the code has one.
    pub fn canonical_reason(&self) -> Option<&'static str>
        ensures value { option_map (λ reason. reason.now) result ≡ reason_phrase self.now }
        ensures visible { IfSome result (λ reason. IsVisibleAscii reason.now) }
    {
        self.0.canonical_reason()
    }

    /// The same number as a code of an error by the client. `NotAClientError` exactly from 500.
    pub fn as_client_error(&self) -> Result<ClientErrorStatusCode, NotAClientError>
        ensures ok { OkIff result (IsClientErrorStatus self.now) self.now }
        ensures refused { IfErr result (λ error. error.0 ≡ self.now) }
        ensures server { IsErr result ↔ IsServerErrorStatus self.now }
    {
        ClientErrorStatusCode::from_status(self.0)
    }

    /// Whether the number lies in 400 to 499.
    pub fn is_client_error(&self) -> bool
        ensures { IsTrue result ↔ IsClientErrorStatus self.now }
    {
        self.0.is_client_error()
    }

    /// Whether the number lies in 500 to 599.
    pub fn is_server_error(&self) -> bool
        ensures { IsTrue result ↔ IsServerErrorStatus self.now }
    {
        self.0.is_server_error()
    }

    /// Whether this is the code of a number.
    pub fn equals_u16(&self, number: u16) -> bool
        ensures { IsTrue result ↔ (self.now ≡ number) }
    {
        self.as_u16() == number
    }

    /// Whether this is the code of a status.
    pub fn equals_status(&self, status: StatusCode) -> bool
        ensures { IsTrue result ↔ (self.now ≡ status) }
    {
        self.0 == status
    }

    /// Whether this is the code of an error by the client.
    pub fn equals_client(&self, code: ClientErrorStatusCode) -> bool
        ensures { IsTrue result ↔ (self.now ≡ code) }
    {
        self.0 == code.as_status()
    }
}

/// Writes the number and its reason phrase, or `<unknown status code>` where it has none.
impl fmt::Display for ErrorStatusCode {
    ghost use Rattle.std.specs.Prelude.{Some};
    ghost use Rattle.http.specs.StatusCode.{status_text};

    ghost output = { λ code. Some (status_text code) };

    fn fmt<W: fmt::Write>(&self, f: &mut fmt::Formatter<W>) -> fmt::Result {
        fmt::Display::fmt(&self.0, f)
    }
}

/// Writes the number.
impl fmt::Debug for ErrorStatusCode {
    ghost use Rattle.std.specs.Prelude.{Some, decimal};

    ghost debug_output = { λ code. Some (decimal code) };

    fn fmt<W: fmt::Write>(&self, f: &mut fmt::Formatter<W>) -> fmt::Result {
        fmt::Debug::fmt(&self.as_u16(), f)
    }
}

impl From<ClientErrorStatusCode> for ErrorStatusCode {
    ghost from_gives = { λ client code. code ≡ client };

    fn from(code: ClientErrorStatusCode) -> ErrorStatusCode {
        ErrorStatusCode(code.as_status())
    }
}

impl From<&ClientErrorStatusCode> for ErrorStatusCode {
    ghost from_gives = { λ client code. code ≡ client.now };

    fn from(code: &ClientErrorStatusCode) -> ErrorStatusCode {
        ErrorStatusCode(code.as_status())
    }
}
