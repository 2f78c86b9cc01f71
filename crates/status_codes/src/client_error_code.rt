//! Status codes of errors by the client.
ghost use Rattle.std.specs.Prelude.{◌≡◌, ◌↔◌, ℕ, IsErrOf, IsOk, IsTrue};
ghost use Rattle.std.specs.Prelude.{IfErr, IfOk, IfSome, OkIff, option_map};
ghost use Rattle.http.specs.StatusCode.{IsCodeText, IsStatusCode, code_digits, reason_phrase};
ghost use Rattle.http.specs.FieldValue.{IsVisibleAscii};
ghost use Rattle.status_codes.specs.Conversions.{not_a_client_error};
ghost use Rattle.status_codes.specs.Ranges.{IsClientErrorStatus, IsOutside, IsTextOf};

use crate::errors::{InvalidClientErrorStatusCode, NotAClientError};
use http::StatusCode;
use std::fmt;
use std::marker::Model;

/// A status code of an error by the client, from 400 to 499. Contracts see the number.
#[derive(Clone, Copy, PartialEq, Eq, PartialOrd, Ord, Hash)]
pub struct ClientErrorStatusCode(StatusCode);

impl Model for ClientErrorStatusCode {
    ghost use Rattle.std.specs.Prelude.{ℕ};
    ghost use Rattle.status_codes.specs.Ranges.{IsClientErrorStatus};

    ghost Value = { ℕ };

    ghost view = { λ code. code.0 };

    ghost invariant = { λ code. IsClientErrorStatus code.0 };

    ghost inverse = { λ number. record { 0 = number } };
}

impl ClientErrorStatusCode {
    /// 400 Bad Request (RFC 9110, section 15.5.1).
    pub const BAD_REQUEST: ClientErrorStatusCode = ClientErrorStatusCode(StatusCode::BAD_REQUEST);

    /// 401 Unauthorized (RFC 9110, section 15.5.2).
    pub const UNAUTHORIZED: ClientErrorStatusCode = ClientErrorStatusCode(StatusCode::UNAUTHORIZED);

    /// 402 Payment Required (RFC 9110, section 15.5.3).
    pub const PAYMENT_REQUIRED: ClientErrorStatusCode = ClientErrorStatusCode(
        StatusCode::PAYMENT_REQUIRED,
    );

    /// 403 Forbidden (RFC 9110, section 15.5.4).
    pub const FORBIDDEN: ClientErrorStatusCode = ClientErrorStatusCode(StatusCode::FORBIDDEN);

    /// 404 Not Found (RFC 9110, section 15.5.5).
    pub const NOT_FOUND: ClientErrorStatusCode = ClientErrorStatusCode(StatusCode::NOT_FOUND);

    /// 405 Method Not Allowed (RFC 9110, section 15.5.6).
    pub const METHOD_NOT_ALLOWED: ClientErrorStatusCode = ClientErrorStatusCode(
        StatusCode::METHOD_NOT_ALLOWED,
    );

    /// 406 Not Acceptable (RFC 9110, section 15.5.7).
    pub const NOT_ACCEPTABLE: ClientErrorStatusCode = ClientErrorStatusCode(
        StatusCode::NOT_ACCEPTABLE,
    );

    /// 407 Proxy Authentication Required (RFC 9110, section 15.5.8).
    pub const PROXY_AUTHENTICATION_REQUIRED: ClientErrorStatusCode = ClientErrorStatusCode(
        StatusCode::PROXY_AUTHENTICATION_REQUIRED,
    );

    /// 408 Request Timeout (RFC 9110, section 15.5.9).
    pub const REQUEST_TIMEOUT: ClientErrorStatusCode = ClientErrorStatusCode(
        StatusCode::REQUEST_TIMEOUT,
    );

    /// 409 Conflict (RFC 9110, section 15.5.10).
    pub const CONFLICT: ClientErrorStatusCode = ClientErrorStatusCode(StatusCode::CONFLICT);

    /// 410 Gone (RFC 9110, section 15.5.11).
    pub const GONE: ClientErrorStatusCode = ClientErrorStatusCode(StatusCode::GONE);

    /// 411 Length Required (RFC 9110, section 15.5.12).
    pub const LENGTH_REQUIRED: ClientErrorStatusCode = ClientErrorStatusCode(
        StatusCode::LENGTH_REQUIRED,
    );

    /// 412 Precondition Failed (RFC 9110, section 15.5.13).
    pub const PRECONDITION_FAILED: ClientErrorStatusCode = ClientErrorStatusCode(
        StatusCode::PRECONDITION_FAILED,
    );

    /// 413 Payload Too Large (RFC 9110, section 15.5.14, which calls it Content Too Large).
    pub const PAYLOAD_TOO_LARGE: ClientErrorStatusCode = ClientErrorStatusCode(
        StatusCode::PAYLOAD_TOO_LARGE,
    );

    /// 414 URI Too Long (RFC 9110, section 15.5.15).
    pub const URI_TOO_LONG: ClientErrorStatusCode = ClientErrorStatusCode(StatusCode::URI_TOO_LONG);

    /// 415 Unsupported Media Type (RFC 9110, section 15.5.16).
    pub const UNSUPPORTED_MEDIA_TYPE: ClientErrorStatusCode = ClientErrorStatusCode(
        StatusCode::UNSUPPORTED_MEDIA_TYPE,
    );

    /// 416 Range Not Satisfiable (RFC 9110, section 15.5.17).
    pub const RANGE_NOT_SATISFIABLE: ClientErrorStatusCode = ClientErrorStatusCode(
        StatusCode::RANGE_NOT_SATISFIABLE,
    );

    /// 417 Expectation Failed (RFC 9110, section 15.5.18).
    pub const EXPECTATION_FAILED: ClientErrorStatusCode = ClientErrorStatusCode(
        StatusCode::EXPECTATION_FAILED,
    );

    /// 418 I'm a teapot (RFC 2324, section 2.3.2).
    pub const IM_A_TEAPOT: ClientErrorStatusCode = ClientErrorStatusCode(StatusCode::IM_A_TEAPOT);

    /// 421 Misdirected Request (RFC 9110, section 15.5.20).
    pub const MISDIRECTED_REQUEST: ClientErrorStatusCode = ClientErrorStatusCode(
        StatusCode::MISDIRECTED_REQUEST,
    );

    /// 422 Unprocessable Entity (RFC 9110, section 15.5.21, which calls it Unprocessable Content).
    pub const UNPROCESSABLE_ENTITY: ClientErrorStatusCode = ClientErrorStatusCode(
        StatusCode::UNPROCESSABLE_ENTITY,
    );

    /// 423 Locked (RFC 4918, section 11.3).
    pub const LOCKED: ClientErrorStatusCode = ClientErrorStatusCode(StatusCode::LOCKED);

    /// 424 Failed Dependency (RFC 4918, section 11.4).
    pub const FAILED_DEPENDENCY: ClientErrorStatusCode = ClientErrorStatusCode(
        StatusCode::FAILED_DEPENDENCY,
    );

    /// 426 Upgrade Required (RFC 9110, section 15.5.22).
    pub const UPGRADE_REQUIRED: ClientErrorStatusCode = ClientErrorStatusCode(
        StatusCode::UPGRADE_REQUIRED,
    );

    /// 428 Precondition Required (RFC 6585, section 3).
    pub const PRECONDITION_REQUIRED: ClientErrorStatusCode = ClientErrorStatusCode(
        StatusCode::PRECONDITION_REQUIRED,
    );

    /// 429 Too Many Requests (RFC 6585, section 4).
    pub const TOO_MANY_REQUESTS: ClientErrorStatusCode = ClientErrorStatusCode(
        StatusCode::TOO_MANY_REQUESTS,
    );

    /// 431 Request Header Fields Too Large (RFC 6585, section 5).
    pub const REQUEST_HEADER_FIELDS_TOO_LARGE: ClientErrorStatusCode = ClientErrorStatusCode(
        StatusCode::REQUEST_HEADER_FIELDS_TOO_LARGE,
    );

    /// 451 Unavailable For Legal Reasons (RFC 7725, section 3).
    pub const UNAVAILABLE_FOR_LEGAL_REASONS: ClientErrorStatusCode = ClientErrorStatusCode(
        StatusCode::UNAVAILABLE_FOR_LEGAL_REASONS,
    );
}

impl ClientErrorStatusCode {
    /// The code of a status. `NotAClientError` exactly outside 400 to 499.
    pub fn from_status(status: StatusCode) -> Result<ClientErrorStatusCode, NotAClientError>
        ensures ok { OkIff result (IsClientErrorStatus status) status }
        ensures refused { IfErr result (λ error. error.0 ≡ status) }
    {
        if (400..=499).contains(&status.as_u16()) {
            Ok(ClientErrorStatusCode(status))
        } else {
            Err(NotAClientError(status))
        }
    }

    /// The code of a number. `NotAClientError` exactly of a status outside 400 to 499, `InvalidStatus`
    /// exactly outside 100 to 999.
    pub fn from_u16(src: u16) -> Result<ClientErrorStatusCode, InvalidClientErrorStatusCode>
        ensures ok { OkIff result (IsClientErrorStatus src) src }
        ensures refused { IsErrOf result (not_a_client_error src) ↔ IsOutside IsClientErrorStatus src }
        ensures invalid { IsErrOf result InvalidClientErrorStatusCode.InvalidStatus
            ↔ ¬ (IsStatusCode src) }
    {
        match StatusCode::from_u16(src) {
            Ok(status) => Ok(ClientErrorStatusCode::from_status(status)?),
            Err(_) => Err(InvalidClientErrorStatusCode::InvalidStatus),
        }
    }

    /// The code that three digits write. `NotAClientError` exactly of a status outside 400 to 499,
    /// `InvalidStatus` exactly where the bytes are not the digits of a number from 100 to 999.
    pub fn from_bytes(src: &[u8]) -> Result<ClientErrorStatusCode, InvalidClientErrorStatusCode>
        ensures ok { IfOk result (λ code. src.now ≡ code_digits code) }
        ensures range { IsOk result ↔ IsTextOf IsClientErrorStatus src.now }
        ensures refused { (status : ℕ) → IsErrOf result (not_a_client_error status)
            ↔ (IsOutside IsClientErrorStatus status × (src.now ≡ code_digits status)) }
        ensures invalid { IsErrOf result InvalidClientErrorStatusCode.InvalidStatus
            ↔ ¬ (IsCodeText src.now) }
    {
        match StatusCode::from_bytes(src) {
            Ok(status) => Ok(ClientErrorStatusCode::from_status(status)?),
            Err(_) => Err(InvalidClientErrorStatusCode::InvalidStatus),
        }
    }

    /// The same number as a status.
    pub fn as_status(&self) -> StatusCode
        ensures value { result ≡ self.now }
        ensures range { IsClientErrorStatus result }
    {
        self.0
    }

    /// The number.
    pub fn as_u16(&self) -> u16
        ensures value { result ≡ self.now }
        ensures range { IsClientErrorStatus result }
    {
        self.0.as_u16()
    }

    /// The three digits, with no reason phrase.
    pub fn as_str(&self) -> &str
        ensures { result.now ≡ code_digits self.now }
    {
        self.0.as_str()
    }

    /// The standard reason phrase, if the code has one.
    pub fn canonical_reason(&self) -> Option<&'static str>
        ensures value { option_map (λ reason. reason.now) result ≡ reason_phrase self.now }
        ensures visible { IfSome result (λ reason. IsVisibleAscii reason.now) }
    {
        self.0.canonical_reason()
    }

    /// Whether this is the code of a number.
    pub fn equals_u16(&self, number: u16) -> bool
        ensures { IsTrue result ↔ (self.now ≡ number) }
    {
        self.as_u16() == number
    }

    /// Whether this is the code of a status.
    pub fn equals_status(&self, status: StatusCode) -> bool
        ensures { IsTrue result ↔ (self.now ≡ status) }
    {
        self.0 == status
    }
}

/// Writes the number and its reason phrase, or `<unknown status code>` where it has none.
impl fmt::Display for ClientErrorStatusCode {
    ghost use Rattle.std.specs.Prelude.{Some};
    ghost use Rattle.http.specs.StatusCode.{status_text};

    ghost output = { λ code. Some (status_text code) };

    fn fmt<W: fmt::Write>(&self, f: &mut fmt::Formatter<W>) -> fmt::Result {
        fmt::Display::fmt(&self.0, f)
    }
}

/// Writes the number.
impl fmt::Debug for ClientErrorStatusCode {
    ghost use Rattle.std.specs.Prelude.{Some, decimal};

    ghost debug_output = { λ code. Some (decimal code) };

    fn fmt<W: fmt::Write>(&self, f: &mut fmt::Formatter<W>) -> fmt::Result {
        fmt::Debug::fmt(&self.as_u16(), f)
    }
}
