//! Conversions to codes of errors by the client, and from them to a number.
ghost use Rattle.std.specs.Prelude.{◌≡◌, IfErr, OkIff};
ghost use Rattle.status_codes.specs.Conversions.{NumberGives, TextGives, not_a_client_error};
ghost use Rattle.status_codes.specs.Ranges.{IsClientErrorStatus};
ghost use Rattle.status_codes.specs.declared.errors.InvalidClientErrorStatusCode.TheVariants.{InvalidStatus};

use crate::errors::{InvalidClientErrorStatusCode, NotAClientError};
use crate::{ClientErrorStatusCode, ErrorStatusCode};
use http::StatusCode;
use std::str::FromStr;

impl TryFrom<StatusCode> for ClientErrorStatusCode {
    type Error = NotAClientError;

    ghost try_from_gives = { λ status code. OkIff code (IsClientErrorStatus status) status
        × IfErr code (λ error. error.0 ≡ status) };

    fn try_from(status: StatusCode) -> Result<ClientErrorStatusCode, NotAClientError> {
        ClientErrorStatusCode::from_status(status)
    }
}

impl TryFrom<u16> for ClientErrorStatusCode {
    type Error = InvalidClientErrorStatusCode;

    ghost try_from_gives = { λ src code.
        NumberGives IsClientErrorStatus not_a_client_error InvalidStatus src code };

    fn try_from(src: u16) -> Result<ClientErrorStatusCode, InvalidClientErrorStatusCode> {
        ClientErrorStatusCode::from_u16(src)
    }
}

impl TryFrom<&[u8]> for ClientErrorStatusCode {
    type Error = InvalidClientErrorStatusCode;

    ghost try_from_gives = { λ src code.
        TextGives IsClientErrorStatus not_a_client_error InvalidStatus src.now code };

    fn try_from(src: &[u8]) -> Result<ClientErrorStatusCode, InvalidClientErrorStatusCode> {
        ClientErrorStatusCode::from_bytes(src)
    }
}

impl TryFrom<&str> for ClientErrorStatusCode {
    type Error = InvalidClientErrorStatusCode;

    ghost try_from_gives = { λ text code.
        TextGives IsClientErrorStatus not_a_client_error InvalidStatus text.now code };

    fn try_from(text: &str) -> Result<ClientErrorStatusCode, InvalidClientErrorStatusCode> {
        text.parse()
    }
}

impl FromStr for ClientErrorStatusCode {
    type Err = InvalidClientErrorStatusCode;

    ghost from_str_gives = { λ text code.
        TextGives IsClientErrorStatus not_a_client_error InvalidStatus text code };

    fn from_str(text: &str) -> Result<ClientErrorStatusCode, InvalidClientErrorStatusCode> {
        ClientErrorStatusCode::from_bytes(text.as_bytes())
    }
}

impl From<&ClientErrorStatusCode> for ClientErrorStatusCode {
    ghost from_gives = { λ source code. code ≡ source.now };

    fn from(code: &ClientErrorStatusCode) -> ClientErrorStatusCode {
        *code
    }
}

impl From<ClientErrorStatusCode> for u16 {
    ghost from_gives = { λ code number. number ≡ code };

    fn from(code: ClientErrorStatusCode) -> u16 {
        code.as_u16()
    }
}

impl TryFrom<ErrorStatusCode> for ClientErrorStatusCode {
    type Error = NotAClientError;

    ghost try_from_gives = { λ error code. OkIff code (IsClientErrorStatus error) error
        × IfErr code (λ refused. refused.0 ≡ error) };

    fn try_from(error: ErrorStatusCode) -> Result<ClientErrorStatusCode, NotAClientError> {
        error.as_client_error()
    }
}

impl TryFrom<&ErrorStatusCode> for ClientErrorStatusCode {
    type Error = NotAClientError;

    ghost try_from_gives = { λ error code. OkIff code (IsClientErrorStatus error.now) error.now
        × IfErr code (λ refused. refused.0 ≡ error.now) };

    fn try_from(error: &ErrorStatusCode) -> Result<ClientErrorStatusCode, NotAClientError> {
        error.as_client_error()
    }
}
