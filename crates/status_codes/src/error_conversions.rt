//! Conversions to codes of errors, and from them to a number.
ghost use Rattle.std.specs.Prelude.{◌≡◌, IfErr, OkIff};
ghost use Rattle.status_codes.specs.Conversions.{NumberGives, TextGives, not_an_error};
ghost use Rattle.status_codes.specs.Ranges.{IsErrorStatus};
ghost use Rattle.status_codes.specs.declared.errors.InvalidErrorStatusCode.TheVariants.{InvalidStatus};

use crate::ErrorStatusCode;
use crate::errors::{InvalidErrorStatusCode, NotAnError};
use http::StatusCode;
use std::str::FromStr;

impl TryFrom<StatusCode> for ErrorStatusCode {
    type Error = NotAnError;

    ghost try_from_gives = { λ status code. OkIff code (IsErrorStatus status) status
        × IfErr code (λ error. error.0 ≡ status) };

    fn try_from(status: StatusCode) -> Result<ErrorStatusCode, NotAnError> {
        ErrorStatusCode::from_status(status)
    }
}

impl TryFrom<u16> for ErrorStatusCode {
    type Error = InvalidErrorStatusCode;

    ghost try_from_gives = { λ src code.
        NumberGives IsErrorStatus not_an_error InvalidStatus src code };

    fn try_from(src: u16) -> Result<ErrorStatusCode, InvalidErrorStatusCode> {
        ErrorStatusCode::from_u16(src)
    }
}

impl TryFrom<&[u8]> for ErrorStatusCode {
    type Error = InvalidErrorStatusCode;

    ghost try_from_gives = { λ src code.
        TextGives IsErrorStatus not_an_error InvalidStatus src.now code };

    fn try_from(src: &[u8]) -> Result<ErrorStatusCode, InvalidErrorStatusCode> {
        ErrorStatusCode::from_bytes(src)
    }
}

impl TryFrom<&str> for ErrorStatusCode {
    type Error = InvalidErrorStatusCode;

    ghost try_from_gives = { λ text code.
        TextGives IsErrorStatus not_an_error InvalidStatus text.now code };

    fn try_from(text: &str) -> Result<ErrorStatusCode, InvalidErrorStatusCode> {
        text.parse()
    }
}

impl FromStr for ErrorStatusCode {
    type Err = InvalidErrorStatusCode;

    ghost from_str_gives = { λ text code.
        TextGives IsErrorStatus not_an_error InvalidStatus text code };

    fn from_str(text: &str) -> Result<ErrorStatusCode, InvalidErrorStatusCode> {
        ErrorStatusCode::from_bytes(text.as_bytes())
    }
}

impl From<&ErrorStatusCode> for ErrorStatusCode {
    ghost from_gives = { λ source code. code ≡ source.now };

    fn from(code: &ErrorStatusCode) -> ErrorStatusCode {
        *code
    }
}

impl From<ErrorStatusCode> for u16 {
    ghost from_gives = { λ code number. number ≡ code };

    fn from(code: ErrorStatusCode) -> u16 {
        code.as_u16()
    }
}
