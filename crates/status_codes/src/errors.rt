//! Why there is no code of errors.

use http::StatusCode;
use std::fmt;
use thiserror::Error;

/// A status code outside 400 to 599, as it was given.
#[derive(Clone, Copy, Debug, Error)]
pub struct NotAnError(pub StatusCode);

/// Writes the status and what it is not.
impl fmt::Display for NotAnError {
    ghost use Rattle.std.specs.Prelude.{Some};
    ghost use Rattle.status_codes.specs.Texts.{not_an_error_text};

    ghost output = { λ error. Some (not_an_error_text error.0) };

    fn fmt<W: fmt::Write>(&self, f: &mut fmt::Formatter<W>) -> fmt::Result {
        write!(f, "status code {} is not a 4xx or 5xx error", self.0)
    }
}

/// A status code outside 400 to 499, as it was given.
#[derive(Clone, Copy, Debug, Error)]
pub struct NotAClientError(pub StatusCode);

/// Writes the status and what it is not.
impl fmt::Display for NotAClientError {
    ghost use Rattle.std.specs.Prelude.{Some};
    ghost use Rattle.status_codes.specs.Texts.{not_a_client_error_text};

    ghost output = { λ error. Some (not_a_client_error_text error.0) };

    fn fmt<W: fmt::Write>(&self, f: &mut fmt::Formatter<W>) -> fmt::Result {
        write!(f, "status code {} is not a 4xx client error", self.0)
    }
}

/// Why a number or a text is no code of an error by the client or the server.
#[derive(Clone, Copy, Debug, Error)]
pub enum InvalidErrorStatusCode {
    /// It is a status code outside 400 to 599.
    NotAnError(NotAnError),
    /// It is no status code: no number from 100 to 999, or no three digits that write one.
    InvalidStatus,
}

impl From<NotAnError> for InvalidErrorStatusCode {
    ghost use Rattle.std.specs.Prelude.{◌≡◌};
    ghost use Rattle.status_codes.specs.declared.errors.InvalidErrorStatusCode.TheVariants.{NotAnError};

    ghost from_gives = { λ error invalid. invalid ≡ NotAnError error };

    fn from(error: NotAnError) -> InvalidErrorStatusCode {
        InvalidErrorStatusCode::NotAnError(error)
    }
}

/// Writes what the status is not, or that there is no status.
impl fmt::Display for InvalidErrorStatusCode {
    ghost use Rattle.std.specs.Prelude.{Some};
    ghost use Rattle.status_codes.specs.Texts.{invalid_error_text};

    ghost output = { λ invalid. Some (invalid_error_text invalid) };

    fn fmt<W: fmt::Write>(&self, f: &mut fmt::Formatter<W>) -> fmt::Result {
        match self {
            InvalidErrorStatusCode::NotAnError(error) => fmt::Display::fmt(error, f),
            InvalidErrorStatusCode::InvalidStatus => f.write_str("invalid status code"),
        }
    }
}

/// Why a number or a text is no code of an error by the client.
#[derive(Clone, Copy, Debug, Error)]
pub enum InvalidClientErrorStatusCode {
    /// It is a status code outside 400 to 499.
    NotAClientError(NotAClientError),
    /// It is no status code: no number from 100 to 999, or no three digits that write one.
    InvalidStatus,
}

impl From<NotAClientError> for InvalidClientErrorStatusCode {
    ghost use Rattle.std.specs.Prelude.{◌≡◌};
    ghost use Rattle.status_codes.specs.declared.errors.InvalidClientErrorStatusCode.TheVariants as client;

    ghost from_gives = { λ error invalid. invalid ≡ client.NotAClientError error };

    fn from(error: NotAClientError) -> InvalidClientErrorStatusCode {
        InvalidClientErrorStatusCode::NotAClientError(error)
    }
}

/// Writes what the status is not, or that there is no status.
impl fmt::Display for InvalidClientErrorStatusCode {
    ghost use Rattle.std.specs.Prelude.{Some};
    ghost use Rattle.status_codes.specs.Texts.{invalid_client_error_text};

    ghost output = { λ invalid. Some (invalid_client_error_text invalid) };

    fn fmt<W: fmt::Write>(&self, f: &mut fmt::Formatter<W>) -> fmt::Result {
        match self {
            InvalidClientErrorStatusCode::NotAClientError(error) => fmt::Display::fmt(error, f),
            InvalidClientErrorStatusCode::InvalidStatus => f.write_str("invalid status code"),
        }
    }
}
