//! Errors that are answered.
ghost use Rattle.std.specs.Prelude.{◌≡◌, IfOk};
ghost use Rattle.std.specs.Option.{option_copied};
ghost use Rattle.http_status.specs.Errors.{bad_request, client_error, client_error_phrase};
ghost use Rattle.http_status.specs.Errors.{internal_error, not_found, unavailable};

use header_lists::HeaderList;
use http_header::{HeaderName, HeaderValue};
use schema_values::{Text, copy_text};
use status_codes::{ClientErrorStatusCode, ErrorStatusCode};
use std::alloc::{AllocError, Global};
use std::fmt;
use thiserror::Error;

/// An error that is answered: its status, its code for programs, a message for the client and one
/// for the log, and header lines of its own.
#[derive(Drop, Error)]
pub struct HttpError {
    /// The status, from 400 to 599.
    pub status_code: ErrorStatusCode,
    /// The code for programs, if there is one.
    pub error_code: Option<Text>,
    /// The message for the client.
    pub external_message: Text,
    /// The message for the log.
    pub internal_message: Text,
    /// The header lines that stand before all others in the response, if there are any.
    pub headers: Option<HeaderList>,
}

/// Writes the status and the message for the client.
impl fmt::Display for HttpError {
    ghost use Rattle.std.specs.Prelude.{Some};
    ghost use Rattle.http_status.specs.Texts.{error_text};

    ghost output = { λ error. Some (error_text error) };

    fn fmt<W: fmt::Write>(&self, f: &mut fmt::Formatter<W>) -> fmt::Result {
        write!(
            f,
            "HttpError({}): {}",
            self.status_code, self.external_message
        )
    }
}

/// Writes the fields by their names; under `{:#?}`, which no clause describes, each on lines of its own.
impl fmt::Debug for HttpError {
    ghost use Rattle.http_status.specs.Texts.{error_debug_text};

    ghost debug_output = { error_debug_text };

    fn fmt<W: fmt::Write>(&self, f: &mut fmt::Formatter<W>) -> fmt::Result {
        if f.alternate() {
            return fields_on_lines(self, f);
        }
        let headers = listed(self);
        write!(
            f,
            "HttpError {{ status_code: {:?}, error_code: {:?}, external_message: {:?}, \
             internal_message: {:?}, headers: {headers:?} }}",
            self.status_code, self.error_code, self.external_message, self.internal_message
        )
    }
}

// Writes the fields as `{:#?}` does.
fn fields_on_lines<W: fmt::Write>(error: &HttpError, f: &mut fmt::Formatter<W>) -> fmt::Result {
    f.debug_struct("HttpError")
        .field("status_code", &error.status_code)
        .field("error_code", &error.error_code)
        .field("external_message", &error.external_message)
        .field("internal_message", &error.internal_message)
        .field("headers", &listed(error))
        .finish()
}

// The header lines, if the error has a list of its own.
fn listed(error: &HttpError) -> Option<&[(HeaderName, HeaderValue)]>
    ensures { option_copied result ≡ error.now.headers }
{
    Some(error.headers.as_ref()?.lines())
}

impl HttpError {
    /// An error by the client, with one message for both. Fails only for want of memory, as the
    /// calls below.
    pub fn for_client_error(
        alloc: Global,
        error_code: Option<Text>,
        status_code: ClientErrorStatusCode,
        message: Text,
    ) -> Result<HttpError, AllocError>
        ensures { IfOk result (λ error. error ≡ client_error error_code status_code message) }
    {
        Ok(HttpError {
            external_message: message.copy(alloc)?,
            status_code: status_code.into(),
            error_code,
            internal_message: message,
            headers: None,
        })
    }

    /// Status 500 and the code `Internal`, with a message for the log alone (RFC 9110, section
    /// 15.6.1).
    pub fn for_internal_error(
        alloc: Global,
        internal_message: Text,
    ) -> Result<HttpError, AllocError>
        ensures { IfOk result (λ error. error ≡ internal_error internal_message) }
    {
        Ok(HttpError {
            status_code: ErrorStatusCode::INTERNAL_SERVER_ERROR,
            error_code: Some(Text::from_ascii(alloc, "Internal")?),
            external_message: Text::from_ascii(alloc, "Internal Server Error")?,
            internal_message,
            headers: None,
        })
    }

    /// Status 503, with a message for the log alone (RFC 9110, section 15.6.4).
    pub fn for_unavail(
        alloc: Global,
        error_code: Option<Text>,
        internal_message: Text,
    ) -> Result<HttpError, AllocError>
        ensures { IfOk result (λ error. error ≡ unavailable error_code internal_message) }
    {
        Ok(HttpError {
            external_message: Text::from_ascii(alloc, "Service Unavailable")?,
            status_code: ErrorStatusCode::SERVICE_UNAVAILABLE,
            error_code,
            internal_message,
            headers: None,
        })
    }

    /// Status 400, with one message for both (RFC 9110, section 15.5.1).
    pub fn for_bad_request(
        alloc: Global,
        error_code: Option<Text>,
        message: Text,
    ) -> Result<HttpError, AllocError>
        ensures { IfOk result (λ error. error ≡ bad_request error_code message) }
    {
        HttpError::for_client_error(
            alloc,
            error_code,
            ClientErrorStatusCode::BAD_REQUEST,
            message,
        )
    }

    /// An error by the client, with the reason phrase of its status as both messages, or `Client
    /// Error` where it has none.
    pub fn for_client_error_with_status(
        alloc: Global,
        error_code: Option<Text>,
        status_code: ClientErrorStatusCode,
    ) -> Result<HttpError, AllocError>
        ensures { IfOk result (λ error.
            error ≡ client_error error_code status_code (client_error_phrase status_code)) }
    {
        let phrase = status_code.canonical_reason().unwrap_or("Client Error");
        let message = Text::from_str(alloc, phrase)?;
        HttpError::for_client_error(alloc, error_code, status_code, message)
    }

    /// Status 404, with a message for the log alone (RFC 9110, section 15.5.5).
    pub fn for_not_found(
        alloc: Global,
        error_code: Option<Text>,
        internal_message: Text,
    ) -> Result<HttpError, AllocError>
        ensures { IfOk result (λ error. error ≡ not_found error_code internal_message) }
    {
        Ok(HttpError {
            external_message: Text::from_ascii(alloc, "Not Found")?,
            status_code: ErrorStatusCode::NOT_FOUND,
            error_code,
            internal_message,
            headers: None,
        })
    }

    /// An error equal to this one. Fails only for want of memory.
    pub fn copy(&self, alloc: Global) -> Result<HttpError, AllocError>
        ensures { IfOk result (λ copy. copy ≡ self.now) }
    {
        Ok(HttpError {
            status_code: self.status_code,
            error_code: copy_text(alloc, &self.error_code)?,
            external_message: self.external_message.copy(alloc)?,
            internal_message: self.internal_message.copy(alloc)?,
            headers: copy_lines(alloc, &self.headers)?,
        })
    }
}

// Header lines equal to these, where there are any.
fn copy_lines(alloc: Global, lines: &Option<HeaderList>) -> Result<Option<HeaderList>, AllocError>
    ensures { IfOk result (λ copy. copy ≡ lines.now) }
{
    match lines {
        Some(lines) => Ok(Some(lines.copy(alloc)?)),
        None => Ok(None),
    }
}
