//! The header lines that an error brings along.
ghost use Rattle.std.specs.Prelude.{◌≡◌, ◌↔◌, IfOk, IsErrOf, OnErr, OnOk};
ghost use Rattle.std.specs.Borrow.{sem};
ghost use Rattle.http_header.specs.FieldName.{IsFieldName};
ghost use Rattle.http_header.specs.FieldValue.{IsFieldValue};
ghost use Rattle.http_status.specs.ErrorLines.{LendsLines, header_line, own_lines};
ghost use Rattle.http_status.specs.ErrorLines.{with_line};

use crate::HttpError;
use header_lists::HeaderList;
use http_header::{HeaderName, HeaderNameError, HeaderValue, HeaderValueError};
use std::alloc::{AllocError, Global};
use std::fmt;
use thiserror::Error;

/// Why a header line was not added.
#[derive(Clone, Copy, Debug, PartialEq, Eq, Error)]
pub enum HeaderError {
    /// The name is no name of a header field (RFC 9110, section 5.1), or longer than 65,535 bytes.
    BadName,
    /// A byte of the value is neither a tab nor at least 0x20 and not 0x7F (RFC 9110, section 5.5).
    BadValue,
    /// There was not enough memory.
    OutOfMemory,
}

/// Writes what is wrong with the line.
impl fmt::Display for HeaderError {
    ghost use Rattle.std.specs.Prelude.{Some};
    ghost use Rattle.http_status.specs.Texts.{header_error_text};

    ghost output = { λ error. Some (header_error_text error) };

    fn fmt<W: fmt::Write>(&self, f: &mut fmt::Formatter<W>) -> fmt::Result {
        f.write_str(match self {
            HeaderError::BadName => "invalid header name",
            HeaderError::BadValue => "invalid header value",
            HeaderError::OutOfMemory => "out of memory",
        })
    }
}

impl From<AllocError> for HeaderError {
    ghost use Rattle.std.specs.Prelude.{◌≡◌};
    ghost use Rattle.http_status.specs.declared.error_headers.HeaderError.TheVariants.{OutOfMemory};

    ghost from_gives = { λ _ error. error ≡ OutOfMemory };

    fn from(_: AllocError) -> HeaderError {
        HeaderError::OutOfMemory
    }
}

impl HttpError {
    /// The error's own lines, as a list that is made empty where there was none. What is written
    /// through it is what the error has.
    pub fn headers_mut(&mut self, alloc: Global) -> &mut HeaderList
        ensures lines { result.now ≡ own_lines self.old }
        ensures* writes_back { sem 𝓛 (LendsLines self.entry result) }
    {
        self.headers.get_or_insert_with(|| HeaderList::new(alloc))
    }

    /// Puts a line behind the error's own, with its name in lower case. `BadName` exactly where the
    /// name is no name of a header field, `BadValue` exactly where the name is one and the value is
    /// none of a header field. After any refusal, and for want of memory, the error is as it was.
    pub fn append_header(
        &mut self,
        alloc: Global,
        name: &str,
        value: &[u8],
    ) -> Result<(), HeaderError>
        ensures ok { OnOk result (self.new ≡ with_line self.old name.now value.now) }
        ensures valid { OnOk result (IsFieldName name.now × IsFieldValue value.now) }
        ensures err { OnErr result (self.new ≡ self.old) }
        ensures bad_name { IsErrOf result HeaderError.BadName ↔ ¬ (IsFieldName name.now) }
        ensures bad_value { IsErrOf result HeaderError.BadValue
            ↔ (IsFieldName name.now × ¬ (IsFieldValue value.now)) }
    {
        let (name, value) = line(alloc, name, value)?;
        match &mut self.headers {
            Some(lines) => lines.append(name, value)?,
            None => {
                let mut lines = HeaderList::new(alloc);
                lines.append(name, value)?;
                self.headers = Some(lines);
            }
        }
        Ok(())
    }

    /// Puts a line behind the error's own, and gives the error back. It is refused as by
    /// `append_header`, which leaves the error as it was.
    pub fn add_header(
        &mut self,
        alloc: Global,
        name: &str,
        value: &[u8],
    ) -> Result<&mut HttpError, HeaderError>
        ensures ok { IfOk result (λ error. error.now ≡ with_line self.old name.now value.now) }
        ensures valid { OnOk result (IsFieldName name.now × IsFieldValue value.now) }
        ensures same { IfOk result (λ error. error.ghost_name ≡ self.entry.ghost_name) }
        ensures bad_name { IsErrOf result HeaderError.BadName ↔ ¬ (IsFieldName name.now) }
        ensures bad_value { IsErrOf result HeaderError.BadValue
            ↔ (IsFieldName name.now × ¬ (IsFieldValue value.now)) }
    {
        self.append_header(alloc, name, value)?;
        Ok(self)
    }

    /// The error with a line behind its own, with the name in lower case. It is refused as by
    /// `append_header`, and the error is then dropped.
    pub fn with_header(
        self,
        alloc: Global,
        name: &str,
        value: &[u8],
    ) -> Result<HttpError, HeaderError>
        ensures ok { IfOk result (λ error. error ≡ with_line self name.now value.now) }
        ensures valid { OnOk result (IsFieldName name.now × IsFieldValue value.now) }
        ensures bad_name { IsErrOf result HeaderError.BadName ↔ ¬ (IsFieldName name.now) }
        ensures bad_value { IsErrOf result HeaderError.BadValue
            ↔ (IsFieldName name.now × ¬ (IsFieldValue value.now)) }
    {
        let mut error = self;
        error.append_header(alloc, name, value)?;
        Ok(error)
    }
}

// The line of a name and a value. Both are looked at whatever memory there is, the name first.
fn line(alloc: Global, name: &str, value: &[u8]) -> Result<(HeaderName, HeaderValue), HeaderError>
    ensures ok { IfOk result (λ line. line ≡ header_line name.now value.now) }
    ensures valid { OnOk result (IsFieldName name.now × IsFieldValue value.now) }
    ensures bad_name { IsErrOf result HeaderError.BadName ↔ ¬ (IsFieldName name.now) }
    ensures bad_value { IsErrOf result HeaderError.BadValue
        ↔ (IsFieldName name.now × ¬ (IsFieldValue value.now)) }
{
    let name = HeaderName::from_bytes(alloc, name.as_bytes());
    let value = HeaderValue::from_bytes(alloc, value);
    match (name, value) {
        (Ok(name), Ok(value)) => Ok((name, value)),
        (Err(HeaderNameError::Invalid), _) => Err(HeaderError::BadName),
        (_, Err(HeaderValueError::Invalid)) => Err(HeaderError::BadValue),
        _ => Err(HeaderError::OutOfMemory),
    }
}
