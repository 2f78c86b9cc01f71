//! Why a line gave no request.
use hex::FromHexError;
use http::method::MethodError;
use http_header::{HeaderNameError, HeaderValueError};
use http_uri::UriError;
use schema_values::ReadError;
use std::alloc::AllocError;

/// Why a line gave no request.
#[derive(Clone, Copy, Debug, Drop, PartialEq, Eq)]
pub enum LineError {
    /// It has no reading, denotes no members, or one of these is refused.
    Bad,
    /// There was not enough memory.
    OutOfMemory,
}

impl From<AllocError> for LineError {
    ghost use Rattle.std.specs.Prelude.{◌≡◌};
    ghost use Rattle.request_lines.specs.declared.line_error.LineError.TheVariants.{OutOfMemory};

    ghost from_gives = { λ _ error. error ≡ OutOfMemory };

    fn from(_: AllocError) -> LineError {
        LineError::OutOfMemory
    }
}

// Of each error below `Bad` is made exactly where it is no want of memory.

impl From<ReadError> for LineError {
    ghost use Rattle.std.specs.Prelude.{◌≡◌, ◌↔◌};
    ghost use Rattle.schema_values.specs.declared.read.ReadError.TheVariants.{Unreadable};
    ghost use Rattle.request_lines.specs.declared.line_error.LineError.TheVariants.{Bad};

    ghost from_gives = { λ error made. made ≡ Bad ↔ error ≡ Unreadable };

    fn from(error: ReadError) -> LineError {
        match error {
            ReadError::Unreadable => LineError::Bad,
            ReadError::OutOfMemory => LineError::OutOfMemory,
        }
    }
}

impl From<MethodError> for LineError {
    ghost use Rattle.std.specs.Prelude.{◌≡◌, ◌↔◌};
    ghost use Rattle.http.specs.declared.method.MethodError.TheVariants.{Invalid};
    ghost use Rattle.request_lines.specs.declared.line_error.LineError.TheVariants.{Bad};

    ghost from_gives = { λ error made. made ≡ Bad ↔ error ≡ Invalid };

    fn from(error: MethodError) -> LineError {
        match error {
            MethodError::Invalid => LineError::Bad,
            MethodError::OutOfMemory => LineError::OutOfMemory,
        }
    }
}

impl From<UriError> for LineError {
    ghost use Rattle.std.specs.Prelude.{◌≡◌, ◌≢◌, ◌↔◌};
    ghost use Rattle.http_uri.specs.declared.error.UriError.TheVariants.{OutOfMemory};
    ghost use Rattle.request_lines.specs.declared.line_error.LineError.TheVariants.{Bad};

    ghost from_gives = { λ error made. made ≡ Bad ↔ error ≢ OutOfMemory };

    fn from(error: UriError) -> LineError {
        match error {
            UriError::Invalid(_) => LineError::Bad,
            UriError::OutOfMemory => LineError::OutOfMemory,
        }
    }
}

impl From<HeaderNameError> for LineError {
    ghost use Rattle.std.specs.Prelude.{◌≡◌, ◌↔◌};
    ghost use Rattle.http_header.specs.declared.name.HeaderNameError.TheVariants.{Invalid};
    ghost use Rattle.request_lines.specs.declared.line_error.LineError.TheVariants.{Bad};

    ghost from_gives = { λ error made. made ≡ Bad ↔ error ≡ Invalid };

    fn from(error: HeaderNameError) -> LineError {
        match error {
            HeaderNameError::Invalid => LineError::Bad,
            HeaderNameError::OutOfMemory => LineError::OutOfMemory,
        }
    }
}

impl From<HeaderValueError> for LineError {
    ghost use Rattle.std.specs.Prelude.{◌≡◌, ◌↔◌};
    ghost use Rattle.http_header.specs.declared.value.HeaderValueError.TheVariants.{Invalid};
    ghost use Rattle.request_lines.specs.declared.line_error.LineError.TheVariants.{Bad};

    ghost from_gives = { λ error made. made ≡ Bad ↔ error ≡ Invalid };

    fn from(error: HeaderValueError) -> LineError {
        match error {
            HeaderValueError::Invalid => LineError::Bad,
            HeaderValueError::OutOfMemory => LineError::OutOfMemory,
        }
    }
}

impl From<FromHexError> for LineError {
    ghost use Rattle.std.specs.Prelude.{◌≡◌, ◌≢◌, ◌↔◌};
    ghost use Rattle.hex.specs.declared.error.FromHexError.TheVariants.{OutOfMemory};
    ghost use Rattle.request_lines.specs.declared.line_error.LineError.TheVariants.{Bad};

    ghost from_gives = { λ error made. made ≡ Bad ↔ error ≢ OutOfMemory };

    fn from(error: FromHexError) -> LineError {
        match error {
            FromHexError::OutOfMemory => LineError::OutOfMemory,
            _ => LineError::Bad,
        }
    }
}
