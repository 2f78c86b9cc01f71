ghost use Rattle.std.specs.Prelude.{◌≡◌, Ok};

use std::alloc::{AllocError, Global};
use std::fmt;
use thiserror::Error;

/// Why a token was not written or not read.
#[derive(Debug, Drop, PartialEq, Eq, Error)]
pub enum TokenError {
    /// The token has this many bytes, which are more than 512.
    TooLarge(u64),
    /// The token is no base64 of the URL-safe alphabet with padding (RFC 4648, section 5).
    NotBase64,
    /// What the token encodes holds no start of a page.
    Corrupted,
    /// There was not enough memory.
    OutOfMemory,
}

/// Writes what is wrong with the token.
impl fmt::Display for TokenError {
    ghost use Rattle.std.specs.Prelude.{Some};
    ghost use Rattle.page_tokens.specs.Texts.{token_error_text};

    ghost output = { λ error. Some (token_error_text error) };

    fn fmt<W: fmt::Write>(&self, f: &mut fmt::Formatter<W>) -> fmt::Result {
        match self {
            TokenError::TooLarge(size) => write!(f, "too large: {size} bytes, of at most 512"),
            TokenError::NotBase64 => f.write_str("not base64"),
            TokenError::Corrupted => f.write_str("corrupted token"),
            TokenError::OutOfMemory => f.write_str("out of memory"),
        }
    }
}

impl TokenError {
    /// An error equal to this one. Takes no memory, and always succeeds.
    pub fn copy(&self, _alloc: Global) -> Result<TokenError, AllocError>
        ensures { result ≡ Ok self.now }
    {
        match self {
            TokenError::TooLarge(size) => Ok(TokenError::TooLarge(*size)),
            TokenError::NotBase64 => Ok(TokenError::NotBase64),
            TokenError::Corrupted => Ok(TokenError::Corrupted),
            TokenError::OutOfMemory => Ok(TokenError::OutOfMemory),
        }
    }
}

impl From<AllocError> for TokenError {
    ghost use Rattle.std.specs.Prelude.{◌≡◌};
    ghost use Rattle.page_tokens.specs.declared.token_error.TokenError.TheVariants.{OutOfMemory};

    ghost from_gives = { λ _ error. error ≡ OutOfMemory };

    fn from(_: AllocError) -> TokenError {
        TokenError::OutOfMemory
    }
}
