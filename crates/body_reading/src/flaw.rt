//! What is wrong with the body of a request, and the error that tells it.
ghost use Rattle.std.specs.Prelude.{◌≡◌, ◌++◌, IfOk, OnOk};
ghost use Rattle.std.specs.Fmt.{decimal};
ghost use Rattle.body_reading.specs.Flaws.{flaw_error, flaw_message, too_large_message};

use http_status::HttpError;
use schema_values::Text;
use std::alloc::{AllocError, Global};
use std::fmt;
use thiserror::Error;

/// What is wrong with the body of a request that is read under a limit and a budget of frames.
#[derive(Clone, Copy, Debug, Drop, PartialEq, Eq, Error)]
pub enum BodyFlaw {
    /// A call on the body failed.
    Fault,
    /// The content has more bytes than this limit.
    TooLarge(u64),
    /// There are more frames than the budget.
    FrameBudget,
}

/// Writes the message for the client.
impl fmt::Display for BodyFlaw {
    ghost use Rattle.std.specs.Prelude.{Some};
    ghost use Rattle.body_reading.specs.Flaws.{flaw_message};

    ghost output = { λ flaw. Some (flaw_message flaw) };

    fn fmt<W: fmt::Write>(&self, f: &mut fmt::Formatter<W>) -> fmt::Result {
        match self {
            BodyFlaw::Fault => f.write_str("error streaming request body: fault"),
            BodyFlaw::TooLarge(limit) => {
                write!(f, "request body exceeded maximum size of {limit} bytes")
            }
            BodyFlaw::FrameBudget => f.write_str("request body has too many frames"),
        }
    }
}

impl BodyFlaw {
    /// The error that a request with such a body is answered with: 400, without a code, with the
    /// message for the client and the log. Fails only for want of memory.
    pub fn http_error(&self, alloc: Global) -> Result<HttpError, AllocError>
        ensures { IfOk result (λ error. error ≡ flaw_error self.now) }
    {
        HttpError::for_bad_request(alloc, None, message(alloc, self)?)
    }
}

// The message for the client.
fn message(alloc: Global, flaw: &BodyFlaw) -> Result<Text, AllocError>
    ensures { IfOk result (λ message. message ≡ flaw_message flaw.now) }
{
    match flaw {
        BodyFlaw::Fault => Text::from_ascii(alloc, "error streaming request body: fault"),
        BodyFlaw::TooLarge(limit) => too_large_message(alloc, *limit),
        BodyFlaw::FrameBudget => Text::from_ascii(alloc, "request body has too many frames"),
    }
}

// The message on a content above this limit.
fn too_large_message(alloc: Global, limit: u64) -> Result<Text, AllocError>
    ensures { IfOk result (λ message. message ≡ too_large_message limit) }
{
    let mut text = Text::from_ascii(alloc, "request body exceeded maximum size of ")?;
    push_count(alloc, &mut text, limit)?;
    text.push_ascii(" bytes")?;
    Ok(text)
}

// Puts the decimal digits of a number at the end.
fn push_count(alloc: Global, text: &mut Text, count: u64) -> Result<(), AllocError>
    ensures { OnOk result (text.new ≡ text.old ++ decimal count) }
{
    text.push_number(alloc, count as i128)
}
