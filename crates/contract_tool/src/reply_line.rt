//! Reply lines: one for each outcome of a request.
ghost use Rattle.std.specs.Prelude.{◌≡◌, ◌<◌, ◌-◌, ◌^◌, IfOk, Ok, Err};
ghost use Rattle.schema_values.specs.declared.json_value.Json.{Json as JsonValue};
ghost use Rattle.reply_lines.specs.ReplyLines.{bytes_of_line};
ghost use Rattle.contract_tool.specs.Outcomes.{Tells};

use api_descriptions::{Exchange, ExchangeError};
use reply_lines::{outcome_line, response_line};
use schema_values::List;
use std::alloc::{AllocError, Global};

/// The line that tells the outcome of a request; want of memory is told by none. The body of a response is read
/// whole, in at most `budget` frames.
pub(crate) fn reply_line(
    alloc: Global,
    outcome: Result<Exchange, ExchangeError>,
    budget: u64,
) -> Result<List<u8>, AllocError>
    requires { budget < 2 ^ 64 - 1 }
    ensures { IfOk result (λ line. (json : JsonValue) × Tells budget outcome json
        × (line ≡ bytes_of_line json)) }
{
    match outcome {
        Ok(exchange) => exchange_line(alloc, exchange, budget),
        Err(error) => error_line(alloc, error, budget),
    }
}

// The line of a request that was handled or refused.
fn exchange_line(alloc: Global, exchange: Exchange, budget: u64) -> Result<List<u8>, AllocError>
    requires { budget < 2 ^ 64 - 1 }
    ensures { IfOk result (λ line. (json : JsonValue) × Tells budget (Ok exchange) json
        × (line ≡ bytes_of_line json)) }
{
    match exchange {
        Exchange::Handled { mut response, .. } => {
            response_line(alloc, "handled", &mut response, budget)
        }
        Exchange::Refused { mut response, .. } => {
            response_line(alloc, "refused", &mut response, budget)
        }
    }
}

// The line of a request that came to nothing.
fn error_line(alloc: Global, error: ExchangeError, budget: u64) -> Result<List<u8>, AllocError>
    requires { budget < 2 ^ 64 - 1 }
    ensures { IfOk result (λ line. (json : JsonValue) × Tells budget (Err error) json
        × (line ≡ bytes_of_line json)) }
{
    match error {
        ExchangeError::BadRequestId => outcome_line(alloc, "bad-request-id"),
        ExchangeError::NoSuchOperation => outcome_line(alloc, "no-such-operation"),
        ExchangeError::WrongVariables => outcome_line(alloc, "wrong-variables"),
        ExchangeError::BodyFault(mut response) => {
            response_line(alloc, "body-fault", &mut response, budget)
        }
        ExchangeError::BodyTooLarge(_, mut response) => {
            response_line(alloc, "body-too-large", &mut response, budget)
        }
        ExchangeError::FrameBudget(_) => outcome_line(alloc, "frame-budget"),
        ExchangeError::OutOfMemory => Err(AllocError),
    }
}
