//! The outcomes of requests.
use api_respond::Reply;
use handler_shapes::ArgList;
use http_status::Response;
use std::alloc::AllocError;
use typed_values::Fault;

/// What a request came to.
#[derive(Drop)]
pub enum Exchange {
    /// The handler was called, and its reply is sent.
    Handled {
        /// The arguments of the call: trees and bytes as they were given; of a stream nothing is said.
        args: ArgList,
        /// What the handler replied. A body that is sent has moved into the response.
        reply: Reply,
        /// What is sent back.
        response: Response,
    },
    /// The request gives the handler no arguments, by this fault.
    Refused {
        /// The first fault.
        fault: Fault,
        /// What is sent back.
        response: Response,
    },
}

/// Why a request came to nothing. The store is as it was, but for want of memory.
#[derive(Drop)]
pub enum ExchangeError {
    /// The id may not stand in a header.
    BadRequestId,
    /// No endpoint has the method and the template at the version.
    NoSuchOperation,
    /// The variables are not those of the template.
    WrongVariables,
    /// A call on the body failed; with what is sent back.
    BodyFault(Response),
    /// The content of the body is above the limit: so many bytes came by the first frame that passed it, or
    /// 2^64-1 where those are more; with what is sent back.
    BodyTooLarge(u64, Response),
    /// More frames came than the budget allows; so many came, one more than the budget.
    FrameBudget(u64),
    /// There was not enough memory.
    OutOfMemory,
}

impl From<AllocError> for ExchangeError {
    ghost use Rattle.std.specs.Prelude.{◌≡◌};
    ghost use Rattle.endpoint_answers.specs.declared.outcome.ExchangeError.TheVariants.{OutOfMemory};

    ghost from_gives = { λ _ error. error ≡ OutOfMemory };

    fn from(_: AllocError) -> ExchangeError {
        ExchangeError::OutOfMemory
    }
}
