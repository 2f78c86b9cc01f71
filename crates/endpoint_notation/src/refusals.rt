//! Why a request gives no arguments, as cases note it.
use api_extract::ExtractError;
use case_notation::{CaseError, Record};
use std::alloc::Global;

/// What is told of an error.
pub fn error_told(alloc: Global, error: &ExtractError) -> Result<Record, CaseError> {
    let told = Record::new(alloc);
    match error {
        ExtractError::Refused(fault, message) => Ok(
            told.text("outcome", "refused")
                .text("at", fault.path.as_str())
                .text("message", message.as_str()),
        ),
        ExtractError::BodyFault => Ok(told.text("outcome", "body-fault")),
        ExtractError::BodyTooLarge(sum) => Ok(
            told.text("outcome", "body-too-large")
                .number("sum", (*sum).into()),
        ),
        ExtractError::FrameBudget(count) => Ok(
            told.text("outcome", "frame-budget")
                .number("count", (*count).into()),
        ),
        ExtractError::OutOfMemory => Err(CaseError::OutOfMemory),
    }
}
