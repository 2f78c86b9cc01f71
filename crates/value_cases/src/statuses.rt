//! What numbers and texts are as status codes of errors.
use case_notation::{CaseError, both, given, labelled, string_told};
use schema_values::Json;
use status_codes::{ClientErrorStatusCode, ErrorStatusCode};
use std::alloc::Global;
use std::fmt::Display;

/// The code of an error that a number or a text is, and that of an error by the client, or what each is
/// refused as.
pub fn status_told(alloc: Global, case: &Json) -> Result<Json, CaseError> {
    match given(case, "status")? {
        Json::Int(number) => match u16::try_from(*number) {
            Ok(number) => both_told(
                alloc,
                &ErrorStatusCode::from_u16(number),
                &ClientErrorStatusCode::from_u16(number),
            ),
            Err(_) => Err(CaseError::Expected("a number of 16 bits")),
        },
        Json::Text(text) => both_told(
            alloc,
            &ErrorStatusCode::from_bytes(text.as_bytes()),
            &ClientErrorStatusCode::from_bytes(text.as_bytes()),
        ),
        _ => Err(CaseError::Expected("a number or a text")),
    }
}

fn both_told<E: Display, F: Display>(
    alloc: Global,
    error: &Result<ErrorStatusCode, E>,
    client: &Result<ClientErrorStatusCode, F>,
) -> Result<Json, CaseError> {
    both(alloc, code_told(alloc, error), code_told(alloc, client))
}

fn code_told<C: Display, E: Display>(
    alloc: Global,
    answer: &Result<C, E>,
) -> Result<Json, CaseError> {
    match answer {
        Ok(code) => labelled(alloc, "code", string_told(code.to_string(alloc))),
        Err(refusal) => labelled(alloc, "refused", string_told(refusal.to_string(alloc))),
    }
}
