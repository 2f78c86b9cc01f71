//! Calls on bodies that are read data by data. `"content"` is the content of a body that is kept as
//! bytes; else `"body"` has the frames of one, as requests.rt of `endpoint_notation` says, which is
//! read under `"cap"` and `"budget"`. `"calls"` is how often data is asked for.
use body_reading::StreamingBody;
use case_notation::{CaseError, check_names, given, text_of};
use endpoint_notation::{body_of, data_told, number_or, u64_of};
use schema_values::{Json, List};
use std::alloc::Global;

/// What each call on the body of a case gives.
pub fn next_data_told(alloc: Global, case: &Json) -> Result<Json, CaseError> {
    let calls = u64_of(given(case, "calls")?)?;
    let mut stream = Box::new(alloc, stream_of(alloc, case)?)?;
    data_told(alloc, &mut stream, calls)
}

fn stream_of(alloc: Global, case: &Json) -> Result<StreamingBody, CaseError> {
    if let Some(content) = case.get("content") {
        let content = List::from_bytes(alloc, text_of(content)?.as_bytes())?;
        return Ok(StreamingBody::from_bytes(content));
    }
    let noted = given(case, "body")?;
    check_names(noted, &["frames", "failing"])?;
    let cap = number_or(case, "cap", 1_024)?;
    let budget = number_or(case, "budget", 1_000)?;
    Ok(StreamingBody::new(body_of(alloc, noted)?, cap, budget))
}
