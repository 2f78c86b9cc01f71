//! The endpoints of a case: those of the sample where `"sample"` is true, else those under `"endpoints"`, noted as
//! making.rt says. With `"for_types"` the latter are made for documents alone.
//!
//! Endpoints are made, and their tags set, where none is handed out: a function that makes one and hands it out is not
//! allowed.
use crate::calls::{Call, over_made};
use crate::making::{Noted, error_told, noted_of, set_words};
use api_descriptions::ApiEndpoint;
use case_notation::{CaseError, Row, labelled};
use endpoint_notation::items_at;
use sample_api::{SampleEndpoint, endpoints};
use schema_values::Json;
use std::alloc::Global;

// The media type of typed bodies of the sample.
const JSON: &str = "application/json";

/// What a call answers over the endpoints of a case.
pub fn over_endpoints(alloc: Global, case: &Json, call: Call<'_>) -> Result<Json, CaseError> {
    match case.get("sample") {
        Some(_) => over_sample(alloc, case, call),
        None => over_noted(alloc, case, call, items_at(case, "endpoints")?),
    }
}

fn over_noted(
    alloc: Global,
    case: &Json,
    call: Call<'_>,
    noted: &[Json],
) -> Result<Json, CaseError> {
    let mut refusals = Row::new(alloc);
    let mut made = Vec::new(alloc);
    for one in noted {
        let Noted {
            words,
            id,
            method,
            path,
            versions,
            kind,
            handler,
        } = noted_of(alloc, case, one)?;
        let outcome = if case.get("for_types").is_some() {
            ApiEndpoint::new_for_types(alloc, id, handler, method, kind.as_str(), path, versions)
        } else {
            ApiEndpoint::new(alloc, id, handler, method, kind.as_str(), path, versions)
        };
        match outcome {
            Ok(mut endpoint) => {
                for tag in set_words(&mut endpoint, words).into_vec() {
                    endpoint = endpoint.tag(tag)?;
                }
                made.push(endpoint)?;
            }
            Err(error) => refusals.push(error_told(alloc, &error)),
        }
    }
    if made.len() < noted.len() {
        return labelled(alloc, "not_made", refusals.done());
    }
    over_made(alloc, case, call, made)
}

fn over_sample(alloc: Global, case: &Json, call: Call<'_>) -> Result<Json, CaseError> {
    let mut made = Vec::new(alloc);
    for endpoint in endpoints(alloc)? {
        let SampleEndpoint {
            handler,
            operation_id,
            method,
            path,
            versions,
            body_limit,
            visible,
        } = endpoint;
        match ApiEndpoint::new(alloc, operation_id, handler, method, JSON, path, versions) {
            Ok(mut endpoint) => {
                endpoint.request_body_max_bytes = body_limit;
                made.push(endpoint.visible(visible))?;
            }
            Err(error) => return labelled(alloc, "not_made", error_told(alloc, &error)),
        }
    }
    over_made(alloc, case, call, made)
}
