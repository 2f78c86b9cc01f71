//! Which endpoint serves a template and a method at a version.
use api_declarations::endpoint_for;
use case_notation::{CaseError, given_text, say};
use endpoint_notation::{PlainEndpoint, endpoints_at, method_at, version_at};
use schema_values::Json;
use std::alloc::Global;

/// The name of the endpoint of a case that serves its template and its method at its version, if
/// one does.
pub fn found(alloc: Global, case: &Json) -> Result<Json, CaseError> {
    found_among(alloc, case, endpoints_at(alloc, case)?.as_slice())
}

fn found_among(alloc: Global, case: &Json, endpoints: &[PlainEndpoint]) -> Result<Json, CaseError> {
    let template = given_text(case, "template")?;
    let version = version_at(alloc, case)?;
    let method = method_at(alloc, case, "GET")?;
    name_told(alloc, endpoint_for(endpoints, &version, &method, template))
}

fn name_told(alloc: Global, endpoint: Option<&PlainEndpoint>) -> Result<Json, CaseError> {
    match endpoint {
        Some(endpoint) => say(alloc, endpoint.operation_id.as_str()),
        None => Ok(Json::Null),
    }
}
