//! Which endpoint serves a template and a method at a version, by the index of the endpoints.
ghost use Rattle.std.specs.Prelude.{OnOk, map};
ghost use Rattle.endpoint_checks.specs.EndpointIndexes.{IsIndexed};

use api_declarations::{Declared, endpoint_at};
use api_registration::EndpointIndex;
use case_notation::{CaseError, given_text, say};
use endpoint_notation::{
    PlainEndpoint, add_endpoint, endpoint_of, items_at, method_at, version_at,
};
use http::Method;
use schema_values::{Json, List, Text};
use semver::Version;
use std::alloc::Global;

/// The name of the endpoint of a case that serves its template and its method at its version, if
/// one does.
pub fn found(alloc: Global, case: &Json) -> Result<Json, CaseError> {
    let method = method_at(alloc, case, "GET")?;
    let version = version_at(alloc, case)?;
    found_at(alloc, case, &version, &method)
}

fn found_at(
    alloc: Global,
    case: &Json,
    version: &Version,
    method: &Method,
) -> Result<Json, CaseError> {
    let template = given_text(case, "template")?;
    let noted = items_at(case, "endpoints")?;
    let mut endpoints = List::new(alloc);
    let mut index = EndpointIndex::new(alloc);
    add_all(alloc, &mut endpoints, &mut index, noted)?;
    found_among(
        alloc,
        endpoints.as_slice(),
        &index,
        version,
        method,
        template,
    )
}

fn found_among(
    alloc: Global,
    endpoints: &[PlainEndpoint],
    index: &EndpointIndex,
    version: &Version,
    method: &Method,
    template: &Text,
) -> Result<Json, CaseError>
    requires { IsIndexed (map ⟦<PlainEndpoint as Declared>⟧.declared endpoints.now) index.now }
{
    let places = index.templates();
    match endpoint_at(alloc, endpoints, places, version, method, template)? {
        Some(endpoint) => say(alloc, endpoint.operation_id.as_str()),
        None => Ok(Json::Null),
    }
}

// Adds endpoints as they are noted, behind some and to their index.
fn add_all(
    alloc: Global,
    endpoints: &mut List<PlainEndpoint>,
    index: &mut EndpointIndex,
    noted: &[Json],
) -> Result<(), CaseError>
    requires { IsIndexed (map ⟦<PlainEndpoint as Declared>⟧.declared endpoints.old) index.old }
    ensures { OnOk result
        (IsIndexed (map ⟦<PlainEndpoint as Declared>⟧.declared endpoints.new) index.new) }
{
    for one in noted {
        let endpoint = Box::new(alloc, endpoint_of(alloc, one)?)?;
        add_endpoint(alloc, endpoints, index, endpoint)?;
    }
    Ok(())
}
