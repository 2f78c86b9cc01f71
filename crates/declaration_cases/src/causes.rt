//! Which endpoints of a case may be registered, in order, and why others may not.
ghost use Rattle.std.specs.Prelude.{map};
ghost use Rattle.endpoint_checks.specs.EndpointIndexes.{IsIndexed};

use crate::registered::register;
use api_declarations::Declared;
use api_registration::{ApiDescriptionRegisterError, EndpointIndex};
use case_notation::{CaseError, Row, say, string_told};
use endpoint_notation::{PlainEndpoint, items_at, settings_at};
use schema_values::{Json, List};
use std::alloc::Global;
use tag_config::TagConfig;

/// What is told of each endpoint of a case: `registered`, or the cause and the message of its
/// refusal. One that is refused is left out for those behind it.
pub fn causes_told(alloc: Global, case: &Json) -> Result<Json, CaseError> {
    let endpoints = items_at(case, "endpoints")?;
    let settings = settings_at(alloc, case)?;
    told_under(alloc, &settings, endpoints)
}

fn told_under(alloc: Global, settings: &TagConfig, noted: &[Json]) -> Result<Json, CaseError> {
    let mut registered = List::new(alloc);
    let mut index = EndpointIndex::new(alloc);
    let mut told = Row::new(alloc);
    tell_all(
        alloc,
        settings,
        &mut registered,
        &mut index,
        noted,
        &mut told,
    )?;
    told.done()
}

fn tell_all(
    alloc: Global,
    settings: &TagConfig,
    registered: &mut List<PlainEndpoint>,
    index: &mut EndpointIndex,
    noted: &[Json],
    told: &mut Row,
) -> Result<(), CaseError>
    requires { IsIndexed (map ⟦<PlainEndpoint as Declared>⟧.declared registered.old) index.old }
{
    for one in noted {
        let refusal = register(alloc, settings, registered, index, one)?;
        told.push(refusal_told(alloc, refusal));
    }
    Ok(())
}

fn refusal_told(
    alloc: Global,
    refusal: Option<ApiDescriptionRegisterError>,
) -> Result<Json, CaseError> {
    match refusal {
        Some(error) => error_told(alloc, &error),
        None => say(alloc, "registered"),
    }
}

fn error_told(alloc: Global, error: &ApiDescriptionRegisterError) -> Result<Json, CaseError> {
    string_told(format!(in alloc; "{:?}: {}", error.cause(), error.message()))
}
