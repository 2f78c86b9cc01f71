//! Endpoints that are registered one behind the other, as far as they may be, under the settings of
//! tags of their case.
ghost use Rattle.std.specs.Prelude.{OnOk, map};
ghost use Rattle.endpoint_checks.specs.EndpointIndexes.{IsIndexed};

use api_declarations::Declared;
use api_registration::{ApiDescriptionRegisterError, EndpointIndex, first_cause};
use case_notation::CaseError;
use endpoint_notation::{PlainEndpoint, add_endpoint, endpoint_of};
use schema_values::{Json, List};
use std::alloc::Global;
use tag_config::TagConfig;

/// Adds the endpoint that is noted behind those that are registered, and to their index, or tells why
/// it may not be.
pub fn register(
    alloc: Global,
    settings: &TagConfig,
    registered: &mut List<PlainEndpoint>,
    index: &mut EndpointIndex,
    noted: &Json,
) -> Result<Option<ApiDescriptionRegisterError>, CaseError>
    requires { IsIndexed (map ⟦<PlainEndpoint as Declared>⟧.declared registered.old) index.old }
    ensures { OnOk result
        (IsIndexed (map ⟦<PlainEndpoint as Declared>⟧.declared registered.new) index.new) }
{
    let endpoint = Box::new(alloc, endpoint_of(alloc, noted)?)?;
    match first_cause(
        alloc,
        settings,
        registered.as_slice(),
        index,
        &endpoint.declaration(),
    )? {
        Some(refusal) => Ok(Some(refusal)),
        None => {
            add_endpoint(alloc, registered, index, endpoint)?;
            Ok(None)
        }
    }
}
