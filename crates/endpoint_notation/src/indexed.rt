//! Endpoints one behind the other, beside their index.
ghost use Rattle.std.specs.Prelude.{OnOk, map};
ghost use Rattle.endpoint_checks.specs.EndpointIndexes.{IsIndexed};

use crate::endpoint::PlainEndpoint;
use api_declarations::Declared;
use api_registration::EndpointIndex;
use schema_values::List;
use std::alloc::{AllocError, Global};

/// Adds an endpoint behind some, and to their index.
pub fn add_endpoint(
    alloc: Global,
    endpoints: &mut List<PlainEndpoint>,
    index: &mut EndpointIndex,
    endpoint: Box<PlainEndpoint>,
) -> Result<(), AllocError>
    requires { IsIndexed (map ⟦<PlainEndpoint as Declared>⟧.declared endpoints.old) index.old }
    ensures { OnOk result
        (IsIndexed (map ⟦<PlainEndpoint as Declared>⟧.declared endpoints.new) index.new) }
{
    index.add(alloc, endpoints.as_slice(), &*endpoint)?;
    endpoints.push(Box::into_inner(endpoint))
}
