//! The endpoints of the sample: what is said of each, and what handles its requests.
ghost use Rattle.std.specs.Prelude.{◌≡◌, IfOk, IsTrue, map};
ghost use Rattle.schema_values.specs.Ascii.{all_ascii};
ghost use Rattle.sample_types.specs.declared.operation.Operation.TheVariants as operations;
ghost use Rattle.sample_api.specs.Endpoints.{all_served, served, usual};
ghost use Rattle.sample_api.specs.Endpoints.{inner_declared, point_drop_declared, raw_size_declared};

use crate::sample_handler::SampleHandler;
use api_versions::ApiEndpointVersions;
use http::Method;
use sample_types::Operation;
use schema_values::Text;
use semver::Version;
use std::alloc::{AllocError, Global};

/// An endpoint of the sample, as it is handed to `ApiEndpoint::new`: without tags and further texts, and with JSON as
/// the media type of its bodies.
#[derive(Drop)]
pub struct SampleEndpoint {
    /// What handles its requests.
    pub handler: Box<SampleHandler>,
    /// The name of the operation.
    pub operation_id: Text,
    /// The method.
    pub method: Method,
    /// The path, with its variables in braces.
    pub path: Text,
    /// The versions of the API in which it is served.
    pub versions: ApiEndpointVersions,
    /// How many bytes a body has at most, where that is not the server's default.
    pub body_limit: Option<u64>,
    /// Whether documents show it.
    pub visible: bool,
}

/// The endpoints of the sample, in order, each with the handler of its operation. Fails only for want of memory.
pub fn endpoints(alloc: Global) -> Result<Vec<SampleEndpoint>, AllocError>
    ensures { IfOk result (λ endpoints. map served endpoints.items ≡ all_served) }
{
    let mut endpoints = Vec::new(alloc);
    endpoints.push(endpoint(alloc, Operation::PointCreate, Method::POST, "/points")?)?;
    endpoints.push(endpoint(alloc, Operation::PointProbe, Method::GET, "/points/{label}")?)?;
    endpoints.push(point_drop(alloc)?)?;
    endpoints.push(raw_size(alloc)?)?;
    endpoints.push(endpoint(alloc, Operation::FolderCount, Method::POST, "/folders")?)?;
    endpoints.push(inner(alloc)?)?;
    Ok(endpoints)
}

// From version 2.0.0 on.
fn point_drop(alloc: Global) -> Result<SampleEndpoint, AllocError>
    ensures { IfOk result (λ endpoint. served endpoint ≡ (point_drop_declared, operations.PointDrop)) }
{
    let mut endpoint = endpoint(
        alloc,
        Operation::PointDrop,
        Method::DELETE,
        "/points/{label}",
    )?;
    endpoint.versions = ApiEndpointVersions::from(Version::new(2, 0, 0));
    Ok(endpoint)
}

// Bodies of at most 8 bytes.
fn raw_size(alloc: Global) -> Result<SampleEndpoint, AllocError>
    ensures { IfOk result (λ endpoint. served endpoint ≡ (raw_size_declared, operations.RawSize)) }
{
    let mut endpoint = endpoint(alloc, Operation::RawSize, Method::PUT, "/raw")?;
    endpoint.body_limit = Some(8);
    Ok(endpoint)
}

// Hidden.
fn inner(alloc: Global) -> Result<SampleEndpoint, AllocError>
    ensures { IfOk result (λ endpoint. served endpoint ≡ (inner_declared, operations.Inner)) }
{
    let mut endpoint = endpoint(alloc, Operation::Inner, Method::GET, "/inner")?;
    endpoint.visible = false;
    Ok(endpoint)
}

// An endpoint that is served in all versions, shown, and without a limit of its own.
fn endpoint(
    alloc: Global,
    operation: Operation,
    method: Method,
    path: &str,
) -> Result<SampleEndpoint, AllocError>
    requires { IsTrue (all_ascii path.now) }
    ensures { IfOk result (λ endpoint. served endpoint ≡ (usual operation method path.now, operation)) }
{
    let operation_id = Text::from_ascii(alloc, operation.name())?;
    let path = Text::from_ascii(alloc, path)?;
    let handler = Box::new(alloc, SampleHandler::new(alloc, operation)?)?;
    Ok(SampleEndpoint {
        handler,
        operation_id,
        method,
        path,
        versions: ApiEndpointVersions::all(),
        body_limit: None,
        visible: true,
    })
}
