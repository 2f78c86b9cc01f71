//! Calls over the endpoints of a case.
use crate::apis::{ApiCall, Asked, over_accepted, over_registered};
use crate::parts::all_shown;
use crate::registering::errors_told;
use crate::runs::run_told;
use api_descriptions::ApiEndpoint;
use case_notation::CaseError;
use schema_values::Json;
use std::alloc::Global;

/// A call over endpoints.
#[derive(Clone, Copy)]
pub enum Call<'a> {
    /// The parts of each, or why it can't be made.
    New,
    /// What is told of each as it is registered.
    Register,
    /// The parts of those that an API has then.
    Endpoints,
    /// The refusals together.
    Errors,
    /// A run over them, with the text of their document, or none where they have none.
    Run(&'a str),
    /// A call over the API of all of them.
    OverApi(ApiCall),
}

/// What a call answers over endpoints.
pub fn over_made(
    alloc: Global,
    case: &Json,
    call: Call<'_>,
    endpoints: Vec<ApiEndpoint>,
) -> Result<Json, CaseError> {
    match call {
        Call::New => all_shown(alloc, &endpoints),
        Call::Register => over_registered(alloc, case, Asked::Told, endpoints),
        Call::Endpoints => over_registered(alloc, case, Asked::Endpoints, endpoints),
        Call::Errors => errors_told(alloc, case, endpoints),
        Call::Run(document) => run_told(alloc, case, endpoints, document),
        Call::OverApi(call) => over_accepted(alloc, case, call, endpoints),
    }
}
