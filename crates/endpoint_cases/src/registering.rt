//! What is told of endpoints as they are registered one by one.
use api_descriptions::{
    ApiDescription, ApiDescriptionBuildErrors, ApiDescriptionRegisterError, ApiEndpoint,
    RegisterError, TagConfig,
};
use case_notation::{CaseError, Reader, Record, Row, say, string_told};
use endpoint_notation::settings_at;
use schema_values::{Json, List};
use std::alloc::Global;

/// What is told of the refusals of endpoints together, in a copy of their errors.
pub fn errors_told(
    alloc: Global,
    case: &Json,
    endpoints: Vec<ApiEndpoint>,
) -> Result<Json, CaseError> {
    let settings = settings_at(alloc, case)?;
    let mut reader = Reader::new(alloc);
    let errors = errors_of(alloc, settings, endpoints, &mut reader);
    let errors = ApiDescriptionBuildErrors::new(reader.finish(errors)?);
    copy_told(alloc, &errors.copy(alloc)?)
}

fn copy_told(alloc: Global, errors: &ApiDescriptionBuildErrors) -> Result<Json, CaseError> {
    let mut causes = Row::new(alloc);
    for error in errors.errors() {
        causes.push(string_told(format!(in alloc; "{:?}", error.cause())));
    }
    Record::new(alloc)
        .put("causes", causes.done())
        .put("text", string_told(format!(in alloc; "{errors}")))
        .done()
}

fn errors_of(
    alloc: Global,
    settings: TagConfig,
    endpoints: Vec<ApiEndpoint>,
    reader: &mut Reader,
) -> List<ApiDescriptionRegisterError> {
    let mut errors = List::new(alloc);
    let mut api = ApiDescription::new(alloc).tag_config(settings);
    for endpoint in endpoints {
        match api.register(endpoint) {
            Ok(()) => {}
            Err(RegisterError::Refused(error)) => reader.push(&mut errors, error),
            Err(RegisterError::OutOfMemory) => reader.keep(CaseError::OutOfMemory),
        }
    }
    errors
}

/// What is told of an endpoint: `registered`, or the cause and the message of its refusal.
pub fn outcome_told(alloc: Global, outcome: Result<(), RegisterError>) -> Result<Json, CaseError> {
    match outcome {
        Ok(()) => say(alloc, "registered"),
        Err(RegisterError::Refused(error)) => cause_told(alloc, &error),
        Err(RegisterError::OutOfMemory) => Err(CaseError::OutOfMemory),
    }
}

fn cause_told(alloc: Global, error: &ApiDescriptionRegisterError) -> Result<Json, CaseError> {
    string_told(format!(in alloc; "{:?}: {}", error.cause(), error.message()))
}

/// A refusal, as a copy of it is printed.
pub fn refusal_told(alloc: Global, error: &RegisterError) -> Result<Json, CaseError> {
    match error.copy(alloc)? {
        RegisterError::Refused(error) => printed(alloc, &error),
        RegisterError::OutOfMemory => Err(CaseError::OutOfMemory),
    }
}

fn printed(alloc: Global, error: &ApiDescriptionRegisterError) -> Result<Json, CaseError> {
    let (cause, id) = (error.cause(), error.operation_id());
    string_told(format!(in alloc; "{error}, {cause:?} of {id}"))
}
