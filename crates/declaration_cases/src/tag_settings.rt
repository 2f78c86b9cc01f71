//! Calls on the settings of tags.
use case_notation::{CaseError, given, labelled, text_told};
use schema_values::Json;
use std::alloc::Global;
use tag_config::TagConfig;
use typed_values::DecodeError;

/// The settings of a case as they are written again, or why there are none.
pub fn settings_told(alloc: Global, case: &Json) -> Result<Json, CaseError> {
    let json = given(case, "json")?;
    if !json.sound() {
        return Err(CaseError::Expected("sound JSON"));
    }
    match TagConfig::from_json(alloc, json) {
        Ok(settings) => written(alloc, &settings),
        Err(error) => refused(alloc, &error),
    }
}

fn written(alloc: Global, settings: &TagConfig) -> Result<Json, CaseError> {
    Ok(settings.to_json(alloc)?)
}

fn refused(alloc: Global, error: &DecodeError) -> Result<Json, CaseError> {
    match error {
        DecodeError::Fault(fault) => labelled(alloc, "refused", text_told(fault.text(alloc))),
        DecodeError::OutOfMemory => Err(CaseError::OutOfMemory),
    }
}
