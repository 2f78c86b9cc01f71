//! The settings of tags of a case.
use case_notation::CaseError;
use schema_values::Json;
use std::alloc::Global;
use tag_config::TagConfig;
use typed_values::DecodeError;

/// The settings under `tag_config`; all tags are allowed where they are left out.
pub fn settings_at(alloc: Global, case: &Json) -> Result<TagConfig, CaseError> {
    let Some(json) = case.get("tag_config") else {
        return Ok(TagConfig::default_config(alloc));
    };
    if !json.sound() {
        return Err(CaseError::Expected("sound JSON"));
    }
    TagConfig::from_json(alloc, json).map_err(not_decoded)
}

fn not_decoded(error: DecodeError) -> CaseError {
    match error {
        DecodeError::Fault(_) => CaseError::Expected("settings of tags"),
        DecodeError::OutOfMemory => CaseError::OutOfMemory,
    }
}
