//! Calls on media types, by the kinds of bodies that they name.
use case_notation::{CaseError, both, given_text, say, string_told};
use request_parts::{ApiEndpointBodyContentType, Unsupported};
use schema_values::Json;
use std::alloc::Global;

/// The kind of body that the media type of a case names, and the media type of that kind.
pub fn media_kind(alloc: Global, case: &Json) -> Result<Json, CaseError> {
    let media_type = given_text(case, "media_type")?;
    match ApiEndpointBodyContentType::from_mime_type(media_type.as_str()) {
        Ok(kind) => {
            let name = string_told(format!(in alloc; "{kind:?}"));
            both(alloc, name, say(alloc, kind.mime_type()))
        }
        Err(Unsupported) => say(alloc, "unsupported"),
    }
}
