//! The kinds of bodies, by the media types that name them.
use crate::members::text_or;
use case_notation::CaseError;
use request_parts::ApiEndpointBodyContentType;
use schema_values::Json;
use std::alloc::Global;

/// The kind of body under `body_content_type`, JSON where it is left out.
pub fn kind_at(alloc: Global, noted: &Json) -> Result<ApiEndpointBodyContentType, CaseError> {
    let media_type = text_or(alloc, noted, "body_content_type", "application/json")?;
    ApiEndpointBodyContentType::from_mime_type(media_type.as_str())
        .ok()
        .ok_or(CaseError::Expected("the media type of a body"))
}
