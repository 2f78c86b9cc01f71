//! What every call reads and answers.
use case_notation::{CaseError, labelled, string_told};
use schema_values::Json;
use std::alloc::{AllocError, Global};

/// The text of an error: `{"error": TEXT}`.
pub fn error_told(alloc: Global, text: Result<String, AllocError>) -> Result<Json, CaseError> {
    labelled(alloc, "error", string_told(text))
}
