//! What tables and descriptors are told.
use case_notation::{CaseError, flaw, labelled, say};
use schema_values::Json;
use std::alloc::Global;
use typed_values::TableError;

/// What is told of a table or a descriptor. Where a definition is unguarded, its name is told too.
pub fn told(alloc: Global, outcome: Result<(), TableError<'_>>) -> Result<Json, CaseError> {
    match outcome {
        Ok(()) => say(alloc, "passes"),
        Err(TableError::Unguarded(name)) => labelled(alloc, "unguarded", say(alloc, name)),
        Err(error) => say(alloc, flaw(&error)),
    }
}
