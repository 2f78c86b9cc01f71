//! What is said of an endpoint by the slots of its handler: its parameters and its body, and
//! whether it answers in pages.
#![tactic(auto)]

mod bodies;
mod definitions;
mod extension;
mod fields;
mod generator;
mod laws;
mod mode_error;
mod modes;
mod page_fields;
mod parameter;
mod parameters;
mod slot_metadata;
mod well_typed;

pub use extension::{ExtensionMode, ExtractorMetadata};
pub use fields::listed_fields;
pub use generator::ApiSchemaGenerator;
pub use laws::{listed_fields_are_read, parameters_are_shown};
pub use mode_error::ModeError;
pub use modes::asked_names;
pub use parameter::{
    ApiEndpointParameter, ApiEndpointParameterLocation, ApiEndpointParameterMetadata, copy_texts,
};
pub use parameters::{is_required, schema_in};
pub use slot_metadata::metadata;
