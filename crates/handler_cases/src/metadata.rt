//! What is said of an endpoint by its slots. Each parameter is told by the name of its place, where
//! its own name stands, or the media type of a body, by its schema under `schema`, and by the names
//! of the definitions beside it under `definitions`, if there are such.
use crate::schemas::with_schema;
use case_notation::{CaseError, Record, Row, labelled, say};
use endpoint_metadata::{
    ApiEndpointParameter, ApiEndpointParameterMetadata as Place, ExtensionMode, ExtractorMetadata,
    ModeError, metadata,
};
use endpoint_notation::{kind_at, slots_at, table_at};
use schema_values::{Json, Text};
use std::alloc::Global;

/// What a copy of what is said of the slots of a case has, or that these are incompatible.
pub fn metadata_told(alloc: Global, case: &Json) -> Result<Json, CaseError> {
    let kind = kind_at(alloc, case)?;
    let table = table_at(alloc, case)?;
    let slots = slots_at(alloc, case)?;
    answer_told(alloc, metadata(alloc, &slots, &table, kind))
}

fn answer_told(
    alloc: Global,
    answer: Result<ExtractorMetadata, ModeError>,
) -> Result<Json, CaseError> {
    match answer {
        Ok(metadata) => copy_told(alloc, &metadata),
        Err(ModeError::IncompatibleModes) => say(alloc, "incompatible modes"),
        Err(ModeError::OutOfMemory) => Err(CaseError::OutOfMemory),
    }
}

fn copy_told(alloc: Global, metadata: &ExtractorMetadata) -> Result<Json, CaseError> {
    all_told(alloc, &metadata.copy(alloc)?)
}

fn all_told(alloc: Global, metadata: &ExtractorMetadata) -> Result<Json, CaseError> {
    let parameters = metadata.parameters.as_slice();
    Record::new(alloc)
        .put("parameters", parameters_told(alloc, parameters))
        .put("pages", mode_told(alloc, &metadata.extension_mode))
        .done()
}

fn mode_told(alloc: Global, mode: &ExtensionMode) -> Result<Json, CaseError> {
    match mode {
        ExtensionMode::None => Ok(Json::Null),
        ExtensionMode::Paginated(names) => {
            labelled(alloc, "required", names_told(alloc, names.as_slice()))
        }
    }
}

fn names_told(alloc: Global, names: &[Text]) -> Result<Json, CaseError> {
    let mut told = Row::new(alloc);
    for name in names {
        told.push(say(alloc, name.as_str()));
    }
    told.done()
}

fn parameters_told(alloc: Global, parameters: &[ApiEndpointParameter]) -> Result<Json, CaseError> {
    let mut told = Row::new(alloc);
    for parameter in parameters {
        told.push(parameter_told(alloc, parameter));
    }
    told.done()
}

fn parameter_told(alloc: Global, parameter: &ApiEndpointParameter) -> Result<Json, CaseError> {
    let told = place_told(alloc, &parameter.metadata);
    let told = with_description(told, &parameter.description);
    let told = told.truth("required", parameter.required);
    with_schema(alloc, told, &parameter.schema).done()
}

fn place_told(alloc: Global, place: &Place) -> Record {
    match place {
        Place::Path(name) => Record::new(alloc).text("path", name.as_str()),
        Place::Query(name) => Record::new(alloc).text("query", name.as_str()),
        Place::Header(name) => Record::new(alloc).text("header", name.as_str()),
        Place::Body(kind) => Record::new(alloc).text("body", kind.mime_type()),
    }
}

fn with_description(told: Record, description: &Option<Text>) -> Record {
    match description {
        Some(description) => told.text("description", description.as_str()),
        None => told,
    }
}
