//! The parts that endpoints show.
use api_descriptions::ApiEndpoint;
use case_notation::{CaseError, Record, Row, labelled, say, string_told};
use endpoint_metadata::{
    ApiEndpointParameter, ApiEndpointParameterMetadata as Place, ExtensionMode,
};
use handler_shapes::{ApiEndpointErrorResponse, ApiEndpointResponse};
use schema_values::{Json, Text};
use std::alloc::Global;

/// The parts of each endpoint.
pub fn all_shown(alloc: Global, endpoints: &[ApiEndpoint]) -> Result<Json, CaseError> {
    let mut shown = Row::new(alloc);
    for endpoint in endpoints {
        shown.push(endpoint_shown(alloc, endpoint));
    }
    shown.done()
}

fn endpoint_shown(alloc: Global, endpoint: &ApiEndpoint) -> Result<Json, CaseError> {
    let told = head_told(alloc, endpoint);
    let told = slots_told(alloc, told, endpoint);
    words_told(alloc, told, endpoint).done()
}

fn head_told(alloc: Global, endpoint: &ApiEndpoint) -> Record {
    let versions = format!(in alloc; "{:?}", endpoint.versions());
    Record::new(alloc)
        .text("operation_id", endpoint.operation_id().as_str())
        .text("method", endpoint.method().as_str())
        .text("path", endpoint.path().as_str())
        .text(
            "body_content_type",
            endpoint.body_content_type().mime_type(),
        )
        .put("versions", string_told(versions))
        .text("handler", endpoint.handler().label())
}

// The names of the parameters by their places, the code and the name of the error, and whether it answers in pages.
fn slots_told(alloc: Global, told: Record, endpoint: &ApiEndpoint) -> Record {
    let parameters = endpoint.parameters().as_slice();
    told.put("parameters", parameters_told(alloc, parameters))
        .put("success", success_told(endpoint.response()))
        .put("error", error_told(alloc, endpoint.error()))
        .put("pages", mode_told(alloc, endpoint.extension_mode()))
}

fn parameters_told(alloc: Global, parameters: &[ApiEndpointParameter]) -> Result<Json, CaseError> {
    let mut told = Row::new(alloc);
    for parameter in parameters {
        told.push(place_told(alloc, &parameter.metadata));
    }
    told.done()
}

fn place_told(alloc: Global, place: &Place) -> Result<Json, CaseError> {
    let (place, name) = match place {
        Place::Path(name) => ("path", name.as_str()),
        Place::Query(name) => ("query", name.as_str()),
        Place::Header(name) => ("header", name.as_str()),
        Place::Body(kind) => ("body", kind.mime_type()),
    };
    labelled(alloc, place, say(alloc, name))
}

fn success_told(response: &ApiEndpointResponse) -> Result<Json, CaseError> {
    match response.success {
        Some(code) => Ok(Json::Int(code.as_u16().into())),
        None => Ok(Json::Null),
    }
}

fn error_told(alloc: Global, error: Option<&ApiEndpointErrorResponse>) -> Result<Json, CaseError> {
    match error {
        Some(error) => say(alloc, error.name.as_str()),
        None => Ok(Json::Null),
    }
}

fn mode_told(alloc: Global, mode: &ExtensionMode) -> Result<Json, CaseError> {
    match mode {
        ExtensionMode::None => Ok(Json::Null),
        ExtensionMode::Paginated(names) => texts_told(alloc, names.as_slice()),
    }
}

fn texts_told(alloc: Global, texts: &[Text]) -> Result<Json, CaseError> {
    let mut told = Row::new(alloc);
    for text in texts {
        told.push(say(alloc, text.as_str()));
    }
    told.done()
}

fn words_told(alloc: Global, told: Record, endpoint: &ApiEndpoint) -> Record {
    let told = with_text(told, "summary", &endpoint.summary);
    let told = with_text(told, "description", &endpoint.description);
    with_limit(told, endpoint.request_body_max_bytes)
        .truth("visible", endpoint.visible)
        .truth("deprecated", endpoint.deprecated)
        .put("tags", texts_told(alloc, endpoint.tags().as_slice()))
}

fn with_text(told: Record, name: &str, text: &Option<Text>) -> Record {
    match text {
        Some(text) => told.text(name, text.as_str()),
        None => told,
    }
}

fn with_limit(told: Record, limit: Option<u64>) -> Record {
    match limit {
        Some(limit) => told.number("request_body_max_bytes", limit.into()),
        None => told,
    }
}
