//! What endpoints are made of. An endpoint is noted as endpoint.rt of `endpoint_notation` says, and its handler gives
//! back its argument; or it stands in a list, and behind it what its handler does, as outcomes.rt says. `"media_type"`
//! is the media type of its typed bodies where it is not that of the kind that is noted.
use crate::handler::{NotedHandler, handler_of};
use api_declarations::{Declaration, Declared};
use api_descriptions::{ApiEndpoint, NewEndpointError};
use api_versions::ApiEndpointVersions;
use case_notation::{CaseError, Reader, string_told};
use endpoint_notation::endpoint_of;
use http::Method;
use schema_values::{Json, List, Text};
use std::alloc::{AllocError, Global};

/// What an endpoint that is noted is made of.
#[derive(Drop)]
pub struct Noted {
    /// What else is said of it.
    pub words: Words,
    /// The name of the operation.
    pub id: Text,
    /// The method.
    pub method: Method,
    /// The path.
    pub path: Text,
    /// The versions in which it is served.
    pub versions: ApiEndpointVersions,
    /// The media type of its typed bodies.
    pub kind: Text,
    /// What handles its requests.
    pub handler: Box<NotedHandler>,
}

/// What else is said of an endpoint.
#[derive(Drop)]
pub struct Words {
    /// A short text.
    pub summary: Option<Text>,
    /// A longer text.
    pub description: Option<Text>,
    /// Its tags.
    pub tags: List<Text>,
    /// How many bytes a body has at most, where that is not the server's default.
    pub body_limit: Option<u64>,
    /// Whether documents show it.
    pub visible: bool,
    /// Whether it should no longer be used.
    pub deprecated: bool,
}

/// A copy of the error, as its text.
pub fn error_told(alloc: Global, error: &NewEndpointError) -> Result<Json, CaseError> {
    match error.copy(alloc)? {
        NewEndpointError::OutOfMemory => Err(CaseError::OutOfMemory),
        error => string_told(format!(in alloc; "{error}")),
    }
}

/// What an endpoint that is noted is made of.
pub fn noted_of(alloc: Global, case: &Json, noted: &Json) -> Result<Noted, CaseError> {
    match noted {
        Json::List(parts) => match parts.as_slice() {
            [endpoint, does] => noted_with(alloc, case, endpoint, does),
            _ => Err(CaseError::Expected("an endpoint and what its handler does")),
        },
        endpoint => noted_with(alloc, case, endpoint, &Json::Null),
    }
}

fn noted_with(alloc: Global, case: &Json, noted: &Json, does: &Json) -> Result<Noted, CaseError> {
    let handler = handler_of(alloc, noted, does)?;
    let endpoint = Box::new(alloc, endpoint_of(alloc, noted)?)?;
    let said = endpoint.declaration();
    let mut reader = Reader::new(alloc);
    let noted = Noted {
        words: read_words(&mut reader, &said),
        id: reader.copy(said.operation_id),
        method: read_method(&mut reader, &said),
        path: reader.copy(said.path),
        versions: read_versions(&mut reader, &said),
        kind: read_kind(&mut reader, case, &said),
        handler,
    };
    reader.finish(noted)
}

fn read_method(reader: &mut Reader, said: &Declaration<'_>) -> Method {
    let method: Result<Method, AllocError> = said.method.clone();
    reader.or(method, Method::POST)
}

fn read_versions(reader: &mut Reader, said: &Declaration<'_>) -> ApiEndpointVersions {
    let versions = said.versions.copy(reader.alloc());
    reader.or(versions, ApiEndpointVersions::all())
}

fn read_kind(reader: &mut Reader, case: &Json, said: &Declaration<'_>) -> Text {
    match case.get("media_type") {
        Some(media_type) => reader.text(media_type),
        None => reader.text_from(said.body_content_type.mime_type()),
    }
}

// What else is said of it.
fn read_words(reader: &mut Reader, said: &Declaration<'_>) -> Words {
    Words {
        summary: copy_text(reader, said.summary),
        description: copy_text(reader, said.description),
        tags: copy_texts(reader, said.tags.as_slice()),
        body_limit: said.body_limit,
        visible: said.visible,
        deprecated: said.deprecated,
    }
}

fn copy_text(reader: &mut Reader, text: Option<&Text>) -> Option<Text> {
    match text {
        Some(text) => Some(reader.copy(text)),
        None => None,
    }
}

fn copy_texts(reader: &mut Reader, texts: &[Text]) -> List<Text> {
    let mut copies = List::new(reader.alloc());
    for text in texts {
        let copy = reader.copy(text);
        reader.push(&mut copies, copy);
    }
    copies
}

/// Says of an endpoint what is left to say, but for its tags, which are given back.
pub fn set_words(endpoint: &mut ApiEndpoint, words: Words) -> List<Text> {
    endpoint.summary = words.summary;
    endpoint.description = words.description;
    endpoint.request_body_max_bytes = words.body_limit;
    endpoint.visible = words.visible;
    endpoint.deprecated = words.deprecated;
    words.tags
}
