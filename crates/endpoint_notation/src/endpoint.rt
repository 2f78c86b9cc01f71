//! Reads endpoints without their handlers as cases note them, by the names of what they declare:
//! `{"operation_id", "method", "path", "body_content_type", "versions", "visible", "deprecated",
//! "tags", "summary", "description", "request_body_max_bytes", "table", "slots", "response",
//! "error"}`.
//!
//! `"versions"` is a list of the first version and of that which the range ends before, where null
//! is none. What is left out is as in an endpoint that is called `o`, takes a truth value in JSON
//! by POST at `/a` and gives one, in all versions, visible, without tags: so `{"path":"/b"}` is
//! that endpoint at another path. shapes.rt says how the shape is noted.
use crate::media::kind_at;
use crate::members::{items_at, read_text_or, truth_or, u64_of};
use crate::requests::{method_at, version_of};
use crate::shapes::read_shape;
use api_declarations::{Declaration, Declared};
use api_versions::ApiEndpointVersions;
use case_notation::{CaseError, Reader, items_of, text_of};
use handler_shapes::HandlerShape;
use http::Method;
use request_parts::ApiEndpointBodyContentType;
use schema_values::{Json, List, Text};
use std::alloc::Global;

/// An endpoint without its handler.
#[derive(Drop)]
pub struct PlainEndpoint {
    /// The name of the operation.
    pub operation_id: Text,
    method: Method,
    /// The path.
    pub path: Text,
    body_content_type: ApiEndpointBodyContentType,
    versions: ApiEndpointVersions,
    visible: bool,
    deprecated: bool,
    tags: List<Text>,
    summary: Option<Text>,
    description: Option<Text>,
    body_limit: Option<u64>,
    shape: HandlerShape,
}

impl Declared for PlainEndpoint {
    ghost use Rattle.api_versions.specs.Shown.{range_of};

    ghost declared = { λ e. record {
      operation_id = e.operation_id;
      method = e.method;
      path = e.path;
      body_content_type = e.body_content_type;
      versions = range_of e.versions;
      visible = e.visible;
      deprecated = e.deprecated;
      tags = e.tags;
      summary = e.summary;
      description = e.description;
      body_limit = e.body_limit;
      shape = e.shape;
    } };

    fn declaration(&self) -> Declaration<'_> {
        Declaration {
            operation_id: &self.operation_id,
            method: &self.method,
            path: &self.path,
            body_content_type: self.body_content_type,
            versions: &self.versions,
            visible: self.visible,
            deprecated: self.deprecated,
            tags: &self.tags,
            summary: self.summary.as_ref(),
            description: self.description.as_ref(),
            body_limit: self.body_limit,
            shape: &self.shape,
        }
    }
}

const MEMBERS: [&str; 15] = [
    "operation_id",
    "method",
    "path",
    "body_content_type",
    "versions",
    "visible",
    "deprecated",
    "tags",
    "summary",
    "description",
    "request_body_max_bytes",
    "table",
    "slots",
    "response",
    "error",
];

/// The endpoints of a case.
pub fn endpoints_at(alloc: Global, case: &Json) -> Result<List<PlainEndpoint>, CaseError> {
    let items = items_at(case, "endpoints")?;
    let mut reader = Reader::new(alloc);
    let mut endpoints = List::new(alloc);
    for noted in items {
        let endpoint = read_endpoint(&mut reader, noted);
        reader.push(&mut endpoints, endpoint);
    }
    reader.finish(endpoints)
}

/// The endpoint that is noted.
pub fn endpoint_of(alloc: Global, noted: &Json) -> Result<PlainEndpoint, CaseError> {
    let mut reader = Reader::new(alloc);
    let endpoint = read_endpoint(&mut reader, noted);
    reader.finish(endpoint)
}

fn read_endpoint(reader: &mut Reader, noted: &Json) -> PlainEndpoint {
    let alloc = reader.alloc();
    reader.check_names(noted, &MEMBERS);
    PlainEndpoint {
        operation_id: read_text_or(reader, noted, "operation_id", "o"),
        method: reader.or(method_at(alloc, noted, "POST"), Method::POST),
        path: read_text_or(reader, noted, "path", "/a"),
        body_content_type: reader.or(kind_at(alloc, noted), ApiEndpointBodyContentType::Json),
        versions: reader.or(versions_at(alloc, noted), ApiEndpointVersions::all()),
        visible: reader.or(truth_or(noted, "visible", true), true),
        deprecated: reader.or(truth_or(noted, "deprecated", false), false),
        tags: read_tags(reader, noted),
        summary: reader.maybe_text(noted.get("summary")),
        description: reader.maybe_text(noted.get("description")),
        body_limit: reader.or(body_limit_at(noted), None),
        shape: read_shape(reader, noted),
    }
}

fn body_limit_at(noted: &Json) -> Result<Option<u64>, CaseError> {
    match noted.get("request_body_max_bytes") {
        Some(limit) => Ok(Some(u64_of(limit)?)),
        None => Ok(None),
    }
}

fn read_tags(reader: &mut Reader, noted: &Json) -> List<Text> {
    match noted.get("tags") {
        Some(tags) => reader.texts(tags),
        None => List::new(reader.alloc()),
    }
}

fn versions_at(alloc: Global, noted: &Json) -> Result<ApiEndpointVersions, CaseError> {
    let Some(versions) = noted.get("versions") else {
        return Ok(ApiEndpointVersions::all());
    };
    let [first, end] = items_of(versions)? else {
        return Err(CaseError::Expected("two bounds"));
    };
    match (bound_of(first)?, bound_of(end)?) {
        (None, None) => Ok(ApiEndpointVersions::all()),
        (None, Some(end)) => Ok(ApiEndpointVersions::until(version_of(alloc, end)?)),
        (Some(first), None) => Ok(ApiEndpointVersions::from(version_of(alloc, first)?)),
        (Some(first), Some(end)) => versions_between(alloc, first, end),
    }
}

fn versions_between(
    alloc: Global,
    first: &str,
    end: &str,
) -> Result<ApiEndpointVersions, CaseError> {
    let first = version_of(alloc, first)?;
    let end = version_of(alloc, end)?;
    ApiEndpointVersions::from_until(first, end)
        .ok()
        .ok_or(CaseError::Expected("versions in order"))
}

// The text of a version, none where null stands.
fn bound_of(noted: &Json) -> Result<Option<&str>, CaseError> {
    match noted {
        Json::Null => Ok(None),
        _ => Ok(Some(text_of(noted)?.as_str())),
    }
}
