//! Whether the document of an API admits the request of a case.
ghost use Rattle.schema_values.specs.Sound.{IsSound};
ghost use Rattle.api_endpoints.specs.Endpoints.{boxed};
ghost use Rattle.api_descriptions.specs.Ready.{IsReady};

use crate::documents::document;
use api_descriptions::ApiDescription;
use api_respond::RouteHandler;
use body_reading::read_whole;
use case_notation::{CaseError, Reader};
use endpoint_notation::{body_of, parts_of, request_at};
use header_lists::HeaderList;
use openapi_values::{HeaderLine, WireRequest};
use request_admission::check_admits;
use request_parts::RequestParts;
use schema_values::{Json, List, Text, copy_variables};
use std::alloc::Global;
use std::collections::BTreeMap;

/// Whether the document admits the request, by its template, its method, its variables, its query, its header lines
/// and the content of its body.
pub fn admits(alloc: Global, case: &Json, api: &ApiDescription) -> Result<Json, CaseError>
    requires { IsReady (boxed ⟦<dyn RouteHandler as RouteHandler>⟧) api.now }
{
    let document = document(alloc, case, api)?;
    admitted(alloc, case, &document)
}

fn admitted(alloc: Global, case: &Json, document: &Json) -> Result<Json, CaseError>
    requires { IsSound document.now }
{
    let noted = request_at(case)?;
    let parts = Box::new(alloc, parts_of(alloc, case, noted)?)?;
    let request = wire_request(alloc, noted, &parts)?;
    let (template, method) = (parts.template.as_str(), parts.info.method().as_str());
    Ok(Json::Bool(check_admits(alloc, document, template, method, &request)?))
}

// The request as a document sees it.
fn wire_request(
    alloc: Global,
    noted: &Json,
    parts: &RequestParts,
) -> Result<Box<WireRequest>, CaseError> {
    let mut reader = Reader::new(alloc);
    let variables = copy_variables(alloc, &parts.variables);
    let request = WireRequest {
        variables: reader.or(variables, BTreeMap::new(alloc)),
        query: read_query(&mut reader, parts),
        headers: read_lines(&mut reader, parts.info.headers()),
        body: read_content(&mut reader, noted),
    };
    Ok(Box::new(alloc, reader.finish(request)?)?)
}

fn read_query(reader: &mut Reader, parts: &RequestParts) -> Text {
    match parts.info.uri().query() {
        Some(query) => reader.text_from(query),
        None => Text::new(reader.alloc()),
    }
}

fn read_lines(reader: &mut Reader, headers: &HeaderList) -> List<HeaderLine> {
    let alloc = reader.alloc();
    let mut lines = List::new(alloc);
    for (name, value) in headers.lines() {
        let value = List::from_bytes(alloc, value.as_bytes());
        let line = HeaderLine {
            name: reader.text_from(name.as_str()),
            value: reader.or(value, List::new(alloc)),
        };
        reader.push(&mut lines, line);
    }
    lines
}

fn read_content(reader: &mut Reader, noted: &Json) -> List<u8> {
    let alloc = reader.alloc();
    reader.or(content_of(alloc, noted), List::new(alloc))
}

fn content_of(alloc: Global, noted: &Json) -> Result<List<u8>, CaseError> {
    let mut body = body_of(alloc, noted)?;
    match read_whole(alloc, &mut body, u64::MAX, 1_000) {
        Ok(content) => Ok(content),
        Err(_) => Err(CaseError::Expected("a body that can be read")),
    }
}
