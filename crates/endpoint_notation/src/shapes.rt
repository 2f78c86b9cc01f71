//! Reads shapes of handlers as cases note them.
//!
//! `"table"`: definitions, each as tables.rt of `case_notation` says, or `"Error"`, the definition
//! of errors. `"slots"`: each `{"path":D}`, `{"query":D}`, `{"header":D}`,
//! `{"paged_query":{"scan":D, "selector":D, "table":[..]}}`, where the table is the selector's own,
//! `{"typed_body":[D, NAME]}`, `"raw_body"` or `"stream_body"`. `"response"`: `{"content":C,
//! "headers":D, "success":CODE, "description":TEXT}`, where C is `{"json":[D, NAME]}`, `"empty"` or
//! `"freeform"`. `"error"`: `{"desc":D, "name":NAME}`. Null stands for no success code and for no
//! error. What is left out: the table of `Error` alone, a slot `["bool","Body"]`, content
//! `["bool","Flag"]`, no headers, code 200, `successful operation`, and the errors of `HttpError`.
use crate::members::read_text_or;
use api_types::ApiType;
use case_notation::{CaseError, Reader, define, definition_of, read_desc};
use handler_shapes::{
    ApiEndpointErrorResponse, ApiEndpointResponse, ContentShape, HandlerShape, Slot,
};
use http::StatusCode;
use http_status::HttpErrorResponseBody;
use schema_values::{Json, List, Text};
use std::alloc::Global;
use typed_values::{AddError, Desc, DescTable};

/// The shape that is noted.
pub fn shape_of(alloc: Global, noted: &Json) -> Result<HandlerShape, CaseError> {
    let mut reader = Reader::new(alloc);
    let shape = read_shape(&mut reader, noted);
    reader.finish(shape)
}

/// Reads a shape.
pub fn read_shape(reader: &mut Reader, noted: &Json) -> HandlerShape {
    HandlerShape {
        table: read_table(reader, noted),
        slots: read_slots(reader, noted),
        response: read_response(reader, noted),
        error: read_error(reader, noted),
    }
}

/// The definitions that are noted.
pub fn table_at(alloc: Global, noted: &Json) -> Result<DescTable, CaseError> {
    let mut reader = Reader::new(alloc);
    let table = read_table(&mut reader, noted);
    reader.finish(table)
}

fn read_table(reader: &mut Reader, noted: &Json) -> DescTable {
    let alloc = reader.alloc();
    match noted.get("table") {
        Some(definitions) => read_definitions(reader, definitions),
        None => {
            let mut table = DescTable::new(alloc);
            reader.or(define_error(alloc, &mut table), ());
            table
        }
    }
}

fn read_definitions(reader: &mut Reader, noted: &Json) -> DescTable {
    let alloc = reader.alloc();
    let mut table = DescTable::new(alloc);
    for definition in reader.items(noted) {
        reader.or(define_noted(alloc, &mut table, definition), ());
    }
    table
}

fn define_noted(alloc: Global, table: &mut DescTable, noted: &Json) -> Result<(), CaseError> {
    match noted {
        Json::Text(name) if name.equals_str("Error") => define_error(alloc, table),
        noted => define(table, definition_of(alloc, noted)?),
    }
}

fn define_error(alloc: Global, table: &mut DescTable) -> Result<(), CaseError> {
    match HttpErrorResponseBody::add_definitions(alloc, table) {
        Ok(()) => Ok(()),
        Err(AddError::Clash(_)) => Err(CaseError::Expected("a new name")),
        Err(AddError::OutOfMemory) => Err(CaseError::OutOfMemory),
    }
}

/// The slots that are noted.
pub fn slots_at(alloc: Global, noted: &Json) -> Result<List<Slot>, CaseError> {
    let mut reader = Reader::new(alloc);
    let slots = read_slots(&mut reader, noted);
    reader.finish(slots)
}

fn read_slots(reader: &mut Reader, noted: &Json) -> List<Slot> {
    let mut slots = List::new(reader.alloc());
    match noted.get("slots") {
        Some(noted) => add_slots(reader, noted, &mut slots),
        None => {
            let slot = Slot::TypedBody(Desc::Bool, reader.text_from("Body"));
            reader.push(&mut slots, slot);
        }
    }
    slots
}

fn add_slots(reader: &mut Reader, noted: &Json, slots: &mut List<Slot>) {
    for slot in reader.items(noted) {
        let slot = read_slot(reader, slot);
        reader.push(slots, slot);
    }
}

fn read_slot(reader: &mut Reader, noted: &Json) -> Slot {
    match noted {
        Json::Text(word) if word.equals_str("raw_body") => Slot::RawBody,
        Json::Text(word) if word.equals_str("stream_body") => Slot::StreamBody,
        Json::Object(members) => match members.as_slice() {
            [member] => read_slot_with(reader, member.name.as_str(), &member.value),
            _ => unread(reader, "a slot of one form"),
        },
        _ => unread(reader, "a slot"),
    }
}

fn unread(reader: &mut Reader, expected: &'static str) -> Slot {
    reader.expected(expected);
    Slot::RawBody
}

fn read_slot_with(reader: &mut Reader, form: &str, noted: &Json) -> Slot {
    match form {
        "path" => Slot::Path(read_desc(reader, noted)),
        "query" => Slot::Query(read_desc(reader, noted)),
        "header" => Slot::Header(read_desc(reader, noted)),
        "paged_query" => read_pages(reader, noted),
        "typed_body" => {
            let NamedType { name, desc } = read_named_type(reader, noted);
            Slot::TypedBody(desc, name)
        }
        _ => unread(reader, "a form of slots"),
    }
}

fn read_pages(reader: &mut Reader, noted: &Json) -> Slot {
    reader.check_names(noted, &["scan", "selector", "table"]);
    Slot::PagedQuery {
        selector_table: read_own_table(reader, noted),
        scan: read_desc_at(reader, noted, "scan"),
        selector: read_desc_at(reader, noted, "selector"),
    }
}

fn read_own_table(reader: &mut Reader, noted: &Json) -> DescTable {
    match noted.get("table") {
        Some(definitions) => read_definitions(reader, definitions),
        None => DescTable::new(reader.alloc()),
    }
}

fn read_desc_at(reader: &mut Reader, noted: &Json, name: &'static str) -> Desc {
    match noted.get(name) {
        Some(desc) => read_desc(reader, desc),
        None => {
            reader.expected(name);
            Desc::Never
        }
    }
}

/// A descriptor and the name of its type: `[D, NAME]`.
#[derive(Drop)]
struct NamedType {
    name: Text,
    desc: Desc,
}

fn read_named_type(reader: &mut Reader, noted: &Json) -> NamedType {
    match reader.items(noted) {
        [desc, name] => NamedType {
            name: reader.text(name),
            desc: read_desc(reader, desc),
        },
        _ => {
            reader.expected("a descriptor and a name");
            NamedType {
                name: Text::new(reader.alloc()),
                desc: Desc::Never,
            }
        }
    }
}

fn read_response(reader: &mut Reader, noted: &Json) -> ApiEndpointResponse {
    match noted.get("response") {
        Some(response) => {
            reader.check_names(response, &["content", "headers", "success", "description"]);
            read_response_of(reader, response)
        }
        None => read_response_of(reader, &Json::Null),
    }
}

fn read_response_of(reader: &mut Reader, noted: &Json) -> ApiEndpointResponse {
    ApiEndpointResponse {
        content: read_content(reader, noted),
        headers: read_headers(reader, noted),
        success: read_success(reader, noted),
        description: read_text_or(reader, noted, "description", "successful operation"),
    }
}

fn read_headers(reader: &mut Reader, noted: &Json) -> Option<Desc> {
    match noted.get("headers") {
        Some(headers) => Some(read_desc(reader, headers)),
        None => None,
    }
}

fn read_content(reader: &mut Reader, noted: &Json) -> ContentShape {
    match noted.get("content") {
        None => ContentShape::Json(Desc::Bool, reader.text_from("Flag")),
        Some(Json::Text(word)) if word.equals_str("empty") => ContentShape::Empty,
        Some(Json::Text(word)) if word.equals_str("freeform") => ContentShape::Freeform,
        Some(content) => read_typed_content(reader, content),
    }
}

fn read_typed_content(reader: &mut Reader, noted: &Json) -> ContentShape {
    reader.check_names(noted, &["json"]);
    match noted.get("json") {
        Some(named) => {
            let NamedType { name, desc } = read_named_type(reader, named);
            ContentShape::Json(desc, name)
        }
        None => {
            reader.expected("json");
            ContentShape::Empty
        }
    }
}

fn read_success(reader: &mut Reader, noted: &Json) -> Option<StatusCode> {
    match noted.get("success") {
        None => status_of(200),
        Some(Json::Null) => None,
        Some(Json::Int(number)) => read_status(reader, *number),
        Some(_) => {
            reader.expected("a status code or null");
            None
        }
    }
}

fn read_status(reader: &mut Reader, number: i128) -> Option<StatusCode> {
    let status = status_of(number);
    if status.is_none() {
        reader.expected("a status code or null");
    }
    status
}

fn status_of(number: i128) -> Option<StatusCode> {
    StatusCode::from_u16(u16::try_from(number).ok()?).ok()
}

fn read_error(reader: &mut Reader, noted: &Json) -> Option<ApiEndpointErrorResponse> {
    match noted.get("error") {
        None => Some(ApiEndpointErrorResponse {
            name: reader.text_from("Error"),
            desc: Desc::Ref(reader.text_from("Error")),
        }),
        Some(Json::Null) => None,
        Some(noted) => {
            reader.check_names(noted, &["desc", "name"]);
            Some(ApiEndpointErrorResponse {
                name: reader.text_at(noted, "name"),
                desc: read_desc_at(reader, noted, "desc"),
            })
        }
    }
}
