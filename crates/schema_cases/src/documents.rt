//! Calls on documents: what their parts are written as, and what they admit.
use crate::info::info_written;
use crate::part_notation::written;
use crate::request_notation::request_of;
use crate::values::noted_value;
use case_notation::{CaseError, given, given_text, text_told};
use openapi_values::{
    Components, HeaderObject, MediaType, OpenApi, Operation, Parameter, PathItem, RequestBody,
    ResponseObject, WireRequest, json_admits, text_admits,
};
use request_admission::check_admits;
use schema_values::{Json, List};
use std::alloc::{AllocError, Global};

/// What a copy of a part of a document is written as. The kind of the part stands under `kind`.
pub fn part(alloc: Global, case: &Json) -> Result<Json, CaseError> {
    let noted = given(case, "part")?;
    match given_text(case, "kind")?.as_str() {
        "OpenApi" => written::<OpenApi>(alloc, noted),
        "Components" => written::<Components>(alloc, noted),
        "PathItem" => written::<PathItem>(alloc, noted),
        "Operation" => written::<Operation>(alloc, noted),
        "Parameter" => written::<Parameter>(alloc, noted),
        "HeaderObject" => written::<HeaderObject>(alloc, noted),
        "MediaType" => written::<MediaType>(alloc, noted),
        "RequestBody" => written::<RequestBody>(alloc, noted),
        "ResponseObject" => written::<ResponseObject>(alloc, noted),
        kind => info_written(alloc, kind, noted),
    }
}

/// The same in lines, as a text.
pub fn pretty_part(alloc: Global, case: &Json) -> Result<Json, CaseError> {
    text_told(part(alloc, case)?.pretty(alloc))
}

/// The document of a case. Without one it is an empty object.
fn noted_document(alloc: Global, case: &Json) -> Result<Json, AllocError> {
    match case.get("document") {
        Some(document) => document.copy(alloc),
        None => Ok(Json::Object(List::new(alloc))),
    }
}

/// Whether a schema admits a value.
pub fn json_admitted(alloc: Global, case: &Json) -> Result<Json, CaseError> {
    let schema = given(case, "schema")?;
    let document = noted_document(alloc, case)?;
    let value = noted_value(alloc, case)?;
    Ok(Json::Bool(json_admits(&document, schema, &value)))
}

/// Whether a schema admits a text.
pub fn text_admitted(alloc: Global, case: &Json) -> Result<Json, CaseError> {
    let schema = given(case, "schema")?;
    let text = given_text(case, "text")?;
    let document = noted_document(alloc, case)?;
    if document.sound() && schema.sound() {
        Ok(Json::Bool(text_admits(&document, schema, text.as_str())))
    } else {
        Err(CaseError::Expected("sound values"))
    }
}

/// Whether a document admits a copy of a request for the operation of a path and a method.
pub fn request_admitted(alloc: Global, case: &Json) -> Result<Json, CaseError> {
    let request = request_of(alloc, case)?.copy(alloc)?;
    admitted(alloc, case, &request)
}

fn admitted(alloc: Global, case: &Json, request: &WireRequest) -> Result<Json, CaseError> {
    let document = given(case, "document")?;
    let path = given_text(case, "path")?;
    let method = given_text(case, "method")?;
    if !document.sound() {
        return Err(CaseError::Expected("a sound document"));
    }
    let admitted = check_admits(alloc, document, path.as_str(), method.as_str(), request)?;
    Ok(Json::Bool(admitted))
}
