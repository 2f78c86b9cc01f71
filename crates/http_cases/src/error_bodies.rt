//! Calls on the bodies of errors' responses.
use api_types::{ApiType, table_of};
use case_notation::{CaseError, Reader, Record, text_told, tree_noted};
use http_status::HttpErrorResponseBody;
use schema_values::Json;
use std::alloc::Global;
use type_wire::value_json;

/// The name of the type of the body of a case, its tree and its JSON.
pub fn error_body_told(alloc: Global, case: &Json) -> Result<Json, CaseError> {
    body_told(alloc, &body_of(alloc, case)?)
}

fn body_of(alloc: Global, case: &Json) -> Result<HttpErrorResponseBody, CaseError> {
    let mut reader = Reader::new(alloc);
    let body = HttpErrorResponseBody {
        request_id: reader.text_at(case, "id"),
        error_code: reader.maybe_text(case.get("code")),
        message: reader.text_at(case, "message"),
    };
    reader.finish(body)
}

fn body_told(alloc: Global, body: &HttpErrorResponseBody) -> Result<Json, CaseError> {
    Record::new(alloc)
        .put("name", text_told(HttpErrorResponseBody::type_name(alloc)))
        .put("tree", body_tree(alloc, body))
        .put("json", body_json(alloc, body))
        .done()
}

fn body_tree(alloc: Global, body: &HttpErrorResponseBody) -> Result<Json, CaseError> {
    tree_noted(alloc, &body.to_tree(alloc)?)
}

fn body_json(alloc: Global, body: &HttpErrorResponseBody) -> Result<Json, CaseError> {
    match table_of::<HttpErrorResponseBody>(alloc) {
        Ok(table) => Ok(value_json(alloc, &table, body)?),
        Err(_) => Err(CaseError::Expected("a type that passes its checks")),
    }
}
