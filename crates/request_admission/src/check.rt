//! Whether a document admits a request.

ghost use Rattle.std.specs.Prelude.{◌≡◌, ◌↔◌, ◌&&◌, IfOk, IsTrue, option_map};
ghost use Rattle.std.specs.List.{list_all};
ghost use Rattle.std.specs.Str.{chars};
ghost use Rattle.schema_values.specs.Sound.{IsSound};
ghost use Rattle.request_words.specs.Pairs.{query_pairs};
ghost use Rattle.openapi_values.specs.Admits.{method_member, operation_at, parameters_of, pagination_of};
ghost use Rattle.openapi_values.specs.Admits.{query_rule_of, operation_pages_hold, OperationHolds, Admits};
ghost use Rattle.openapi_values.specs.Options.{is_none_or};
ghost use Rattle.openapi_values.specs.RequestParameters.{parameter_holds};

use crate::bodies::body_holds;
use crate::pages::pages_hold;
use crate::parameters::all_hold;
use crate::query::Query;
use openapi_values::{WireRequest, get_word};
use request_words::{SortedPairs, query_pairs};
use schema_values::Json;
use std::alloc::{AllocError, Global};

/// Whether a document admits a request for the operation of a path's template and a method. The document is
/// sound, as one that was read is, and the method is written in upper case, as `POST`. Parameters, request
/// bodies and schemas are those of OpenAPI 3.0.3; the media type is read as RFC 9110, section 8.3, has it.
/// Fails only for want of memory.
///
/// It decodes the query once, puts its pairs in the order of their names, in which each parameter is looked
/// up by halves, and reads the body; so it does with the pairs of a form. A header is looked for among all
/// lines. Beside that it takes as much time as `json_admits` and `text_admits` of its schemas, where a
/// reference is looked for among all names of `components.schemas`.
pub fn check_admits(
    alloc: Global,
    doc: &Json,
    path: &str,
    method: &str,
    request: &WireRequest,
) -> Result<bool, AllocError>
    requires doc { IsSound doc.now }
    ensures { IfOk result (λ admitted. IsTrue admitted
        ↔ Admits doc.now (chars path.now) (chars method.now) request.now) }
{
    match operation_named(doc, path, method) {
        Some(operation) => operation_holds(alloc, doc, request, operation),
        None => Ok(false),
    }
}

fn operation_named<'a>(doc: &'a Json, path: &str, method: &str) -> Option<&'a Json>
    ensures { option_map (λ json. json.now) result
        ≡ operation_at doc.now (chars path.now) (chars method.now) }
{
    let name = method_member(method)?;
    get_word(doc, "paths")?.get(path)?.get(name)
}

// The name under which a path has the operation of a method.
fn method_member(method: &str) -> Option<&'static str>
    ensures { option_map (λ name. chars name.now) result ≡ method_member (chars method.now) }
{
    match method {
        "GET" => Some("get"),
        "PUT" => Some("put"),
        "POST" => Some("post"),
        "DELETE" => Some("delete"),
        "OPTIONS" => Some("options"),
        "HEAD" => Some("head"),
        "PATCH" => Some("patch"),
        "TRACE" => Some("trace"),
        _ => None,
    }
}

fn operation_holds(
    alloc: Global,
    doc: &Json,
    request: &WireRequest,
    operation: &Json,
) -> Result<bool, AllocError>
    requires doc { IsSound doc.now }
    requires operation { IsSound operation.now }
    ensures { IfOk result (λ holds. IsTrue holds ↔ OperationHolds doc.now request.now operation.now) }
{
    let pairs = query_pairs(alloc, &request.query)?;
    let pairs = SortedPairs::new(alloc, pairs.as_slice())?;
    if !parameters_hold(doc, request, &pairs, operation) {
        return Ok(false);
    }
    match get_word(operation, "requestBody") {
        Some(body) => body_holds(alloc, doc, request, body),
        None => Ok(true),
    }
}

// Whether the parameters of an operation hold, and what its pages ask where it answers in pages.
fn parameters_hold(doc: &Json, request: &WireRequest, pairs: &SortedPairs, operation: &Json) -> bool
    requires doc { IsSound doc.now }
    requires operation { IsSound operation.now }
    requires pairs { pairs.now.pairs.now ≡ query_pairs request.now.query }
    ensures { result ≡ (list_all (parameter_holds doc.now request.now
        (query_rule_of request.now operation.now)) (parameters_of operation.now)
        && is_none_or (pagination_of operation.now) (operation_pages_hold request.now operation.now)) }
{
    let pagination = get_word(operation, "x-dropshot-pagination");
    let query = Query::new(pairs, pagination.is_some());
    let parameters = parameters_of(operation);
    if !all_hold(doc, request, &query, parameters) {
        return false;
    }
    match pagination {
        Some(pagination) => pages_hold(&query, parameters, get_word(pagination, "required")),
        None => true,
    }
}

fn parameters_of(operation: &Json) -> &[Json]
    ensures { result.now ≡ parameters_of operation.now }
{
    match get_word(operation, "parameters") {
        Some(Json::List(parameters)) => parameters.as_slice(),
        _ => &[],
    }
}
