//! The responses of errors.
ghost use Rattle.std.specs.Prelude.{◌≡◌, [], ◌∷◌, IfOk};
ghost use Rattle.handler_shapes.specs.ShapeChecks.{ErrorPasses, ShapePasses};
ghost use Rattle.typed_values.specs.Checks.{TablePasses, DescPasses};
ghost use Rattle.typed_values.specs.Encoding.{json_of_tree};
ghost use Rattle.typed_values.specs.Fits.{Fits};
ghost use Rattle.http_status.specs.Responses.{id_line, json_line};
ghost use Rattle.api_respond.specs.Replies.{ErrorFits, OwnFits};
ghost use Rattle.api_respond.specs.Responses.{compact_body, failure_response, own_body};

use crate::reply::ErrorReply;
use handler_shapes::{ApiEndpointErrorResponse, HandlerShape};
use http_header::{CONTENT_TYPE, HeaderName, HeaderValue};
use http_status::{Body, CONTENT_TYPE_JSON, HEADER_REQUEST_ID, HeaderList, RequestId, Response};
use std::alloc::{AllocError, Global};
use typed_values::{Desc, DescTable, Tree, encode_json};

/// The response that an error is sent as, to the request of this id: an error of the library as its
/// `into_response` says; an own one with its status, the header lines of JSON and of the id, and
/// the compact JSON of its body. Fails only for want of memory.
pub fn encode_error(
    alloc: Global,
    shape: &HandlerShape,
    error: &ErrorReply,
    request_id: &RequestId,
) -> Result<Response, AllocError>
    requires shape { ShapePasses shape.now }
    requires error { ErrorFits shape.now error.now }
    ensures { IfOk result (λ response.
        response ≡ failure_response shape.now error.now request_id.now) }
{
    match error {
        ErrorReply::Http(error) => error.copy(alloc)?.into_response(alloc, request_id),
        ErrorReply::Own {
            status,
            body,
            message: _,
        } => Ok(Response {
            headers: own_lines(alloc, request_id)?,
            body: own_body(alloc, &shape.table, &shape.error, body)?,
            status: status.as_status(),
        }),
    }
}

// The type of the body, and the request's id.
fn own_lines(alloc: Global, request_id: &RequestId) -> Result<HeaderList, AllocError>
    ensures { IfOk result (λ lines. lines ≡ json_line ∷ id_line request_id.now ∷ []) }
{
    let id = request_id.to_value(alloc)?;
    let mut lines = HeaderList::new(alloc);
    lines.append(CONTENT_TYPE, HeaderValue::from_static(CONTENT_TYPE_JSON))?;
    lines.append(HeaderName::from_static(HEADER_REQUEST_ID), id)?;
    Ok(lines)
}

fn own_body(
    alloc: Global,
    table: &DescTable,
    error: &Option<ApiEndpointErrorResponse>,
    tree: &Tree,
) -> Result<Body, AllocError>
    requires table { TablePasses table.now }
    requires error { ErrorPasses table.now error.now }
    requires fits { OwnFits table.now error.now tree.now }
    ensures { IfOk result (λ body. body ≡ own_body table.now error.now tree.now) }
{
    match error {
        Some(error) => json_body(alloc, table, &error.desc, tree),
        None => unreachable!(),
    }
}

// The compact JSON of a tree, as one frame.
pub(crate) fn json_body(
    alloc: Global,
    table: &DescTable,
    desc: &Desc,
    tree: &Tree,
) -> Result<Body, AllocError>
    requires table { TablePasses table.now }
    requires desc { DescPasses table.now desc.now }
    requires fits { Fits table.now desc.now tree.now }
    ensures { IfOk result (λ body. body ≡ compact_body (json_of_tree table.now desc.now tree.now)) }
{
    let text = encode_json(alloc, table, desc, tree)?.compact(alloc)?;
    Ok(Body::with_content(text.into_bytes()))
}
