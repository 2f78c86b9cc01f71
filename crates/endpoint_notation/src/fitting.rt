//! Whether handlers of cases may have a response, and whether replies that they give are of their shape.
ghost use Rattle.std.specs.Prelude.{◌≡◌, ⊤, IsTrue, MatchOption};
ghost use Rattle.typed_values.specs.Checks.{TablePasses};
ghost use Rattle.handler_shapes.specs.ShapeChecks.{ContentPasses, ErrorPasses, HeadersPass, ResponsePasses};
ghost use Rattle.api_respond.specs.Replies.{BareFits, ContentFits, HeadersFit, JsonFits, OwnFits, SuccessFits};
ghost use Rattle.endpoint_notation.specs.Codeless.{is_codeless_right};

use api_respond::{Content, SuccessReply};
use handler_shapes::{ApiEndpointErrorResponse, ApiEndpointResponse, ContentShape};
use http::StatusCode;
use typed_values::{Desc, DescTable, Tree, fits};

/// Whether there is a code, or content of any kind without named headers.
pub fn is_codeless_right(response: &ApiEndpointResponse) -> bool
    ensures { IsTrue result → IsTrue (is_codeless_right response.now) }
{
    match (response.success, &response.content, &response.headers) {
        (Some(_), _, _) => true,
        (None, ContentShape::Freeform, None) => true,
        _ => false,
    }
}

/// Whether a reply is of a response.
pub fn success_fits(table: &DescTable, response: &ApiEndpointResponse, reply: &SuccessReply) -> bool
    requires table { TablePasses table.now }
    requires response { ResponsePasses table.now response.now }
    ensures { IsTrue result → SuccessFits table.now response.now reply.now }
{
    is_code(response.success, reply.status)
        && content_fits(table, &response.content, &reply.content)
        && bare_fits(response.success, &reply.content)
        && headers_fit(table, &response.headers, &reply.named)
}

fn is_code(code: Option<StatusCode>, status: StatusCode) -> bool
    ensures { IsTrue result → MatchOption code ⊤ (λ code. status ≡ code) }
{
    match code {
        Some(code) => code.as_u16() == status.as_u16(),
        None => true,
    }
}

fn content_fits(table: &DescTable, shape: &ContentShape, content: &Content) -> bool
    requires table { TablePasses table.now }
    requires content { ContentPasses table.now shape.now }
    ensures { IsTrue result → ContentFits table.now shape.now content.now }
{
    match content {
        Content::Json(tree) => json_fits(table, shape, tree),
        Content::Empty => matches!(shape, ContentShape::Empty),
        Content::Freeform(_) | Content::Bare(_) => matches!(shape, ContentShape::Freeform),
    }
}

fn json_fits(table: &DescTable, shape: &ContentShape, tree: &Tree) -> bool
    requires table { TablePasses table.now }
    requires content { ContentPasses table.now shape.now }
    ensures { IsTrue result → JsonFits table.now shape.now tree.now }
{
    match shape {
        ContentShape::Json(desc, _) => fits(table, desc, tree),
        _ => false,
    }
}

fn bare_fits(code: Option<StatusCode>, content: &Content) -> bool
    ensures { IsTrue result → BareFits code content.now }
{
    match content {
        Content::Bare(_) => code.is_none(),
        _ => true,
    }
}

fn headers_fit(table: &DescTable, desc: &Option<Desc>, named: &Option<Tree>) -> bool
    requires table { TablePasses table.now }
    requires desc { HeadersPass table.now desc.now }
    ensures { IsTrue result → HeadersFit table.now desc.now named.now }
{
    match (desc, named) {
        (Some(desc), Some(tree)) => fits(table, desc, tree),
        (None, None) => true,
        _ => false,
    }
}

/// Whether a tree is the body of an error.
pub fn own_fits(table: &DescTable, error: &Option<ApiEndpointErrorResponse>, body: &Tree) -> bool
    requires table { TablePasses table.now }
    requires error { ErrorPasses table.now error.now }
    ensures { IsTrue result → OwnFits table.now error.now body.now }
{
    match error {
        Some(error) => fits(table, &error.desc, body),
        None => false,
    }
}
