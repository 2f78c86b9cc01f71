//! Responses, and those of errors.
ghost use Rattle.std.specs.Prelude.{◌≡◌, IfOk};
ghost use Rattle.http_status.specs.ErrorBodies.{error_body, error_body_json};
ghost use Rattle.http_status.specs.Responses.{ShowsTree, error_response, lines_behind, pretty_body};

use crate::constants::{CONTENT_TYPE_JSON, HEADER_REQUEST_ID};
use crate::{HttpError, HttpErrorResponseBody, RequestId};
use header_lists::HeaderList;
use http::StatusCode;
use http_bodies::Body;
use http_header::{CONTENT_TYPE, HeaderName, HeaderValue};
use schema_values::Text;
use std::alloc::{AllocError, Global};

/// What is sent back: a status, header lines and a body.
#[derive(Drop)]
pub struct Response {
    /// The status, from 100 to 999.
    pub status: StatusCode,
    /// The header lines, in order.
    pub headers: HeaderList,
    /// The body, in frames.
    pub body: Body,
}

impl HttpError {
    /// The response of the error to the request of an id: the error's own header lines, the type of
    /// the body, the id, and as the body the id, the code and the message for the client, in pretty
    /// JSON (RFC 8259). The message for the log stays out. Fails only for want of memory.
    pub fn into_response(
        self,
        alloc: Global,
        request_id: &RequestId,
    ) -> Result<Response, AllocError>
        ensures response { IfOk result (λ response. response ≡ error_response self request_id.now) }
        ensures documented { IfOk result (λ response.
            ShowsTree (error_body self request_id.now) response.body) }
    {
        let HttpError {
            status_code,
            error_code,
            external_message: message,
            internal_message: _,
            headers,
        } = self;
        let headers = lines(alloc, headers, request_id)?;
        let request_id = Text::from_str(alloc, request_id.text())?;
        let body = HttpErrorResponseBody {
            request_id,
            error_code,
            message,
        };
        Ok(Response {
            status: status_code.as_status(),
            headers,
            body: pretty(alloc, body)?,
        })
    }
}

// The error's own lines, the type of the body, and the request's id.
fn lines(
    alloc: Global,
    own: Option<HeaderList>,
    request_id: &RequestId,
) -> Result<HeaderList, AllocError>
    ensures { IfOk result (λ lines. lines ≡ lines_behind own request_id.now) }
{
    let id = request_id.to_value(alloc)?;
    let mut lines = own.unwrap_or(HeaderList::new(alloc));
    lines.append(CONTENT_TYPE, HeaderValue::from_static(CONTENT_TYPE_JSON))?;
    lines.append(HeaderName::from_static(HEADER_REQUEST_ID), id)?;
    Ok(lines)
}

// The body in pretty JSON, as one frame.
fn pretty(alloc: Global, body: HttpErrorResponseBody) -> Result<Body, AllocError>
    ensures { IfOk result (λ frames. frames ≡ pretty_body (error_body_json body)) }
{
    let text = body.to_json(alloc)?.pretty(alloc)?;
    Ok(Body::with_content(text.into_bytes()))
}
