//! What handlers of cases do. `"gives"` is `"argument"`, the tree or the bytes of the last argument,
//! which stands where it is left out; `"context"`, a text of what the handler is told besides its
//! arguments; `"nothing"`; `{"tree":TREE}`; `{"bytes":CONTENT}`; or `{"bare":CONTENT}`, bytes that
//! come without a header line of their type. Beside it stand `"named"`, the tree of the named
//! headers, `"others"`, the other lines, and `"status"`, 200 where it is left out, which counts
//! where the response has no code. Or `"fails"` is an error, `{"status":CODE, "code":TEXT,
//! "message":TEXT, "headers":LINES}`, of which the message alone has to stand.
use crate::contexts::context_told;
use api_respond::{Content, RequestContext, SuccessReply};
use case_notation::{CaseError, Reader, check_names, given, tree_of};
use endpoint_notation::{content_of, items_at, lines_of, number_or};
use handler_shapes::Arg;
use http::StatusCode;
use http_status::{Body, ErrorStatusCode, HeaderList, HttpError};
use schema_values::{Json, List};
use std::alloc::{AllocError, Global};
use typed_values::Tree;

/// The error that a handler fails with.
pub fn error_of(alloc: Global, noted: &Json) -> Result<HttpError, CaseError> {
    check_names(noted, &["status", "code", "message", "headers"])?;
    match error_status(number_or(noted, "status", 500)?) {
        Some(status) => error_with(alloc, status, noted),
        None => Err(CaseError::Expected("the status of an error")),
    }
}

fn error_with(
    alloc: Global,
    status_code: ErrorStatusCode,
    noted: &Json,
) -> Result<HttpError, CaseError> {
    let mut reader = Reader::new(alloc);
    let error = HttpError {
        status_code,
        error_code: reader.maybe_text(noted.get("code")),
        external_message: reader.text_at(noted, "message"),
        internal_message: reader.text_from("for the log alone"),
        headers: reader.or(error_lines(alloc, noted), None),
    };
    reader.finish(error)
}

fn error_lines(alloc: Global, noted: &Json) -> Result<Option<HeaderList>, CaseError> {
    match noted.get("headers") {
        Some(_) => Ok(Some(lines_at(alloc, noted, "headers")?)),
        None => Ok(None),
    }
}

fn error_status(number: u64) -> Option<ErrorStatusCode> {
    let number = u16::try_from(number).ok()?;
    ErrorStatusCode::from_u16(number).ok()
}

/// The success that a handler gives by a code, where its response has one, of a context and
/// arguments.
pub fn success_of(
    alloc: Global,
    noted: &Json,
    code: Option<StatusCode>,
    context: &RequestContext,
    args: &[Arg],
) -> Result<SuccessReply, CaseError> {
    match success_status(number_or(noted, "status", 200)?) {
        Some(status) => success_with(alloc, noted, code.unwrap_or(status), context, args),
        None => Err(CaseError::Expected("a status")),
    }
}

fn success_with(
    alloc: Global,
    noted: &Json,
    status: StatusCode,
    context: &RequestContext,
    args: &[Arg],
) -> Result<SuccessReply, CaseError> {
    let mut reader = Reader::new(alloc);
    let reply = SuccessReply {
        status,
        others: reader.or(lines_at(alloc, noted, "others"), HeaderList::new(alloc)),
        named: reader.or(named_at(alloc, noted), None),
        content: reader.or(content_given(alloc, noted, context, args), Content::Empty),
    };
    reader.finish(reply)
}

fn lines_at(alloc: Global, noted: &Json, name: &str) -> Result<HeaderList, CaseError> {
    lines_of(alloc, items_at(noted, name)?)
}

fn success_status(number: u64) -> Option<StatusCode> {
    match StatusCode::from_u16(u16::try_from(number).ok()?) {
        Ok(status) => Some(status),
        Err(_) => None,
    }
}

fn named_at(alloc: Global, noted: &Json) -> Result<Option<Tree>, CaseError> {
    match noted.get("named") {
        Some(tree) => Ok(Some(tree_of(alloc, tree)?)),
        None => Ok(None),
    }
}

fn content_given(
    alloc: Global,
    noted: &Json,
    context: &RequestContext,
    args: &[Arg],
) -> Result<Content, CaseError> {
    match noted.get("gives") {
        None => Ok(last_argument(alloc, args)?),
        Some(Json::Text(word)) => content_named(alloc, word.as_str(), context, args),
        Some(gives) => content_noted(alloc, gives),
    }
}

fn content_named(
    alloc: Global,
    word: &str,
    context: &RequestContext,
    args: &[Arg],
) -> Result<Content, CaseError> {
    match word {
        "argument" => Ok(last_argument(alloc, args)?),
        "context" => Ok(Content::Json(context_told(alloc, context)?)),
        "nothing" => Ok(Content::Empty),
        _ => Err(CaseError::Expected("what a handler gives")),
    }
}

fn last_argument(alloc: Global, args: &[Arg]) -> Result<Content, AllocError> {
    match args.last() {
        Some(Arg::Tree(tree)) => Ok(Content::Json(tree.copy(alloc)?)),
        Some(Arg::Raw(bytes)) => {
            let copy = List::from_bytes(alloc, bytes.as_slice())?;
            Ok(Content::Freeform(Body::with_content(copy)))
        }
        _ => Ok(Content::Empty),
    }
}

fn content_noted(alloc: Global, noted: &Json) -> Result<Content, CaseError> {
    check_names(noted, &["tree", "bytes", "bare"])?;
    if let Some(tree) = noted.get("tree") {
        return Ok(Content::Json(tree_of(alloc, tree)?));
    }
    match noted.get("bare") {
        Some(content) => Ok(Content::Bare(body_of(alloc, content)?)),
        None => Ok(Content::Freeform(body_of(alloc, given(noted, "bytes")?)?)),
    }
}

fn body_of(alloc: Global, noted: &Json) -> Result<Body, CaseError> {
    Ok(Body::with_content(content_of(alloc, noted)?))
}
