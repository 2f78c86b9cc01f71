//! What handlers of cases do. `"gives"` is `"argument"`, the tree or the bytes of the last argument, which stands where
//! it is left out; `"context"`, a text of what the handler is told besides its arguments; `"nothing"`; `{"tree":TREE}`;
//! `{"frames":[..], "failing":[..]}`, content of any kind; or `{"bare":{"frames":[..]}}`, which comes without a header
//! line of its type. Beside it stand `"named"`, the tree of the named headers, `"others"`, the other lines, and
//! `"status"`, 200 where it is left out, which counts where the response has no code. Or `"fails"` is an error,
//! `{"status":CODE, "code":TEXT, "message":TEXT, "headers":LINES}`, of which the message alone has to stand. Or
//! `"finds"` is `"no memory"`, and the handler gives nothing.
use api_respond::{Content, RequestContext, SuccessReply};
use case_notation::{Reader, read_tree};
use endpoint_notation::{body_of, lines_of, number_or};
use handler_shapes::Arg;
use header_lists::HeaderList;
use http::StatusCode;
use http_bodies::Body;
use http_status::{ErrorStatusCode, HttpError};
use schema_values::{Json, List, Text};
use std::alloc::{AllocError, Global};
use typed_values::Tree;

// What was read, or want of memory in place of a flaw.
fn finished<T: Drop>(reader: Reader, value: T) -> Result<T, AllocError> {
    match reader.finish(value) {
        Ok(value) => Ok(value),
        Err(_) => Err(AllocError),
    }
}

/// The tree that is noted.
pub fn tree_or_want(alloc: Global, noted: Option<&Json>) -> Result<Tree, AllocError> {
    let mut reader = Reader::new(alloc);
    let tree = match noted {
        Some(noted) => read_tree(&mut reader, noted),
        None => Tree::None,
    };
    finished(reader, tree)
}

/// The error that a handler fails with.
pub fn error_of(alloc: Global, noted: &Json) -> Result<HttpError, AllocError> {
    let mut reader = Reader::new(alloc);
    let error = HttpError {
        status_code: read_error_status(&mut reader, noted),
        error_code: reader.maybe_text(noted.get("code")),
        external_message: reader.text_at(noted, "message"),
        internal_message: Text::new(alloc),
        headers: read_error_lines(&mut reader, noted),
    };
    finished(reader, error)
}

fn read_error_status(reader: &mut Reader, noted: &Json) -> ErrorStatusCode {
    match error_status(reader.or(number_or(noted, "status", 500), 500)) {
        Some(status) => status,
        None => {
            reader.expected("the status of an error");
            ErrorStatusCode::INTERNAL_SERVER_ERROR
        }
    }
}

fn error_status(number: u64) -> Option<ErrorStatusCode> {
    ErrorStatusCode::from_u16(u16::try_from(number).ok()?).ok()
}

fn read_error_lines(reader: &mut Reader, noted: &Json) -> Option<HeaderList> {
    match noted.get("headers") {
        Some(lines) => Some(read_lines(reader, lines)),
        None => None,
    }
}

fn read_lines(reader: &mut Reader, noted: &Json) -> HeaderList {
    let alloc = reader.alloc();
    let lines = lines_of(alloc, reader.items(noted));
    reader.or(lines, HeaderList::new(alloc))
}

/// The success that a handler gives by a code, where its response has one, of a context and arguments.
pub fn success_of(
    alloc: Global,
    noted: &Json,
    code: Option<StatusCode>,
    context: &RequestContext,
    args: &[Arg],
) -> Result<SuccessReply, AllocError> {
    let mut reader = Reader::new(alloc);
    let success = SuccessReply {
        status: read_status(&mut reader, noted, code),
        others: read_others(&mut reader, noted),
        named: read_named(&mut reader, noted),
        content: read_content(&mut reader, noted, context, args),
    };
    finished(reader, success)
}

fn read_status(reader: &mut Reader, noted: &Json, code: Option<StatusCode>) -> StatusCode {
    if let Some(code) = code {
        return code;
    }
    match status_of(reader.or(number_or(noted, "status", 200), 200)) {
        Some(status) => status,
        None => {
            reader.expected("a status");
            StatusCode::OK
        }
    }
}

fn status_of(number: u64) -> Option<StatusCode> {
    StatusCode::from_u16(u16::try_from(number).ok()?).ok()
}

fn read_others(reader: &mut Reader, noted: &Json) -> HeaderList {
    match noted.get("others") {
        Some(lines) => read_lines(reader, lines),
        None => HeaderList::new(reader.alloc()),
    }
}

fn read_named(reader: &mut Reader, noted: &Json) -> Option<Tree> {
    match noted.get("named") {
        Some(tree) => Some(read_tree(reader, tree)),
        None => None,
    }
}

fn read_content(
    reader: &mut Reader,
    noted: &Json,
    context: &RequestContext,
    args: &[Arg],
) -> Content {
    match noted.get("gives") {
        None => last_argument(reader, args),
        Some(Json::Text(word)) => content_named(reader, word.as_str(), context, args),
        Some(gives) => content_noted(reader, gives),
    }
}

fn content_named(
    reader: &mut Reader,
    word: &str,
    context: &RequestContext,
    args: &[Arg],
) -> Content {
    match word {
        "argument" => last_argument(reader, args),
        "context" => Content::Json(context_told(reader, context)),
        "nothing" => Content::Empty,
        _ => {
            reader.expected("what a handler gives");
            Content::Empty
        }
    }
}

fn last_argument(reader: &mut Reader, args: &[Arg]) -> Content {
    let alloc = reader.alloc();
    match args.last() {
        Some(Arg::Tree(tree)) => Content::Json(reader.or(tree.copy(alloc), Tree::None)),
        Some(Arg::Raw(bytes)) => {
            let bytes = List::from_bytes(alloc, bytes.as_slice());
            Content::Freeform(Body::with_content(reader.or(bytes, List::new(alloc))))
        }
        _ => Content::Empty,
    }
}

fn context_told(reader: &mut Reader, context: &RequestContext) -> Tree {
    let alloc = reader.alloc();
    let operation_id = &context.endpoint.operation_id;
    let media_type = context.endpoint.body_content_type.mime_type();
    let variables = context.endpoint.variables.len();
    let request_id = context.request_id.text();
    let method = context.request.method().as_str();
    let most_bytes = context.request_body_max_bytes();
    let told = format!(in alloc;
        "{operation_id} {media_type} {variables} {request_id} {method} {most_bytes}"
    );
    Tree::Text(Text::from_string(reader.or(told, String::new(alloc))))
}

fn content_noted(reader: &mut Reader, noted: &Json) -> Content {
    if let Some(tree) = noted.get("tree") {
        return Content::Json(read_tree(reader, tree));
    }
    match noted.get("bare") {
        Some(bare) => Content::Bare(read_body(reader, bare)),
        None => Content::Freeform(read_body(reader, noted)),
    }
}

fn read_body(reader: &mut Reader, noted: &Json) -> Body {
    reader.check_names(noted, &["frames", "failing"]);
    let body = body_of(reader.alloc(), noted);
    reader.or(body, Body::empty())
}
