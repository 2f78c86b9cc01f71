//! What a handler replies.
ghost use Rattle.std.specs.Prelude.{◌≡◌, IfOk};

use http::StatusCode;
use http_status::{Body, ErrorStatusCode, HeaderList, HttpError, HttpRefusal};
use schema_values::Text;
use std::alloc::{AllocError, Global};
use typed_values::Tree;

/// What a handler replies.
#[derive(Drop)]
pub enum Reply {
    /// The request was done.
    Success(SuccessReply),
    /// The request was not done.
    Failure(ErrorReply),
}

/// A success.
#[derive(Drop)]
pub struct SuccessReply {
    /// The status that is sent.
    pub status: StatusCode,
    /// What the body is made of.
    pub content: Content,
    /// The struct of the named headers, where the shape has some.
    pub named: Option<Tree>,
    /// The other header lines.
    pub others: HeaderList,
}

/// The content of a success.
#[derive(Drop)]
pub enum Content {
    /// Nothing.
    Empty,
    /// A tree, sent as JSON.
    Json(Tree),
    /// Bytes of any kind, sent as such.
    Freeform(Body),
    /// Bytes, sent without a header line that tells their type.
    Bare(Body),
}

/// An error.
#[derive(Drop)]
pub enum ErrorReply {
    /// An error of the library.
    Http(HttpError),
    /// An error of a type of the handler's own.
    Own {
        /// The status that is sent.
        status: ErrorStatusCode,
        /// The body, sent as JSON.
        body: Tree,
        /// The message for the log.
        message: Text,
    },
}

/// What a handler answers where the request was not done.
pub type HandlerError = ErrorReply;

/// A reply, or the error or the want of memory for which there is none.
pub type HttpHandlerResult = Result<Reply, HttpRefusal>;

impl ErrorReply {
    /// An error equal to this one. Fails only for want of memory.
    pub fn copy(&self, alloc: Global) -> Result<ErrorReply, AllocError>
        ensures { IfOk result (λ copy. copy ≡ self.now) }
    {
        match self {
            ErrorReply::Http(error) => Ok(ErrorReply::Http(error.copy(alloc)?)),
            ErrorReply::Own {
                status,
                body,
                message,
            } => {
                let message = message.copy(alloc)?;
                Ok(ErrorReply::Own {
                    status: *status,
                    body: body.copy(alloc)?,
                    message,
                })
            }
        }
    }
}
