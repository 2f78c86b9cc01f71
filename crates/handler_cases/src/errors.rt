//! How handlers of cases tell errors.
ghost use Rattle.std.specs.Prelude.{IfOk};
ghost use Rattle.handler_shapes.specs.ShapeChecks.{ShapePasses};
ghost use Rattle.api_respond.specs.Replies.{ErrorFits};

use api_respond::ErrorReply;
use endpoint_notation::own_fits;
use handler_shapes::{HandlerShape, shape_passes};
use http_status::HttpError;
use schema_values::{List, Text};
use std::alloc::{AllocError, Global};
use typed_values::Tree;

/// The reply that tells an error: one of the library where the shape names no error, else a problem.
/// A problem that is not of the shape is want of memory.
pub fn told_as(
    alloc: Global,
    shape: &HandlerShape,
    error: HttpError,
) -> Result<ErrorReply, AllocError>
    ensures { IfOk result (λ reply. ErrorFits shape.now reply) }
{
    match &shape.error {
        None => Ok(ErrorReply::Http(error)),
        Some(_) => checked_problem(alloc, shape, error),
    }
}

fn checked_problem(
    alloc: Global,
    shape: &HandlerShape,
    error: HttpError,
) -> Result<ErrorReply, AllocError>
    ensures { IfOk result (λ reply. ErrorFits shape.now reply) }
{
    if !shape_passes(shape) {
        return Err(AllocError);
    }
    problem_reply(alloc, shape, error)
}

fn problem_reply(
    alloc: Global,
    shape: &HandlerShape,
    error: HttpError,
) -> Result<ErrorReply, AllocError>
    requires { ShapePasses shape.now }
    ensures { IfOk result (λ reply. ErrorFits shape.now reply) }
{
    let HttpError {
        status_code: status,
        error_code,
        external_message,
        internal_message: message,
        headers,
    } = error;
    drop(error_code);
    drop(headers);
    let body = problem_tree(alloc, status.as_u16(), external_message)?;
    if !own_fits(&shape.table, &shape.error, &body) {
        return Err(AllocError);
    }
    Ok(ErrorReply::Own {
        status,
        body,
        message,
    })
}

// The fields of a problem: its status and its message for the client.
fn problem_tree(alloc: Global, status: u16, message: Text) -> Result<Tree, AllocError> {
    let mut fields = List::new(alloc);
    fields.push(Tree::Int(status.into()))?;
    fields.push(Tree::Text(message))?;
    Ok(Tree::Fields(fields))
}
