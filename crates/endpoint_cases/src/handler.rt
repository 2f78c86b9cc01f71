//! The handlers of cases: the shape of an endpoint, and what is done, as outcomes.rt says. Where the endpoint notes no
//! errors, and its table has no other definition of their name, they are those of the library. Of errors of another
//! type the body is the tree under `"refuses"`. What is not of the shape is told as want of memory.
ghost use Rattle.std.specs.Prelude.{IfOk, IsTrue};
ghost use Rattle.handler_shapes.specs.ShapeChecks.{ShapePasses};
ghost use Rattle.api_respond.specs.Replies.{ErrorFits, ReplyFits};
ghost use Rattle.endpoint_notation.specs.Codeless.{is_codeless_right};
ghost use Rattle.endpoint_cases.specs.Errors.{IsDefined, IsNamed};

use crate::outcomes::{error_of, success_of, tree_or_want};
use crate::shapes::set_errors;
use api_respond::{ErrorReply, Reply, RequestContext, RouteHandler, SuccessReply};
use case_notation::{CaseError, text_of};
use endpoint_notation::{is_codeless_right, own_fits, shape_of, success_fits};
use handler_shapes::{Arg, ArgList, HandlerShape, shape_passes};
use http_status::{ErrorStatusCode, HttpError};
use schema_values::{Json, Text};
use std::alloc::{AllocError, Global};
use tree_store::Store;

/// A handler that does what its case notes.
#[derive(Drop)]
pub struct NotedHandler {
    shape: Box<HandlerShape>,
    library: bool,
    does: Json,
    ghost codeless: { IsTrue (is_codeless_right shape.value.response) },
    ghost named: { IsTrue library → IsNamed shape.value },
    ghost defined: { IsTrue library → IsDefined shape.value },
}

/// The handler of the shape that is noted, which does this.
pub fn handler_of(
    alloc: Global,
    noted: &Json,
    does: &Json,
) -> Result<Box<NotedHandler>, CaseError> {
    check_found(does)?;
    let mut shape = Box::new(alloc, shape_of(alloc, noted)?)?;
    let library = set_errors(alloc, noted, &mut shape)?;
    if !is_codeless_right(&shape.response) {
        return Err(CaseError::Expected("a code, or content of any kind"));
    }
    let does = does.copy(alloc)?;
    let handler = NotedHandler {
        shape,
        library,
        does,
    };
    Ok(Box::new(alloc, handler)?)
}

// Tells what a handler finds that is not known.
fn check_found(does: &Json) -> Result<(), CaseError> {
    let Some(found) = does.get("finds") else {
        return Ok(());
    };
    match text_of(found)?.as_str() {
        "no memory" => Ok(()),
        _ => Err(CaseError::Expected("what a handler finds")),
    }
}

impl NotedHandler {
    // What is noted to be replied, or want of memory where that is noted.
    fn answer(
        &self,
        alloc: Global,
        context: &RequestContext,
        args: &[Arg],
    ) -> Result<Reply, AllocError>
        requires { ShapePasses self.now.shape.value }
        ensures { IfOk result (λ reply. ReplyFits self.now.shape.value reply) }
    {
        if self.does.get("finds").is_some() {
            return Err(AllocError);
        }
        match self.does.get("fails") {
            Some(error) => self.fail(alloc, error),
            None => self.give(alloc, context, args),
        }
    }

    // The reply of the success that is noted.
    fn give(
        &self,
        alloc: Global,
        context: &RequestContext,
        args: &[Arg],
    ) -> Result<Reply, AllocError>
        requires { ShapePasses self.now.shape.value }
        ensures { IfOk result (λ reply. ReplyFits self.now.shape.value reply) }
    {
        let code = self.shape.response.success;
        self.check(success_of(alloc, &self.does, code, context, args)?)
    }

    fn check(&self, reply: SuccessReply) -> Result<Reply, AllocError>
        requires { ShapePasses self.now.shape.value }
        ensures { IfOk result (λ reply. ReplyFits self.now.shape.value reply) }
    {
        if success_fits(&self.shape.table, &self.shape.response, &reply) {
            Ok(Reply::Success(reply))
        } else {
            Err(AllocError)
        }
    }

    // The failure of the error that is noted.
    fn fail(&self, alloc: Global, noted: &Json) -> Result<Reply, AllocError>
        ensures { IfOk result (λ reply. ReplyFits self.now.shape.value reply) }
    {
        let error = error_of(alloc, noted)?;
        Ok(Reply::Failure(self.refuse(alloc, error)?))
    }

    // An error of another type than the library's.
    fn own(&self, alloc: Global, status: ErrorStatusCode) -> Result<ErrorReply, AllocError>
        ensures { IfOk result (λ reply. ErrorFits self.now.shape.value reply) }
    {
        if !shape_passes(&self.shape) {
            return Err(AllocError);
        }
        let body = tree_or_want(alloc, self.does.get("refuses"))?;
        if !own_fits(&self.shape.table, &self.shape.error, &body) {
            return Err(AllocError);
        }
        Ok(ErrorReply::Own {
            status,
            body,
            message: Text::new(alloc),
        })
    }
}

impl RouteHandler for NotedHandler {
    ghost use Rattle.std.specs.Prelude.{⊤, codes};

    ghost logged_as = { λ _. codes "handler of a case" };

    ghost shape_of = { λ handler. handler.shape.value };

    ghost allows = { λ _ _ _ _ _ _. ⊤ };

    ghost turns = { λ _ _ _. ⊤ };

    fn label(&self) -> &str {
        "handler of a case"
    }

    fn shape(&self) -> &HandlerShape {
        &self.shape
    }

    #[tactic(auto, using(handler_shapes::proofs::CallerLemmas::all_untouched))]
    fn handle(
        &self,
        alloc: Global,
        ctx: &RequestContext,
        _store: &mut Store,
        args: &mut ArgList,
    ) -> Result<Reply, AllocError> {
        self.answer(alloc, ctx, args.as_slice())
    }

    #[tactic(auto, using(crate::proofs::LibraryErrors::has_errors))]
    fn refuse(&self, alloc: Global, error: HttpError) -> Result<ErrorReply, AllocError> {
        if self.library || self.shape.error.is_none() {
            return Ok(ErrorReply::Http(error));
        }
        let status = error.status_code;
        drop(error);
        self.own(alloc, status)
    }
}
