//! The handlers of cases. `"handler"` has the members of the shape, as shapes.rt of
//! `endpoint_notation` says, and those of what it does, as outcomes.rt says. Its errors are those of
//! the library, which no document tells, where they are left out or null, else problems,
//! `{"desc":{"struct":[["status","u16"],["problem","text"]]},"name":"Problem"}`; with other errors
//! the program ends where one is told. A success that is not of the response is told as an internal
//! error, and so is what is noted otherwise than outcomes.rt says.
ghost use Rattle.std.specs.Prelude.{IfOk, IsTrue};
ghost use Rattle.handler_shapes.specs.ShapeChecks.{ShapePasses};
ghost use Rattle.api_respond.specs.Replies.{ReplyFits};
ghost use Rattle.endpoint_notation.specs.Codeless.{is_codeless_right};

use crate::errors::told_as;
use crate::outcomes::{error_of, success_of};
use api_respond::{ErrorReply, Reply, RequestContext, RouteHandler, SuccessReply};
use case_notation::CaseError;
use endpoint_notation::{is_codeless_right, success_fits};
use handler_shapes::{Arg, ArgList, HandlerShape};
use http_status::HttpError;
use schema_values::{Json, Text};
use std::alloc::{AllocError, Global};
use tree_store::Store;

/// A handler that does what its case notes.
#[derive(Drop)]
pub struct NotedHandler<'c> {
    shape: &'c HandlerShape,
    noted: &'c Json,
    ghost codeless: { IsTrue (is_codeless_right shape.now.response) },
}

/// The handler of a shape that does what is noted.
pub fn handler_of<'c>(
    shape: &'c HandlerShape,
    noted: &'c Json,
) -> Result<NotedHandler<'c>, CaseError> {
    if is_codeless_right(&shape.response) {
        Ok(NotedHandler { shape, noted })
    } else {
        Err(CaseError::Expected("a code, or content of any kind"))
    }
}

impl NotedHandler<'_> {
    // The reply of the success that is noted.
    fn give(
        &self,
        alloc: Global,
        context: &RequestContext,
        args: &[Arg],
    ) -> Result<Reply, AllocError>
        requires { ShapePasses self.now.shape.now }
        ensures { IfOk result (λ reply. ReplyFits self.now.shape.now reply) }
    {
        match success_of(
            alloc,
            self.noted,
            self.shape.response.success,
            context,
            args,
        ) {
            Ok(reply) => self.check(alloc, reply),
            Err(CaseError::OutOfMemory) => Err(AllocError),
            Err(_) => self.misfit(alloc),
        }
    }

    // The reply of a success, or the failure that tells that it is not of the response.
    fn check(&self, alloc: Global, reply: SuccessReply) -> Result<Reply, AllocError>
        requires { ShapePasses self.now.shape.now }
        ensures { IfOk result (λ reply. ReplyFits self.now.shape.now reply) }
    {
        if success_fits(&self.shape.table, &self.shape.response, &reply) {
            Ok(Reply::Success(reply))
        } else {
            self.misfit(alloc)
        }
    }

    fn misfit(&self, alloc: Global) -> Result<Reply, AllocError>
        ensures { IfOk result (λ reply. ReplyFits self.now.shape.now reply) }
    {
        let message = Text::from_str(alloc, "what is given is not of the response")?;
        self.fail(alloc, HttpError::for_internal_error(alloc, message)?)
    }

    // The failure of the error that is noted.
    fn fail_as(&self, alloc: Global, noted: &Json) -> Result<Reply, AllocError>
        ensures { IfOk result (λ reply. ReplyFits self.now.shape.now reply) }
    {
        match error_of(alloc, noted) {
            Ok(error) => self.fail(alloc, error),
            Err(CaseError::OutOfMemory) => Err(AllocError),
            Err(_) => self.misfit(alloc),
        }
    }

    // The failure of a copy of what an error is told as.
    fn fail(&self, alloc: Global, error: HttpError) -> Result<Reply, AllocError>
        ensures { IfOk result (λ reply. ReplyFits self.now.shape.now reply) }
    {
        let error = self.refuse(alloc, error)?;
        Ok(Reply::Failure(error.copy(alloc)?))
    }
}

impl RouteHandler for NotedHandler<'_> {
    ghost use Rattle.std.specs.Prelude.{⊤, codes};

    ghost logged_as = { λ _. codes "handler of a case" };

    ghost shape_of = { λ handler. handler.shape.now };

    ghost allows = { λ _ _ _ _ _ _. ⊤ };

    ghost turns = { λ _ _ _. ⊤ };

    fn label(&self) -> &str {
        "handler of a case"
    }

    fn shape(&self) -> &HandlerShape {
        self.shape
    }

    #[tactic(auto, using(handler_shapes::proofs::CallerLemmas::all_untouched))]
    fn handle(
        &self,
        alloc: Global,
        ctx: &RequestContext,
        _store: &mut Store,
        args: &mut ArgList,
    ) -> Result<Reply, AllocError> {
        match self.noted.get("fails") {
            Some(error) => self.fail_as(alloc, error),
            None => self.give(alloc, ctx, args.as_slice()),
        }
    }

    fn refuse(&self, alloc: Global, error: HttpError) -> Result<ErrorReply, AllocError> {
        told_as(alloc, self.shape, error)
    }
}
