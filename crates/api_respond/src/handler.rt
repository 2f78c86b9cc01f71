//! What answers the requests of an endpoint.
ghost use Rattle.std.specs.Prelude.{◌≡◌, ◌⊎◌, ℕ, List, IfOk, OnErr};
ghost use Rattle.handler_shapes.specs.Arguments.{ArgsFit, ArgsStay};
ghost use Rattle.handler_shapes.specs.ShapeChecks.{ShapePasses};
ghost use Rattle.handler_shapes.specs.declared.arguments.Arg.{Arg as ArgValue};
ghost use Rattle.handler_shapes.specs.declared.shape.HandlerShape.{HandlerShape as Shape};
ghost use Rattle.http_status.specs.declared.error.HttpError.{HttpError as ErrorValue};
ghost use Rattle.tree_store.specs.Tables.{Tables};
ghost use Rattle.api_respond.specs.Replies.{ErrorFits, IsFreeformWithoutCode, ReplyFits};
ghost use Rattle.api_respond.specs.declared.context.RequestContext.{RequestContext as Context};
ghost use Rattle.api_respond.specs.declared.reply.ErrorReply.{ErrorReply as ErrorReplyValue};
ghost use Rattle.api_respond.specs.declared.reply.Reply.{Reply as ReplyValue};

use crate::context::RequestContext;
use crate::reply::{ErrorReply, Reply};
use handler_shapes::{ArgList, HandlerShape};
use http_status::HttpError;
use std::alloc::{AllocError, Global};
use tree_store::Store;

/// What answers the requests of an endpoint.
pub trait RouteHandler: Drop {
    /// The bytes of the name in logs, which never changes.
    ghost logged_as: { Self → List ℕ };

    /// The shape, which never changes.
    ghost shape_of: { Self → Shape };

    /// What `handle` may reply on a context, a store and arguments, and which store it may leave.
    ghost allows: { Self → Context → Tables → List ArgValue → ReplyValue → Tables → Type 0 };

    /// What `refuse` may make of an error.
    ghost turns: { Self → ErrorValue → ErrorReplyValue → Type 0 };

    /// The handler's name in logs.
    fn label(&self) -> &str
        ensures { result.now ≡ logged_as self.now };

    /// What the handler takes and gives.
    fn shape(&self) -> &HandlerShape
        ensures shape { result.now ≡ shape_of self.now }
        ensures codeless { IsFreeformWithoutCode (shape_of self.now) };

    /// Handles a request whose arguments fit the slots. The reply is one that is allowed, and fits the
    /// shape. Trees and bytes among the arguments stay; a stream may be read. After want of memory the
    /// store is as before, or as after a reply that is allowed and fits.
    fn handle(
        &self,
        alloc: Global,
        ctx: &RequestContext,
        store: &mut Store,
        args: &mut ArgList,
    ) -> Result<Reply, AllocError>
        requires shape { ShapePasses (shape_of self.now) }
        requires args { ArgsFit (shape_of self.now).table (shape_of self.now).slots args.old }
        ensures allowed { IfOk result (λ reply. allows self.now ctx.now store.old args.old reply store.new) }
        ensures fits { IfOk result (λ reply. ReplyFits (shape_of self.now) reply) }
        ensures keeps { ArgsStay args.old args.new }
        ensures err { OnErr result ((store.new ≡ store.old)
            ⊎ ((reply : ReplyValue) × ReplyFits (shape_of self.now) reply
            × allows self.now ctx.now store.old args.old reply store.new)) };

    /// The reply that tells the client of an error. It fits the shape.
    fn refuse(&self, alloc: Global, error: HttpError) -> Result<ErrorReply, AllocError>
        ensures turned { IfOk result (λ reply. turns self.now error reply) }
        ensures fits { IfOk result (λ reply. ErrorFits (shape_of self.now) reply) };
}
