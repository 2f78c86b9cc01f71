//! The handlers of the operations.
ghost use Rattle.std.specs.Prelude.{◌≡◌, IfOk, OnErr};
ghost use Rattle.api_respond.specs.Replies.{ReplyFits};
ghost use Rattle.handler_shapes.specs.Arguments.{ArgsFit};
ghost use Rattle.handler_shapes.specs.ShapeChecks.{ShapePasses};
ghost use Rattle.sample_api.specs.Handlers.{allowed};
ghost use Rattle.sample_types.specs.Operations.{shape_of};

use crate::{folder_count, inner, point_create, point_drop, point_probe, raw_size};
use api_respond::{ErrorReply, Reply, RequestContext, RouteHandler};
use handler_shapes::{Arg, ArgList, HandlerShape};
use http_status::HttpError;
use sample_types::Operation;
use std::alloc::{AllocError, Global};
use tree_store::Store;

/// The handler of an operation.
#[derive(Drop)]
pub struct SampleHandler {
    operation: Operation,
    shape: HandlerShape,
    ghost of_operation: { shape ≡ shape_of operation },
}

impl SampleHandler {
    /// The handler of an operation. Fails only for want of memory.
    pub fn new(alloc: Global, operation: Operation) -> Result<SampleHandler, AllocError>
        ensures operation { IfOk result (λ handler. handler.operation ≡ operation) }
        ensures shape { IfOk result (λ handler. handler.shape ≡ shape_of operation) }
    {
        Ok(SampleHandler {
            shape: operation.shape(alloc)?,
            operation,
        })
    }
}

impl RouteHandler for SampleHandler {
    ghost use Rattle.std.specs.Prelude.{◌≡◌};
    ghost use Rattle.api_respond.specs.declared.reply.ErrorReply.TheVariants.{Http};
    ghost use Rattle.sample_types.specs.Operations.{name_of};
    ghost use Rattle.sample_api.specs.Handlers.{allowed};

    ghost logged_as = { λ handler. name_of handler.operation };

    ghost shape_of = { λ handler. handler.shape };

    ghost allows = { λ handler _ before args reply after. allowed handler.operation args before reply after };

    ghost turns = { λ _ error reply. reply ≡ Http error };

    fn label(&self) -> &str {
        self.operation.name()
    }

    fn shape(&self) -> &HandlerShape {
        &self.shape
    }

    fn handle(
        &self,
        alloc: Global,
        _ctx: &RequestContext,
        store: &mut Store,
        args: &mut ArgList,
    ) -> Result<Reply, AllocError> {
        answer(alloc, self.operation, store, args.as_slice())
    }

    fn refuse(&self, _alloc: Global, error: HttpError) -> Result<ErrorReply, AllocError> {
        Ok(ErrorReply::Http(error))
    }
}

// Answers arguments, which fit the slots of an operation.
fn answer(
    alloc: Global,
    operation: Operation,
    store: &mut Store,
    args: &[Arg],
) -> Result<Reply, AllocError>
    requires passes { ShapePasses (shape_of operation) }
    requires fit { ArgsFit (shape_of operation).table (shape_of operation).slots args.now }
    ensures allowed { IfOk result (λ reply. allowed operation args.now store.old reply store.new) }
    ensures fits { IfOk result (ReplyFits (shape_of operation)) }
    ensures err { OnErr result (store.new ≡ store.old) }
{
    match operation {
        Operation::PointCreate => point_create::answer(alloc, store, args),
        Operation::PointProbe => point_probe::answer(alloc, args),
        Operation::PointDrop => point_drop::answer(alloc, store, args),
        Operation::RawSize => raw_size::answer(alloc, args),
        Operation::FolderCount => folder_count::answer(alloc, args),
        Operation::Inner => inner::answer(alloc, args),
    }
}
