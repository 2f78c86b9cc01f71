//! Tells how many bytes a body has.
ghost use Rattle.std.specs.Prelude.{◌∷◌, [], IfOk};
ghost use Rattle.api_respond.specs.Replies.{ReplyFits};
ghost use Rattle.handler_shapes.specs.Arguments.{ArgsFit};
ghost use Rattle.handler_shapes.specs.ShapeChecks.{ShapePasses};
ghost use Rattle.handler_shapes.specs.declared.arguments.Arg.TheVariants as arguments;
ghost use Rattle.tree_store.specs.Tables.{Tables};
ghost use Rattle.sample_api.specs.Handlers.{TellsSize};
ghost use Rattle.sample_types.specs.Shapes.{raw_size_shape};

use crate::replies::replied;
use api_respond::{Content, Reply};
use api_types::ApiType;
use handler_shapes::Arg;
use http::StatusCode;
use schema_values::List;
use std::alloc::{AllocError, Global};

/// Answers arguments, which fit the slots, whatever is stored.
pub(crate) fn answer(alloc: Global, args: &[Arg]) -> Result<Reply, AllocError>
    requires passes { ShapePasses raw_size_shape }
    requires fit { ArgsFit raw_size_shape.table raw_size_shape.slots args.now }
    ensures tells { IfOk result (λ reply. (store : Tables) → TellsSize args.now store reply store) }
    ensures fits { IfOk result (ReplyFits raw_size_shape) }
{
    match args {
        [Arg::Raw(bytes)] => sized(alloc, bytes),
        // Other arguments do not fit.
        _ => unreachable!(),
    }
}

// Tells how many bytes there are.
fn sized(alloc: Global, bytes: &List<u8>) -> Result<Reply, AllocError>
    requires { ShapePasses raw_size_shape }
    ensures tells { IfOk result (λ reply. (store : Tables)
        → TellsSize (arguments.Raw bytes.now ∷ []) store reply store) }
    ensures fits { IfOk result (ReplyFits raw_size_shape) }
{
    let size = bytes.len() as u64;
    size.fits();
    Ok(replied(alloc, StatusCode::OK, Content::Json(size.to_tree(alloc)?)))
}
