//! Tells `true`; hidden.
ghost use Rattle.std.specs.Prelude.{[], IfOk};
ghost use Rattle.api_respond.specs.Replies.{ReplyFits};
ghost use Rattle.handler_shapes.specs.Arguments.{ArgsFit};
ghost use Rattle.handler_shapes.specs.ShapeChecks.{ShapePasses};
ghost use Rattle.tree_store.specs.Tables.{Tables};
ghost use Rattle.sample_api.specs.Handlers.{TellsTrue};
ghost use Rattle.sample_types.specs.Shapes.{inner_shape};

use crate::replies::replied;
use api_respond::{Content, Reply};
use api_types::ApiType;
use handler_shapes::Arg;
use http::StatusCode;
use std::alloc::{AllocError, Global};

/// Answers arguments, which fit the slots, whatever is stored.
pub(crate) fn answer(alloc: Global, args: &[Arg]) -> Result<Reply, AllocError>
    requires passes { ShapePasses inner_shape }
    requires fit { ArgsFit inner_shape.table inner_shape.slots args.now }
    ensures tells { IfOk result (λ reply. (store : Tables) → TellsTrue args.now store reply store) }
    ensures fits { IfOk result (ReplyFits inner_shape) }
{
    match args {
        [] => tell(alloc),
        // Other arguments do not fit.
        _ => unreachable!(),
    }
}

// Tells `true`.
fn tell(alloc: Global) -> Result<Reply, AllocError>
    requires { ShapePasses inner_shape }
    ensures tells { IfOk result (λ reply. (store : Tables) → TellsTrue [] store reply store) }
    ensures fits { IfOk result (ReplyFits inner_shape) }
{
    let truth = true;
    truth.fits();
    Ok(replied(alloc, StatusCode::OK, Content::Json(truth.to_tree(alloc)?)))
}
