//! Stores a point under its label, and gives it back with status 201.
ghost use Rattle.std.specs.Prelude.{◌≡◌, ◌∷◌, [], IfOk, OnErr};
ghost use Rattle.api_respond.specs.Replies.{ReplyFits};
ghost use Rattle.handler_shapes.specs.Arguments.{ArgsFit};
ghost use Rattle.handler_shapes.specs.ShapeChecks.{ShapePasses};
ghost use Rattle.handler_shapes.specs.declared.arguments.Arg.TheVariants as arguments;
ghost use Rattle.sample_api.specs.Handlers.{CreatesPoint};
ghost use Rattle.sample_types.specs.Shapes.{point_create_shape};

use crate::replies::replied;
use api_respond::{Content, Reply};
use handler_shapes::Arg;
use http::StatusCode;
use sample_types::Point;
use std::alloc::{AllocError, Global};
use tree_store::Store;
use typed_values::Tree;

/// Answers arguments, which fit the slots.
pub(crate) fn answer(alloc: Global, store: &mut Store, args: &[Arg]) -> Result<Reply, AllocError>
    requires passes { ShapePasses point_create_shape }
    requires fit { ArgsFit point_create_shape.table point_create_shape.slots args.now }
    ensures creates { IfOk result (λ reply. CreatesPoint args.now store.old reply store.new) }
    ensures fits { IfOk result (ReplyFits point_create_shape) }
    ensures err { OnErr result (store.new ≡ store.old) }
{
    match args {
        [Arg::Tree(point)] => create(alloc, store, point),
        // Other arguments do not fit.
        _ => unreachable!(),
    }
}

// Stores a point, and gives it back.
fn create(alloc: Global, store: &mut Store, tree: &Tree) -> Result<Reply, AllocError>
    requires passes { ShapePasses point_create_shape }
    requires fit { ArgsFit point_create_shape.table point_create_shape.slots (arguments.Tree tree.now ∷ []) }
    ensures creates { IfOk result (λ reply. CreatesPoint (arguments.Tree tree.now ∷ []) store.old reply store.new) }
    ensures fits { IfOk result (ReplyFits point_create_shape) }
    ensures err { OnErr result (store.new ≡ store.old) }
{
    let label = Point::label_in(tree);
    let stored = tree.copy(alloc)?;
    let shown = tree.copy(alloc)?;
    store.insert("points", label.as_str(), stored)?;
    Ok(replied(alloc, StatusCode::CREATED, Content::Json(shown)))
}
