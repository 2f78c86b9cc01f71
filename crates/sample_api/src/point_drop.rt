//! Drops the point of a label; where there is none, that is told.
ghost use Rattle.std.specs.Prelude.{◌≡◌, ◌∷◌, [], IfOk, None, OnErr, codes};
ghost use Rattle.api_respond.specs.Replies.{ReplyFits};
ghost use Rattle.http_status.specs.Errors.{not_found};
ghost use Rattle.handler_shapes.specs.Arguments.{ArgsFit};
ghost use Rattle.handler_shapes.specs.ShapeChecks.{ShapePasses};
ghost use Rattle.handler_shapes.specs.declared.arguments.Arg.TheVariants as arguments;
ghost use Rattle.sample_api.specs.Handlers.{DropsPoint};
ghost use Rattle.sample_types.specs.Shapes.{point_drop_shape};

use crate::replies::replied;
use api_respond::{Content, ErrorReply, Reply};
use api_types::ApiType;
use handler_shapes::Arg;
use http::StatusCode;
use http_status::HttpError;
use sample_types::LabelPath;
use schema_values::Text;
use std::alloc::{AllocError, Global};
use tree_store::Store;
use typed_values::Tree;

/// Answers arguments, which fit the slots.
pub(crate) fn answer(alloc: Global, store: &mut Store, args: &[Arg]) -> Result<Reply, AllocError>
    requires passes { ShapePasses point_drop_shape }
    requires fit { ArgsFit point_drop_shape.table point_drop_shape.slots args.now }
    ensures drops { IfOk result (λ reply. DropsPoint args.now store.old reply store.new) }
    ensures fits { IfOk result (ReplyFits point_drop_shape) }
    ensures err { OnErr result (store.new ≡ store.old) }
{
    match args {
        [Arg::Tree(path)] => drop_at(alloc, store, path),
        // Other arguments do not fit.
        _ => unreachable!(),
    }
}

// Drops the point of the label in a path. Where there is none, no memory may be left to tell that; the store stays.
fn drop_at(alloc: Global, store: &mut Store, path: &Tree) -> Result<Reply, AllocError>
    requires passes { ShapePasses point_drop_shape }
    requires fit { ArgsFit point_drop_shape.table point_drop_shape.slots (arguments.Tree path.now ∷ []) }
    ensures drops { IfOk result (λ reply. DropsPoint (arguments.Tree path.now ∷ []) store.old reply store.new) }
    ensures fits { IfOk result (ReplyFits point_drop_shape) }
    ensures err { OnErr result (store.new ≡ store.old) }
{
    let LabelPath { label } = LabelPath::from_tree(alloc, path)?;
    match store.remove("points", label.as_str()) {
        Some(_) => Ok(replied(alloc, StatusCode::NO_CONTENT, Content::Empty)),
        None => Ok(Reply::Failure(ErrorReply::Http(absent(alloc)?))),
    }
}

fn absent(alloc: Global) -> Result<HttpError, AllocError>
    ensures { IfOk result (λ error. error ≡ not_found None (codes "Not Found")) }
{
    let message = Text::from_ascii(alloc, "Not Found")?;
    HttpError::for_not_found(alloc, None, message)
}
