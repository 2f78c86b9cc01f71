//! Tells how many folders a folder is, with those inside.
ghost use Rattle.std.specs.Prelude.{◌∷◌, [], IfOk};
ghost use Rattle.api_respond.specs.Replies.{ReplyFits};
ghost use Rattle.handler_shapes.specs.Arguments.{ArgsFit};
ghost use Rattle.handler_shapes.specs.ShapeChecks.{ShapePasses};
ghost use Rattle.handler_shapes.specs.declared.arguments.Arg.TheVariants as arguments;
ghost use Rattle.tree_store.specs.Tables.{Tables};
ghost use Rattle.sample_api.specs.Handlers.{CountsFolders};
ghost use Rattle.sample_types.specs.Shapes.{folder_count_shape};

use crate::replies::replied;
use api_respond::{Content, Reply};
use api_types::ApiType;
use handler_shapes::Arg;
use http::StatusCode;
use own_types::Folder;
use sample_types::folder_count;
use std::alloc::{AllocError, Global};
use typed_values::Tree;

/// Answers arguments, which fit the slots, whatever is stored.
pub(crate) fn answer(alloc: Global, args: &[Arg]) -> Result<Reply, AllocError>
    requires passes { ShapePasses folder_count_shape }
    requires fit { ArgsFit folder_count_shape.table folder_count_shape.slots args.now }
    ensures counts { IfOk result (λ reply. (store : Tables) → CountsFolders args.now store reply store) }
    ensures fits { IfOk result (ReplyFits folder_count_shape) }
{
    match args {
        [Arg::Tree(folder)] => counted(alloc, folder),
        // Other arguments do not fit.
        _ => unreachable!(),
    }
}

// Tells how many folders there are.
fn counted(alloc: Global, tree: &Tree) -> Result<Reply, AllocError>
    requires passes { ShapePasses folder_count_shape }
    requires fit { ArgsFit folder_count_shape.table folder_count_shape.slots (arguments.Tree tree.now ∷ []) }
    ensures counts { IfOk result (λ reply. (store : Tables)
        → CountsFolders (arguments.Tree tree.now ∷ []) store reply store) }
    ensures fits { IfOk result (ReplyFits folder_count_shape) }
{
    let count = folder_count(&Folder::from_tree(alloc, tree)?);
    count.fits();
    Ok(replied(
        alloc,
        StatusCode::OK,
        Content::Json(Tree::Int(i128::from(count))),
    ))
}
