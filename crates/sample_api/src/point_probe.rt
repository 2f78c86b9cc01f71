//! Gives back the label of the path, the numbers of the query and that of the header.
ghost use Rattle.std.specs.Prelude.{◌∷◌, [], IfOk};
ghost use Rattle.api_respond.specs.Replies.{ReplyFits};
ghost use Rattle.handler_shapes.specs.Arguments.{ArgsFit};
ghost use Rattle.handler_shapes.specs.ShapeChecks.{ShapePasses};
ghost use Rattle.handler_shapes.specs.declared.arguments.Arg.TheVariants as arguments;
ghost use Rattle.tree_store.specs.Tables.{Tables};
ghost use Rattle.sample_api.specs.Handlers.{Probes};
ghost use Rattle.sample_types.specs.Shapes.{point_probe_shape};

use crate::replies::replied;
use api_respond::{Content, Reply};
use api_types::ApiType;
use handler_shapes::Arg;
use http::StatusCode;
use sample_types::{LabelPath, Probe, ProbeHeader, ProbeQuery};
use std::alloc::{AllocError, Global};
use typed_values::Tree;

/// Answers arguments, which fit the slots, whatever is stored.
pub(crate) fn answer(alloc: Global, args: &[Arg]) -> Result<Reply, AllocError>
    requires passes { ShapePasses point_probe_shape }
    requires fit { ArgsFit point_probe_shape.table point_probe_shape.slots args.now }
    ensures probes { IfOk result (λ reply. (store : Tables) → Probes args.now store reply store) }
    ensures fits { IfOk result (ReplyFits point_probe_shape) }
{
    match args {
        [Arg::Tree(path), Arg::Tree(query), Arg::Tree(header)] => tell(alloc, path, query, header),
        // Other arguments do not fit.
        _ => unreachable!(),
    }
}

// Tells what a probe is asked with.
fn tell(alloc: Global, path: &Tree, query: &Tree, header: &Tree) -> Result<Reply, AllocError>
    requires passes { ShapePasses point_probe_shape }
    requires fit { ArgsFit point_probe_shape.table point_probe_shape.slots
        (arguments.Tree path.now ∷ arguments.Tree query.now ∷ arguments.Tree header.now ∷ []) }
    ensures probes { IfOk result (λ reply. (store : Tables) → Probes
        (arguments.Tree path.now ∷ arguments.Tree query.now ∷ arguments.Tree header.now ∷ []) store reply store) }
    ensures fits { IfOk result (ReplyFits point_probe_shape) }
{
    let LabelPath { label } = LabelPath::from_tree(alloc, path)?;
    let ProbeQuery { n, i } = ProbeQuery::from_tree(alloc, query)?;
    let ProbeHeader { a } = ProbeHeader::from_tree(alloc, header)?;
    let probe = Probe { label, n, i, a };
    probe.fits();
    let told = probe.to_tree(alloc)?;
    Ok(replied(alloc, StatusCode::OK, Content::Json(told)))
}
