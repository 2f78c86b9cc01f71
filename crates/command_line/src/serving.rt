//! Lines, served within the settings of a run.
ghost use Rattle.std.specs.Prelude.{◌≡◌, ◌-◌, ◌^◌, ◌<◌, ◌≤◌, List as ListOf, ℕ, Some};
ghost use Rattle.schema_values.specs.Causes.{HasRisen};
ghost use Rattle.line_session.specs.Session.{IsAnswered};
ghost use Rattle.command_line.specs.declared.config.ToolStatus.{ToolStatus as StatusValue};
ghost use Rattle.command_line.specs.Serving.{CallsFor, EndsBy, ServingEnds, outside};

use crate::config::{ToolConfig, ToolStatus};
use line_session::{Answering, Sink, Source, serve};
use std::alloc::Global;

/// Serves lines within the limits of the settings, whatever answers them: writes the front, and then the reply to each
/// line of the source, each with a newline behind it. The status tells how that ended. Where nothing stands against it,
/// it is the one that the bytes call for, or memory runs out. The two limits are below 2^64-1.
pub fn serve_within<A: Answering, S: Source, K: Sink>(
    alloc: Global,
    answering: &A,
    state: &mut A::State,
    front: &[u8],
    config: &ToolConfig,
    source: &mut S,
    sink: &mut K,
) -> ToolStatus
    requires ready { A.can_answer answering.now }
    requires most { config.now.most_input < 2 ^ 64 - 1 }
    requires longest { config.now.longest_line < 2 ^ 64 - 1 }
    ensures session { result ≡ ToolStatus.Done → (all earlier : ListOf ℕ)
        → S.left source.old ≡ Some all → K.taken sink.old ≡ Some earlier
        → IsAnswered (A.answers answering.now) front.now all earlier
        (S.left source.new) (K.taken sink.new) state.old state.new }
    ensures ends { ServingEnds (A.answers answering.now) (A.lost answering.now) front.now config.now S.Source K.Sink
        (outside source.old sink.old state.old) (outside source.new sink.new state.new) result }
    ensures complete { (all : ListOf ℕ) → S.left source.old ≡ Some all
        → (status : StatusValue) → CallsFor config.now all status
        → ¬ HasRisen (S.faults source.old) (S.faults source.new)
        → ¬ HasRisen (K.faults sink.old) (K.faults sink.new)
        → EndsBy status result }
    ensures source_later { S.faults source.old ≤ S.faults source.new }
    ensures sink_later { K.faults sink.old ≤ K.faults sink.new }
    ensures read_risen { S.faults source.old < S.faults source.new → result ≡ ToolStatus.ReadFault }
    ensures write_risen { K.faults sink.old < K.faults sink.new → result ≡ ToolStatus.WriteFault }
{
    ToolStatus::from(serve(
        alloc,
        answering,
        state,
        front,
        config.most_input,
        config.longest_line,
        source,
        sink,
    ))
}
