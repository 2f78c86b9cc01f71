//! The top call.
ghost use Rattle.std.specs.Prelude.{◌≡◌, ◌↔◌, ◌-◌, ◌^◌, ◌<◌, ◌≤◌, List as ListOf, ℕ, Some};
ghost use Rattle.schema_values.specs.Causes.{HasRisen};
ghost use Rattle.semver.specs.Parse.{Parts};
ghost use Rattle.api_endpoints.specs.Endpoints.{boxed};
ghost use Rattle.command_line.specs.declared.config.ToolStatus.{ToolStatus as StatusValue};
ghost use Rattle.command_line.specs.Serving.{CallsFor, EndsBy, outside};
ghost use Rattle.command_line.specs.Words.{AskForDocument, AskForSession, IsCommand};
ghost use Rattle.contract_tool.specs.Ends.{EndsByRefusal, IsEnded, OnlyWrites, given};
ghost use Rattle.contract_tool.specs.LineAnswers.{service};
ghost use Rattle.contract_tool.specs.Sessions.{AreAcceptedUnder, IsDocumentWritten, IsSession};

use crate::serving::{run_session, write_document};
use api_descriptions::{ApiDescription, ApiEndpoint, RegisterError, TagConfig};
use api_respond::RouteHandler;
use command_line::{Command, ToolConfig, ToolStatus, WordsError, command_of};
use line_session::{Sink, Source};
use std::alloc::Global;
use tree_store::Store;

/// Runs a command: reads the words of a command line, registers the endpoints in order, and then does what the
/// words ask for. `session V` writes the document of version V and a newline, and then a reply line for each input
/// line; `document V` writes the document and a newline, and reads nothing.
pub fn run<S: Source, K: Sink>(
    alloc: Global,
    words: &[String],
    endpoints: Vec<ApiEndpoint>,
    tags: TagConfig,
    store: &mut Store,
    config: &ToolConfig,
    source: &mut S,
    sink: &mut K,
) -> ToolStatus
    requires most { config.now.most_input < 2 ^ 64 - 1 }
    requires longest { config.now.longest_line < 2 ^ 64 - 1 }
    requires budget { config.now.frame_budget < 2 ^ 64 - 1 }

    // Of a source and a sink that tell their bytes: all were read, and each line was answered in order, behind the
    // document of the endpoints; the two agree.
    ensures session { result ≡ ToolStatus.Done → (version : Parts) → AskForSession words.now version
        → (all earlier : ListOf ℕ) → S.left source.old ≡ Some all → K.taken sink.old ≡ Some earlier
        → IsSession (boxed ⟦<dyn RouteHandler as RouteHandler>⟧)
        (service config.now tags endpoints.items version) all earlier
        (S.left source.new) (K.taken sink.new) store.old store.new }
    // Of a sink that tells its bytes: the document was written.
    ensures document { result ≡ ToolStatus.Done → (version : Parts) → AskForDocument words.now version
        → (earlier : ListOf ℕ) → K.taken sink.old ≡ Some earlier
        → IsDocumentWritten (boxed ⟦<dyn RouteHandler as RouteHandler>⟧)
        (service config.now tags endpoints.items version) earlier (K.taken sink.new) }
    // What each status says, by the bytes that the source and the sink tell, and by the calls that were made of
    // them.
    ensures ended { IsEnded (boxed ⟦<dyn RouteHandler as RouteHandler>⟧)
        (given words.now config.now tags endpoints.items) S.Source K.Sink
        (outside source.old sink.old store.old) (outside source.new sink.new store.new) result }

    ensures usage { result ≡ ToolStatus.Usage ↔ ¬ IsCommand words.now }
    // A document alone reads nothing and leaves the store, however it ends.
    ensures unread { (version : Parts) → AskForDocument words.now version
        → OnlyWrites (outside source.old sink.old store.old) (outside source.new sink.new store.new) }
    // Endpoints that are not accepted are refused, or memory runs out.
    ensures refused { IsCommand words.now
        → ¬ AreAcceptedUnder (boxed ⟦<dyn RouteHandler as RouteHandler>⟧) tags endpoints.items
        → EndsByRefusal result }
    // Where nothing stands against it, the status is the one that is called for, or memory runs out.
    ensures complete { (version : Parts) → AskForSession words.now version
        → AreAcceptedUnder (boxed ⟦<dyn RouteHandler as RouteHandler>⟧) tags endpoints.items
        → (all : ListOf ℕ) → S.left source.old ≡ Some all
        → (status : StatusValue) → CallsFor config.now all status
        → ¬ HasRisen (S.faults source.old) (S.faults source.new)
        → ¬ HasRisen (K.faults sink.old) (K.faults sink.new)
        → EndsBy status result }
    ensures documented { (version : Parts) → AskForDocument words.now version
        → AreAcceptedUnder (boxed ⟦<dyn RouteHandler as RouteHandler>⟧) tags endpoints.items
        → ¬ HasRisen (K.faults sink.old) (K.faults sink.new)
        → EndsBy ToolStatus.Done result }
    // A count of faults never falls. One that rose ended the run, by whose it is.
    ensures source_later { S.faults source.old ≤ S.faults source.new }
    ensures sink_later { K.faults sink.old ≤ K.faults sink.new }
    ensures read_risen { S.faults source.old < S.faults source.new → result ≡ ToolStatus.ReadFault }
    ensures write_risen { K.faults sink.old < K.faults sink.new → result ≡ ToolStatus.WriteFault }
{
    let command = match command_of(alloc, words) {
        Ok(command) => command,
        Err(WordsError::Usage) => return ToolStatus::Usage,
        Err(WordsError::OutOfMemory) => return ToolStatus::OutOfMemory,
    };
    let api = match ApiDescription::of_endpoints(alloc, tags, endpoints) {
        Ok(api) => api,
        Err(RegisterError::Refused(error)) => return ToolStatus::Refused(error),
        Err(RegisterError::OutOfMemory) => return ToolStatus::OutOfMemory,
    };
    // What its document says of its answers, on which `session`, `document` and `ended` rest.
    api.agrees();
    match command {
        Command::Session(version) => {
            run_session(alloc, &api, &version, store, config, source, sink)
        }
        Command::Document(version) => write_document(alloc, &api, &version, config, sink),
    }
}
