//! The two commands: a session over lines, and a document alone.
ghost use Rattle.std.specs.Prelude.{◌≡◌, ◌-◌, ◌^◌, ◌<◌, ◌≤◌, IfOk, IsErrOf, OnErr, OnOk};
ghost use Rattle.std.specs.Prelude.{List as ListOf, ℕ, Some};
ghost use Rattle.std.specs.Io.KnownBytes.{Appends};
ghost use Rattle.schema_values.specs.Causes.{HasRisen};
ghost use Rattle.line_session.specs.Parts.{AppendsPart};
ghost use Rattle.line_session.specs.Session.{IsAnswered};
ghost use Rattle.semver.specs.Identifiers.{parts_of};
ghost use Rattle.api_endpoints.specs.Endpoints.{boxed};
ghost use Rattle.api_descriptions.specs.Ready.{IsReady};
ghost use Rattle.api_descriptions.specs.Written.{WritesBy};
ghost use Rattle.command_line.specs.declared.config.ToolStatus.{ToolStatus as StatusValue};
ghost use Rattle.command_line.specs.Serving.{CallsFor, EndsBy, outside};
ghost use Rattle.contract_tool.specs.Ends.{DocumentEnds, SessionEnds};
ghost use Rattle.contract_tool.specs.LineAnswers.{LineAnswers, service};
ghost use Rattle.contract_tool.specs.Sessions.{preamble_of};

use crate::answering::LineAnswerer;
use api_descriptions::{ApiDescription, WriteError};
use api_respond::RouteHandler;
use command_line::{ToolConfig, ToolStatus, serve_within};
use line_session::{Sink, Source};
use request_parts::copy_version;
use schema_values::List;
use semver::Version;
use std::alloc::{AllocError, Global};
use std::marker::PhantomData;
use tree_store::Store;

/// Serves a session: writes the document of the version, and then a reply line for each input line.
pub(crate) fn run_session<S: Source, K: Sink>(
    alloc: Global,
    api: &ApiDescription,
    version: &Version,
    store: &mut Store,
    config: &ToolConfig,
    source: &mut S,
    sink: &mut K,
) -> ToolStatus
    requires ready { IsReady (boxed ⟦<dyn RouteHandler as RouteHandler>⟧) api.now }
    requires most { config.now.most_input < 2 ^ 64 - 1 }
    requires longest { config.now.longest_line < 2 ^ 64 - 1 }
    requires budget { config.now.frame_budget < 2 ^ 64 - 1 }
    ensures session { result ≡ ToolStatus.Done → (all earlier : ListOf ℕ)
        → S.left source.old ≡ Some all → K.taken sink.old ≡ Some earlier
        → IsAnswered (LineAnswers (boxed ⟦<dyn RouteHandler as RouteHandler>⟧)
        (service config.now api.now.tags api.now.endpoints.items (parts_of version.now)))
        (preamble_of (boxed ⟦<dyn RouteHandler as RouteHandler>⟧)
        (service config.now api.now.tags api.now.endpoints.items (parts_of version.now)))
        all earlier (S.left source.new) (K.taken sink.new) store.old store.new }
    ensures ends { SessionEnds (boxed ⟦<dyn RouteHandler as RouteHandler>⟧)
        (service config.now api.now.tags api.now.endpoints.items (parts_of version.now)) S.Source K.Sink
        (outside source.old sink.old store.old) (outside source.new sink.new store.new) result }
    ensures complete { (all : ListOf ℕ) → S.left source.old ≡ Some all
        → (status : StatusValue) → CallsFor config.now all status
        → ¬ HasRisen (S.faults source.old) (S.faults source.new)
        → ¬ HasRisen (K.faults sink.old) (K.faults sink.new)
        → EndsBy status result }
    ensures source_later { S.faults source.old ≤ S.faults source.new }
    ensures sink_later { K.faults sink.old ≤ K.faults sink.new }
    ensures read_risen { S.faults source.old < S.faults source.new → result ≡ ToolStatus.ReadFault }
    ensures write_risen { K.faults sink.old < K.faults sink.new → result ≡ ToolStatus.WriteFault }
{
    let Ok(preamble) = preamble_text(alloc, api, config, version) else {
        return ToolStatus::OutOfMemory;
    };
    let answerer = LineAnswerer {
        api,
        config,
        version,
        handlers: PhantomData,
    };
    serve_within(
        alloc,
        &answerer,
        store,
        preamble.as_slice(),
        config,
        source,
        sink,
    )
}

// The pretty text of the document, and a newline.
fn preamble_text(
    alloc: Global,
    api: &ApiDescription,
    config: &ToolConfig,
    version: &Version,
) -> Result<List<u8>, AllocError>
    requires { IsReady (boxed ⟦<dyn RouteHandler as RouteHandler>⟧) api.now }
    ensures { IfOk result (λ preamble. preamble ≡ preamble_of (boxed ⟦<dyn RouteHandler as RouteHandler>⟧)
        (service config.now api.now.tags api.now.endpoints.items (parts_of version.now))) }
{
    let version = copy_version(version)?;
    let definition = api.openapi(alloc, config.title.as_str(), version)?;
    Ok(definition.text(alloc)?.into_bytes())
}

/// Writes the document of a version alone.
pub(crate) fn write_document<K: Sink>(
    alloc: Global,
    api: &ApiDescription,
    version: &Version,
    config: &ToolConfig,
    sink: &mut K,
) -> ToolStatus
    requires { IsReady (boxed ⟦<dyn RouteHandler as RouteHandler>⟧) api.now }
    ensures ends { DocumentEnds K.Sink sink.old sink.new
        (preamble_of (boxed ⟦<dyn RouteHandler as RouteHandler>⟧)
        (service config.now api.now.tags api.now.endpoints.items (parts_of version.now))) result }
    ensures complete { ¬ HasRisen (K.faults sink.old) (K.faults sink.new)
        → EndsBy ToolStatus.Done result }
    ensures later { K.faults sink.old ≤ K.faults sink.new }
    ensures risen { K.faults sink.old < K.faults sink.new → result ≡ ToolStatus.WriteFault }
{
    match write_preamble(alloc, api, version, config, sink) {
        Ok(()) => ToolStatus::Done,
        Err(WriteError::WriteFault) => ToolStatus::WriteFault,
        Err(WriteError::OutOfMemory) => ToolStatus::OutOfMemory,
    }
}

// Writes the pretty text of the document, and a newline.
fn write_preamble<K: Sink>(
    alloc: Global,
    api: &ApiDescription,
    version: &Version,
    config: &ToolConfig,
    sink: &mut K,
) -> Result<(), WriteError>
    requires { IsReady (boxed ⟦<dyn RouteHandler as RouteHandler>⟧) api.now }
    ensures ok { OnOk result (Appends (K.taken sink.old) (K.taken sink.new)
        (preamble_of (boxed ⟦<dyn RouteHandler as RouteHandler>⟧)
        (service config.now api.now.tags api.now.endpoints.items (parts_of version.now)))) }
    ensures part { OnErr result (AppendsPart (K.taken sink.old) (K.taken sink.new)
        (preamble_of (boxed ⟦<dyn RouteHandler as RouteHandler>⟧)
        (service config.now api.now.tags api.now.endpoints.items (parts_of version.now)))) }
    ensures calls { WritesBy K.Sink (preamble_of (boxed ⟦<dyn RouteHandler as RouteHandler>⟧)
        (service config.now api.now.tags api.now.endpoints.items (parts_of version.now)))
        sink.old sink.new result }
    ensures later { K.faults sink.old ≤ K.faults sink.new }
    ensures failed { IsErrOf result WriteError.WriteFault → HasRisen (K.faults sink.old) (K.faults sink.new) }
    ensures counts { ¬ IsErrOf result WriteError.WriteFault → K.faults sink.new ≡ K.faults sink.old }
{
    let version = copy_version(version)?;
    let definition = api.openapi(alloc, config.title.as_str(), version)?;
    definition.write(alloc, sink)
}
