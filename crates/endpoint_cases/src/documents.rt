//! The document of an API at the version and the title of a case.
ghost use Rattle.std.specs.Prelude.{IfOk};
ghost use Rattle.schema_values.specs.Sound.{IsSound};
ghost use Rattle.api_endpoints.specs.Endpoints.{boxed};
ghost use Rattle.api_descriptions.specs.Ready.{IsReady};

use crate::streams::{read_sink, written_told};
use api_descriptions::{ApiDescription, WriteError};
use api_respond::RouteHandler;
use case_notation::{CaseError, Reader, Record};
use endpoint_notation::{text_or, version_at};
use line_session::MemorySink;
use schema_values::{Json, Text};
use semver::Version;
use std::alloc::Global;

/// The title and the version of a document.
#[derive(Drop)]
pub struct Head {
    /// The title.
    pub title: Text,
    /// The version.
    pub version: Version,
}

/// The title and the version of the document of a case.
pub fn head_of(alloc: Global, case: &Json) -> Result<Head, CaseError> {
    let title = text_or(alloc, case, "title", "sample")?;
    let version = version_at(alloc, case)?;
    Ok(Head { title, version })
}

/// The document.
pub fn document(alloc: Global, case: &Json, api: &ApiDescription) -> Result<Json, CaseError>
    requires { IsReady (boxed ⟦<dyn RouteHandler as RouteHandler>⟧) api.now }
    ensures { IfOk result IsSound }
{
    let Head { title, version } = head_of(alloc, case)?;
    let json = {
        let definition = api.openapi(alloc, title.as_str(), version)?;
        definition.json(alloc)
    };
    Ok(json?)
}

/// The text of the document.
pub fn document_text(alloc: Global, case: &Json, api: &ApiDescription) -> Result<Text, CaseError>
    requires { IsReady (boxed ⟦<dyn RouteHandler as RouteHandler>⟧) api.now }
{
    let Head { title, version } = head_of(alloc, case)?;
    let text = {
        let definition = api.openapi(alloc, title.as_str(), version)?;
        definition.text(alloc)
    };
    Ok(text?)
}

/// How the document is written to a sink of which some calls fail, and what the sink has taken then.
pub fn written(alloc: Global, case: &Json, api: &ApiDescription) -> Result<Json, CaseError>
    requires { IsReady (boxed ⟦<dyn RouteHandler as RouteHandler>⟧) api.now }
{
    let document = document_text(alloc, case, api)?;
    let mut sink = sink_of(alloc, case)?;
    let ended = write(alloc, case, api, &mut sink)?;
    Record::new(alloc)
        .text("ended", ended)
        .put(
            "written",
            written_told(alloc, sink.taken(), document.as_str()),
        )
        .done()
}

fn sink_of(alloc: Global, case: &Json) -> Result<MemorySink, CaseError> {
    let mut reader = Reader::new(alloc);
    let sink = read_sink(&mut reader, case);
    reader.finish(sink)
}

fn write(
    alloc: Global,
    case: &Json,
    api: &ApiDescription,
    sink: &mut MemorySink,
) -> Result<&'static str, CaseError>
    requires { IsReady (boxed ⟦<dyn RouteHandler as RouteHandler>⟧) api.now }
{
    let Head { title, version } = head_of(alloc, case)?;
    match api
        .openapi(alloc, title.as_str(), version)?
        .write(alloc, sink)
    {
        Ok(()) => Ok("Done"),
        Err(WriteError::WriteFault) => Ok("WriteFault"),
        Err(WriteError::OutOfMemory) => Err(CaseError::OutOfMemory),
    }
}
