//! The document of an API at a version: as JSON, as a text, and written.
ghost use Rattle.std.specs.Prelude.{◌≡◌, ◌≤◌, IfOk, IsErrOf, OnErr, OnOk};
ghost use Rattle.std.specs.Io.KnownBytes.{Appends};
ghost use Rattle.std.specs.Str.{chars, encode_utf8_all};
ghost use Rattle.schema_values.specs.Causes.{HasRisen};
ghost use Rattle.schema_values.specs.Sound.{IsSound};
ghost use Rattle.line_session.specs.Parts.{AppendsPart};
ghost use Rattle.semver.specs.Identifiers.{parts_of};
ghost use Rattle.api_endpoints.specs.Endpoints.{boxed};
ghost use Rattle.api_descriptions.specs.Information.{info_of};
ghost use Rattle.api_descriptions.specs.Ready.{IsReady};
ghost use Rattle.api_descriptions.specs.Written.{WritesBy, document_at, document_text};

use crate::description::ApiDescription;
use api_agreement::accepted_are_listed;
use api_documents::document;
use api_endpoints::declarations;
use api_respond::RouteHandler;
use line_session::{Sink, SinkError, write_all};
use openapi_values::{Info, Part};
use request_parts::copy_version;
use schema_values::{Json, Text};
use semver::Version;
use std::alloc::{AllocError, Global};

/// What is said of an API at one version.
#[derive(Drop)]
pub struct OpenApiDefinition<'a> {
    pub(crate) alloc: Global,
    pub(crate) api: &'a ApiDescription,
    pub(crate) version: Version,
    pub(crate) info: Info,
}

/// Why a document was not written. A part of it, from the front, may have been.
#[derive(Clone, Copy, Debug, PartialEq, Eq)]
pub enum WriteError {
    /// The sink failed.
    WriteFault,
    /// There was not enough memory.
    OutOfMemory,
}

impl From<AllocError> for WriteError {
    ghost use Rattle.std.specs.Prelude.{◌≡◌};
    ghost use Rattle.api_descriptions.specs.declared.definition.WriteError.TheVariants.{OutOfMemory};

    ghost from_gives = { λ _ error. error ≡ OutOfMemory };

    fn from(_: AllocError) -> WriteError {
        WriteError::OutOfMemory
    }
}

impl ApiDescription {
    /// What is said of the API at a version, under a title. Fails only for want of memory.
    pub fn openapi(
        &self,
        alloc: Global,
        title: &str,
        version: Version,
    ) -> Result<OpenApiDefinition<'_>, AllocError>
        ensures api { IfOk result (λ definition. definition.api.now ≡ self.now) }
        ensures version { IfOk result (λ definition. definition.version ≡ version) }
        ensures info { IfOk result (λ definition. definition.info
            ≡ info_of (chars title.now) (parts_of version)) }
    {
        let info = Info {
            title: Text::from_str(alloc, title)?,
            version: Text::from_string(version.to_string(alloc)?),
            description: None,
            terms_of_service: None,
            contact: None,
            license: None,
        };
        Ok(OpenApiDefinition {
            alloc,
            api: self,
            version,
            info,
        })
    }
}

impl<'a> OpenApiDefinition<'a> {
    /// A definition that says the same of the same API. Fails only for want of memory.
    pub fn copy(&self, alloc: Global) -> Result<OpenApiDefinition<'a>, AllocError>
        ensures api { IfOk result (λ copy. copy.api.now ≡ self.now.api.now) }
        ensures version { IfOk result (λ copy. parts_of copy.version ≡ parts_of self.now.version) }
        ensures info { IfOk result (λ copy. copy.info ≡ self.now.info) }
    {
        let version = copy_version(&self.version)?;
        Ok(OpenApiDefinition {
            alloc,
            api: self.api,
            version,
            info: self.info.copy(alloc)?,
        })
    }

    /// The document as JSON. It lists the endpoints that are visible and whose ranges hold the version. Fails only
    /// for want of memory.
    pub fn json(&self, alloc: Global) -> Result<Json, AllocError>
        requires ready { IsReady
            (boxed ⟦<dyn RouteHandler as RouteHandler>⟧) self.now.api.now }
        ensures written { IfOk result (λ json. json ≡ document_at
            (boxed ⟦<dyn RouteHandler as RouteHandler>⟧) self.now.api.now.tags
            self.now.api.now.endpoints.items self.now.info (parts_of self.now.version)) }
        ensures sound { IfOk result IsSound }
    {
        // The law on which `sound` rests.
        accepted_are_listed();
        let declarations = declarations(alloc, &self.api.endpoints)?;
        let document = document(
            alloc,
            &declarations,
            &self.api.tags,
            &self.info,
            &self.version,
        )?;
        document.to_json(alloc)
    }

    /// The pretty text of the document and a newline. Fails only for want of memory.
    pub fn text(&self, alloc: Global) -> Result<Text, AllocError>
        requires ready { IsReady
            (boxed ⟦<dyn RouteHandler as RouteHandler>⟧) self.now.api.now }
        ensures { IfOk result (λ text. text ≡ document_text
            (boxed ⟦<dyn RouteHandler as RouteHandler>⟧) self.now.api.now.tags
            self.now.api.now.endpoints.items self.now.info (parts_of self.now.version)) }
    {
        let mut text = self.json(alloc)?.pretty(alloc)?;
        text.push('\n')?;
        Ok(text)
    }

    /// Writes the pretty text of the document and a newline; at an error a part of it, from the front.
    pub fn write<K: Sink>(&self, alloc: Global, sink: &mut K) -> Result<(), WriteError>
        requires ready { IsReady
            (boxed ⟦<dyn RouteHandler as RouteHandler>⟧) self.now.api.now }
        ensures ok { OnOk result (Appends (K.taken sink.old) (K.taken sink.new)
            (encode_utf8_all (document_text
            (boxed ⟦<dyn RouteHandler as RouteHandler>⟧) self.now.api.now.tags
            self.now.api.now.endpoints.items self.now.info (parts_of self.now.version)))) }
        ensures part { OnErr result (AppendsPart (K.taken sink.old) (K.taken sink.new)
            (encode_utf8_all (document_text
            (boxed ⟦<dyn RouteHandler as RouteHandler>⟧) self.now.api.now.tags
            self.now.api.now.endpoints.items self.now.info (parts_of self.now.version)))) }
        ensures later { K.faults sink.old ≤ K.faults sink.new }
        ensures failed { IsErrOf result WriteError.WriteFault
            → HasRisen (K.faults sink.old) (K.faults sink.new) }
        ensures counts { ¬ IsErrOf result WriteError.WriteFault
            → K.faults sink.new ≡ K.faults sink.old }
        ensures calls { WritesBy K.Sink (encode_utf8_all (document_text
            (boxed ⟦<dyn RouteHandler as RouteHandler>⟧) self.now.api.now.tags
            self.now.api.now.endpoints.items self.now.info (parts_of self.now.version)))
            sink.old sink.new result }
    {
        let text = self.text(alloc)?;
        match write_all(sink, text.as_bytes()) {
            Ok(()) => Ok(()),
            Err(SinkError::Failed) => Err(WriteError::WriteFault),
            Err(SinkError::OutOfMemory) => Err(WriteError::OutOfMemory),
        }
    }
}
