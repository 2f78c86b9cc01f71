//! A schema of a document, and the texts that it admits.

ghost use Rattle.std.specs.Prelude.{◌≡◌};
ghost use Rattle.std.specs.Str.{chars};
ghost use Rattle.schema_values.specs.Sound.{IsSound};
ghost use Rattle.openapi_values.specs.TextAdmits.{text_admitted};

use openapi_values::text_admits;
use schema_values::Json;

/// A schema, and the document in which it is read.
#[derive(Clone, Copy)]
pub(crate) struct SchemaIn<'a> {
    pub(crate) doc: &'a Json,
    pub(crate) schema: &'a Json,
}

impl SchemaIn<'_> {
    /// Whether the schema admits a text.
    pub(crate) fn admits(&self, text: &str) -> bool
        requires doc { IsSound self.now.doc.now }
        requires schema { IsSound self.now.schema.now }
        ensures { result ≡ text_admitted self.now.doc.now self.now.schema.now (chars text.now) }
    {
        text_admits(self.doc, self.schema, text)
    }
}
