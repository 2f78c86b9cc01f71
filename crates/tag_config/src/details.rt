//! What documents say of a tag.
ghost use Rattle.std.specs.Prelude.{◌≡◌, ◌∷◌, [], codes, IfOk};
ghost use Rattle.api_types.specs.Heads.{nullable, required, struct_of};

use api_types::{ApiStruct, ApiType, StructHead};
use schema_values::{List, Text, copy_text};
use std::alloc::{AllocError, Global};
use typed_values::Tree;

/// What documents say of a tag (OpenAPI 3.0.3, Tag Object).
#[derive(Drop)]
pub struct TagDetails {
    /// A text on it.
    pub description: Option<Text>,
    /// Where more is said of it.
    pub external_docs: Option<TagExternalDocs>,
}

/// Where more is said of a tag (OpenAPI 3.0.3, External Documentation Object).
#[derive(Drop)]
pub struct TagExternalDocs {
    /// A text on what stands there.
    pub description: Option<Text>,
    /// The address.
    pub url: Text,
}

impl TagDetails {
    /// Details equal to these.
    pub fn copy(&self, alloc: Global) -> Result<TagDetails, AllocError>
        ensures { IfOk result (λ copy. copy ≡ self.now) }
    {
        let description = copy_text(alloc, &self.description)?;
        let external_docs = match &self.external_docs {
            Some(docs) => Some(docs.copy(alloc)?),
            None => None,
        };
        Ok(TagDetails {
            description,
            external_docs,
        })
    }
}

impl TagExternalDocs {
    /// A reference equal to this one.
    pub fn copy(&self, alloc: Global) -> Result<TagExternalDocs, AllocError>
        ensures { IfOk result (λ copy. copy ≡ self.now) }
    {
        let description = copy_text(alloc, &self.description)?;
        Ok(TagExternalDocs {
            description,
            url: self.url.copy(alloc)?,
        })
    }
}

impl ApiStruct for TagExternalDocs {
    type Fields = (Option<Text>, (Text, ()));

    ghost use Rattle.std.specs.Prelude.{true};

    ghost struct_name = { codes "TagExternalDocs" };

    ghost is_in_place = { true };

    ghost head_of = { struct_of (nullable (codes "description") ∷ required (codes "url") ∷ []) };

    ghost fields_of = { λ docs. (docs.description, (docs.url, tt)) };

    fn name() -> &'static str {
        "TagExternalDocs"
    }

    fn in_place() -> bool {
        true
    }

    fn head(alloc: Global) -> Result<StructHead, AllocError> {
        StructHead::new(alloc)
            .nullable(alloc, "description")?
            .required(alloc, "url")
    }

    fn trees(&self, alloc: Global) -> Result<List<Tree>, AllocError> {
        let mut trees = List::new(alloc);
        trees.push(self.description.to_tree(alloc)?)?;
        trees.push(self.url.to_tree(alloc)?)?;
        Ok(trees)
    }

    fn each_fits(&self) {
        self.description.fits();
        self.url.fits();
    }

    fn from_fields((description, (url, ())): Self::Fields) -> TagExternalDocs {
        TagExternalDocs { description, url }
    }
}

impl ApiStruct for TagDetails {
    type Fields = (Option<Text>, (Option<TagExternalDocs>, ()));

    ghost use Rattle.std.specs.Prelude.{true};

    ghost struct_name = { codes "TagDetails" };

    ghost is_in_place = { true };

    ghost head_of = { struct_of
        (nullable (codes "description") ∷ nullable (codes "external_docs") ∷ []) };

    ghost fields_of = { λ details. (details.description, (details.external_docs, tt)) };

    fn name() -> &'static str {
        "TagDetails"
    }

    fn in_place() -> bool {
        true
    }

    fn head(alloc: Global) -> Result<StructHead, AllocError> {
        StructHead::new(alloc)
            .nullable(alloc, "description")?
            .nullable(alloc, "external_docs")
    }

    fn trees(&self, alloc: Global) -> Result<List<Tree>, AllocError> {
        let mut trees = List::new(alloc);
        trees.push(self.description.to_tree(alloc)?)?;
        trees.push(self.external_docs.to_tree(alloc)?)?;
        Ok(trees)
    }

    fn each_fits(&self) {
        self.description.fits();
        self.external_docs.fits();
    }

    fn from_fields((description, (external_docs, ())): Self::Fields) -> TagDetails {
        TagDetails {
            description,
            external_docs,
        }
    }
}
