use crate::objects::{add_option, add_part};
use crate::part::{Part, copy_option};
use schema_values::{Json, List, Text};
use std::alloc::{AllocError, Global};

/// What operations are grouped under (OpenAPI 3.0.3, Tag Object).
#[derive(Drop)]
pub struct TagObject {
    /// Its name.
    pub name: Text,
    /// What is said of it.
    pub description: Option<Text>,
    /// Where more is written of it.
    pub external_docs: Option<ExternalDocs>,
}

/// Where more is written (OpenAPI 3.0.3, External Documentation Object).
#[derive(Drop)]
pub struct ExternalDocs {
    /// What is written there.
    pub description: Option<Text>,
    /// Where it is found.
    pub url: Text,
}

impl Part for TagObject {
    ghost use Rattle.openapi_values.specs.Tags.{tag_json};

    ghost json = { tag_json };

    fn to_json(&self, alloc: Global) -> Result<Json, AllocError> {
        let mut members = List::new(alloc);
        add_part(alloc, &mut members, "name", &self.name)?;
        add_option(alloc, &mut members, "description", &self.description)?;
        add_option(alloc, &mut members, "externalDocs", &self.external_docs)?;
        Ok(Json::Object(members))
    }

    fn copy(&self, alloc: Global) -> Result<TagObject, AllocError> {
        Ok(TagObject {
            name: self.name.copy(alloc)?,
            description: copy_option(alloc, &self.description)?,
            external_docs: copy_option(alloc, &self.external_docs)?,
        })
    }
}

impl Part for ExternalDocs {
    ghost use Rattle.openapi_values.specs.Tags.{external_docs_json};

    ghost json = { external_docs_json };

    fn to_json(&self, alloc: Global) -> Result<Json, AllocError> {
        let mut members = List::new(alloc);
        add_option(alloc, &mut members, "description", &self.description)?;
        add_part(alloc, &mut members, "url", &self.url)?;
        Ok(Json::Object(members))
    }

    fn copy(&self, alloc: Global) -> Result<ExternalDocs, AllocError> {
        Ok(ExternalDocs {
            description: copy_option(alloc, &self.description)?,
            url: self.url.copy(alloc)?,
        })
    }
}
