use crate::info::Info;
use crate::media::ResponseObject;
use crate::objects::{add, add_list, add_map, add_part};
use crate::operation::PathItem;
use crate::part::{Part, copy_list, copy_map, map_json};
use crate::tags::TagObject;
use schema_values::{Json, List, Text};
use std::alloc::{AllocError, Global};

/// What an API is: a document by OpenAPI 3.0.3, OpenAPI Object. In it and in its parts a member is left out
/// where its field is `None`, an empty list or false; `paths` and `components` always stand.
#[derive(Drop)]
pub struct OpenApi {
    /// The version of OpenAPI, `3.0.3`.
    pub openapi: Text,
    /// What the API is called, and its version.
    pub info: Info,
    /// The operations, by the templates of their paths.
    pub paths: List<(Text, PathItem)>,
    /// What other parts refer to.
    pub components: Components,
    /// What the operations are grouped under.
    pub tags: List<TagObject>,
}

/// What other parts refer to by names (Components Object).
#[derive(Drop)]
pub struct Components {
    /// Responses by names.
    pub responses: List<(Text, ResponseObject)>,
    /// Schemas by names.
    pub schemas: List<(Text, Json)>,
}

impl Part for Components {
    ghost use Rattle.openapi_values.specs.Document.{components_json};

    ghost json = { components_json };

    fn to_json(&self, alloc: Global) -> Result<Json, AllocError> {
        let mut members = List::new(alloc);
        add_map(alloc, &mut members, "responses", &self.responses)?;
        add_map(alloc, &mut members, "schemas", &self.schemas)?;
        Ok(Json::Object(members))
    }

    fn copy(&self, alloc: Global) -> Result<Components, AllocError> {
        Ok(Components {
            responses: copy_map(alloc, &self.responses)?,
            schemas: copy_map(alloc, &self.schemas)?,
        })
    }
}

impl Part for OpenApi {
    ghost use Rattle.openapi_values.specs.Document.{open_api_json};

    ghost json = { open_api_json };

    fn to_json(&self, alloc: Global) -> Result<Json, AllocError> {
        let mut members = List::new(alloc);
        add_part(alloc, &mut members, "openapi", &self.openapi)?;
        add_part(alloc, &mut members, "info", &self.info)?;
        let paths = Json::Object(map_json(alloc, &self.paths)?);
        add(alloc, &mut members, "paths", Some(paths))?;
        add_part(alloc, &mut members, "components", &self.components)?;
        add_list(alloc, &mut members, "tags", &self.tags)?;
        Ok(Json::Object(members))
    }

    fn copy(&self, alloc: Global) -> Result<OpenApi, AllocError> {
        let openapi = self.openapi.copy(alloc)?;
        let paths = copy_map(alloc, &self.paths)?;
        let tags = copy_list(alloc, &self.tags)?;
        let components = self.components.copy(alloc)?;
        let info = self.info.copy(alloc)?;
        Ok(OpenApi {
            openapi,
            info,
            paths,
            components,
            tags,
        })
    }
}
