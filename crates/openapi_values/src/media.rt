ghost use Rattle.std.specs.Prelude.{◌≡◌, IfOk};

use crate::objects::{add, add_map, add_option, add_part, reference, true_json};
use crate::parameter::HeaderObject;
use crate::part::{Part, copy_map, copy_option};
use schema_values::{Json, List, Text};
use std::alloc::{AllocError, Global};

/// A body of one media type (OpenAPI 3.0.3, Media Type Object).
#[derive(Drop)]
pub struct MediaType {
    /// The schema of the body.
    pub schema: Json,
}

/// The body of a request (OpenAPI 3.0.3, Request Body Object).
#[derive(Drop)]
pub struct RequestBody {
    /// The body by its media types.
    pub content: List<(Text, MediaType)>,
    /// Whether a request must have a body.
    pub required: bool,
}

/// A response, or a reference to one (OpenAPI 3.0.3, Response Object and Reference Object).
#[derive(Drop)]
pub struct ResponseObject {
    /// What is said of it.
    pub description: Option<Text>,
    /// Its headers, by names.
    pub headers: List<(Text, HeaderObject)>,
    /// Its body, by media types.
    pub content: List<(Text, MediaType)>,
    /// The reference, which then is written alone.
    pub reference: Option<Text>,
}

impl Part for MediaType {
    ghost use Rattle.openapi_values.specs.Operation.{media_type_json};

    ghost json = { media_type_json };

    fn to_json(&self, alloc: Global) -> Result<Json, AllocError> {
        let mut members = List::new(alloc);
        add_part(alloc, &mut members, "schema", &self.schema)?;
        Ok(Json::Object(members))
    }

    fn copy(&self, alloc: Global) -> Result<MediaType, AllocError> {
        let schema = self.schema.copy(alloc)?;
        Ok(MediaType { schema })
    }
}

impl Part for RequestBody {
    ghost use Rattle.openapi_values.specs.Operation.{request_body_json};

    ghost json = { request_body_json };

    fn to_json(&self, alloc: Global) -> Result<Json, AllocError> {
        let mut members = List::new(alloc);
        add_map(alloc, &mut members, "content", &self.content)?;
        add(alloc, &mut members, "required", true_json(self.required))?;
        Ok(Json::Object(members))
    }

    fn copy(&self, alloc: Global) -> Result<RequestBody, AllocError> {
        let content = copy_map(alloc, &self.content)?;
        let required = self.required;
        Ok(RequestBody { content, required })
    }
}

impl ResponseObject {
    ghost use Rattle.openapi_values.specs.Operation.{described_json};

    fn described(&self, alloc: Global) -> Result<Json, AllocError>
        ensures { IfOk result (λ json. json ≡ described_json self.now) }
    {
        let mut members = List::new(alloc);
        add_option(alloc, &mut members, "description", &self.description)?;
        add_map(alloc, &mut members, "headers", &self.headers)?;
        add_map(alloc, &mut members, "content", &self.content)?;
        Ok(Json::Object(members))
    }
}

impl Part for ResponseObject {
    ghost use Rattle.openapi_values.specs.Operation.{response_json};

    ghost json = { response_json };

    fn to_json(&self, alloc: Global) -> Result<Json, AllocError> {
        match &self.reference {
            Some(text) => reference(alloc, text),
            None => self.described(alloc),
        }
    }

    fn copy(&self, alloc: Global) -> Result<ResponseObject, AllocError> {
        Ok(ResponseObject {
            description: copy_option(alloc, &self.description)?,
            headers: copy_map(alloc, &self.headers)?,
            content: copy_map(alloc, &self.content)?,
            reference: copy_option(alloc, &self.reference)?,
        })
    }
}
