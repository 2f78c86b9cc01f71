use crate::objects::{add, add_option, add_part, true_json};
use crate::part::{Part, copy_option};
use schema_values::{Json, List, Text};
use std::alloc::{AllocError, Global};

/// A part of a request beside its body (OpenAPI 3.0.3, Parameter Object).
#[derive(Drop)]
pub struct Parameter {
    /// `path`, `query` or `header`: the member `in`.
    pub location: Text,
    /// Its name.
    pub name: Text,
    /// What is said of it.
    pub description: Option<Text>,
    /// Whether a request must have it.
    pub required: bool,
    /// The schema of its text.
    pub schema: Json,
}

/// A header of a response (OpenAPI 3.0.3, Header Object). Its name stands beside it.
#[derive(Drop)]
pub struct HeaderObject {
    /// What is said of it.
    pub description: Option<Text>,
    /// How its value is written, `simple`.
    pub style: Text,
    /// Whether a response must have it.
    pub required: bool,
    /// The schema of its text.
    pub schema: Json,
}

impl Part for Parameter {
    ghost use Rattle.openapi_values.specs.Parameters.{parameter_json};

    ghost json = { parameter_json };

    fn to_json(&self, alloc: Global) -> Result<Json, AllocError> {
        let mut members = List::new(alloc);
        add_part(alloc, &mut members, "in", &self.location)?;
        add_part(alloc, &mut members, "name", &self.name)?;
        add_option(alloc, &mut members, "description", &self.description)?;
        add(alloc, &mut members, "required", true_json(self.required))?;
        add_part(alloc, &mut members, "schema", &self.schema)?;
        Ok(Json::Object(members))
    }

    fn copy(&self, alloc: Global) -> Result<Parameter, AllocError> {
        Ok(Parameter {
            location: self.location.copy(alloc)?,
            name: self.name.copy(alloc)?,
            description: copy_option(alloc, &self.description)?,
            required: self.required,
            schema: self.schema.copy(alloc)?,
        })
    }
}

impl Part for HeaderObject {
    ghost use Rattle.openapi_values.specs.Parameters.{header_json};

    ghost json = { header_json };

    fn to_json(&self, alloc: Global) -> Result<Json, AllocError> {
        let mut members = List::new(alloc);
        add_option(alloc, &mut members, "description", &self.description)?;
        add_part(alloc, &mut members, "style", &self.style)?;
        add(alloc, &mut members, "required", true_json(self.required))?;
        add_part(alloc, &mut members, "schema", &self.schema)?;
        Ok(Json::Object(members))
    }

    fn copy(&self, alloc: Global) -> Result<HeaderObject, AllocError> {
        Ok(HeaderObject {
            description: copy_option(alloc, &self.description)?,
            style: self.style.copy(alloc)?,
            required: self.required,
            schema: self.schema.copy(alloc)?,
        })
    }
}
