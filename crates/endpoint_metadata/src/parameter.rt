//! The parameters of endpoints.
ghost use Rattle.std.specs.Prelude.{◌≡◌, None, IfOk};
ghost use Rattle.endpoint_metadata.specs.Parameters.{named_in};
ghost use Rattle.endpoint_metadata.specs.Values.{parameter_value};
ghost use Rattle.endpoint_metadata.specs.declared.parameter.ApiEndpointParameterMetadata.TheVariants.{Body};

use crate::generator::ApiSchemaGenerator;
use request_parts::ApiEndpointBodyContentType;
use schema_values::{List, Text, copy_text};
use std::alloc::{AllocError, Global};

/// Where a parameter of a name stands (OpenAPI 3.0.3, Parameter Object).
#[derive(Clone, Copy, Debug, PartialEq, Eq)]
pub enum ApiEndpointParameterLocation {
    /// In the path.
    Path,
    /// In the query.
    Query,
    /// In the header lines.
    Header,
}

/// Where a parameter stands: under its name, or as the body.
#[derive(Drop)]
pub enum ApiEndpointParameterMetadata {
    /// In the path.
    Path(Text),
    /// In the query.
    Query(Text),
    /// In the header lines.
    Header(Text),
    /// As the body, which is of a kind.
    Body(ApiEndpointBodyContentType),
}

/// A parameter of an endpoint, or its body.
#[derive(Drop)]
pub struct ApiEndpointParameter {
    /// Where it stands.
    pub metadata: ApiEndpointParameterMetadata,
    /// What a document says of it.
    pub description: Option<Text>,
    /// Whether it must be there.
    pub required: bool,
    /// Its schema.
    pub schema: ApiSchemaGenerator,
    /// Examples of it.
    pub examples: List<Text>,
}

impl ApiEndpointParameterMetadata {
    /// A place equal to this one. Fails only for want of memory.
    pub fn copy(&self, alloc: Global) -> Result<ApiEndpointParameterMetadata, AllocError>
        ensures { IfOk result (λ copy. copy ≡ self.now) }
    {
        match self {
            ApiEndpointParameterMetadata::Path(name) => {
                Ok(ApiEndpointParameterMetadata::Path(name.copy(alloc)?))
            }
            ApiEndpointParameterMetadata::Query(name) => {
                Ok(ApiEndpointParameterMetadata::Query(name.copy(alloc)?))
            }
            ApiEndpointParameterMetadata::Header(name) => {
                Ok(ApiEndpointParameterMetadata::Header(name.copy(alloc)?))
            }
            ApiEndpointParameterMetadata::Body(kind) => {
                Ok(ApiEndpointParameterMetadata::Body(*kind))
            }
        }
    }
}

impl ApiEndpointParameter {
    /// A parameter of a name.
    pub fn new_named(
        loc: &ApiEndpointParameterLocation,
        name: Text,
        description: Option<Text>,
        required: bool,
        schema: ApiSchemaGenerator,
        examples: List<Text>,
    ) -> ApiEndpointParameter
        ensures { result ≡ record {
          metadata = named_in loc.now name;
          description = description;
          required = required;
          schema = schema;
          examples = examples;
        } }
    {
        ApiEndpointParameter {
            metadata: named_in(*loc, name),
            description,
            required,
            schema,
            examples,
        }
    }

    /// A body of a kind.
    pub fn new_body(
        content_type: ApiEndpointBodyContentType,
        required: bool,
        schema: ApiSchemaGenerator,
        examples: List<Text>,
    ) -> ApiEndpointParameter
        ensures { result ≡ record {
          metadata = Body content_type;
          description = None;
          required = required;
          schema = schema;
          examples = examples;
        } }
    {
        ApiEndpointParameter {
            metadata: ApiEndpointParameterMetadata::Body(content_type),
            description: None,
            required,
            schema,
            examples,
        }
    }

    /// A parameter equal to this one. Fails only for want of memory.
    pub fn copy(&self, alloc: Global) -> Result<ApiEndpointParameter, AllocError>
        ensures { IfOk result (λ copy. parameter_value copy ≡ parameter_value self.now) }
    {
        Ok(ApiEndpointParameter {
            metadata: self.metadata.copy(alloc)?,
            description: copy_text(alloc, &self.description)?,
            required: self.required,
            examples: copy_texts(alloc, self.examples.as_slice())?,
            schema: self.schema.copy(alloc)?,
        })
    }
}

// A name in a place.
fn named_in(location: ApiEndpointParameterLocation, name: Text) -> ApiEndpointParameterMetadata
    ensures { result ≡ named_in location name }
{
    match location {
        ApiEndpointParameterLocation::Path => ApiEndpointParameterMetadata::Path(name),
        ApiEndpointParameterLocation::Query => ApiEndpointParameterMetadata::Query(name),
        ApiEndpointParameterLocation::Header => ApiEndpointParameterMetadata::Header(name),
    }
}

/// The same texts in the same order. Fails only for want of memory.
pub fn copy_texts(alloc: Global, texts: &[Text]) -> Result<List<Text>, AllocError>
    ensures { IfOk result (λ copies. copies ≡ texts.now) }
{
    let mut copies = List::new(alloc);
    for text in texts {
        copies.push(text.copy(alloc)?)?;
    }
    Ok(copies)
}
