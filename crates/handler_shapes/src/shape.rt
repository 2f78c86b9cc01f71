//! What a handler takes and gives.
ghost use Rattle.std.specs.Prelude.{◌≡◌, IfOk};

use crate::slot::{Slot, copy_slots};
use http::StatusCode;
use schema_values::{List, Text};
use std::alloc::{AllocError, Global};
use typed_values::{Desc, DescTable};

/// What a handler takes and gives. Its descriptors are read in its table.
#[derive(Drop)]
pub struct HandlerShape {
    /// The definitions that descriptors refer to.
    pub table: DescTable,
    /// What is taken of a request.
    pub slots: List<Slot>,
    /// What a success gives.
    pub response: ApiEndpointResponse,
    /// What an error gives, where a document tells it.
    pub error: Option<ApiEndpointErrorResponse>,
}

/// What a success gives, and what a document says of it.
#[derive(Drop)]
pub struct ApiEndpointResponse {
    /// The content.
    pub content: ContentShape,
    /// The struct of the named headers, where there are some.
    pub headers: Option<Desc>,
    /// The status code, where it is always the same.
    pub success: Option<StatusCode>,
    /// What a document says of it.
    pub description: Text,
}

/// The content of a success.
#[derive(Drop)]
pub enum ContentShape {
    /// JSON of a descriptor, and the name of its type.
    Json(Desc, Text),
    /// Nothing.
    Empty,
    /// Bytes of any kind.
    Freeform,
}

/// The body of an error.
#[derive(Drop)]
pub struct ApiEndpointErrorResponse {
    /// The descriptor of the body.
    pub desc: Desc,
    /// The name of its type.
    pub name: Text,
}

impl HandlerShape {
    /// A shape equal to this one. Fails only for want of memory.
    pub fn copy(&self, alloc: Global) -> Result<HandlerShape, AllocError>
        ensures { IfOk result (λ copy. copy ≡ self.now) }
    {
        Ok(HandlerShape {
            error: copy_error(alloc, &self.error)?,
            slots: copy_slots(alloc, self.slots.as_slice())?,
            table: self.table.copy(alloc)?,
            response: self.response.copy(alloc)?,
        })
    }
}

impl ApiEndpointResponse {
    /// A response equal to this one. Fails only for want of memory.
    pub fn copy(&self, alloc: Global) -> Result<ApiEndpointResponse, AllocError>
        ensures { IfOk result (λ copy. copy ≡ self.now) }
    {
        Ok(ApiEndpointResponse {
            success: self.success,
            description: self.description.copy(alloc)?,
            headers: copy_desc(alloc, &self.headers)?,
            content: self.content.copy(alloc)?,
        })
    }
}

impl ContentShape {
    /// A content equal to this one. Fails only for want of memory.
    pub fn copy(&self, alloc: Global) -> Result<ContentShape, AllocError>
        ensures { IfOk result (λ copy. copy ≡ self.now) }
    {
        match self {
            ContentShape::Json(desc, name) => {
                let name = name.copy(alloc)?;
                Ok(ContentShape::Json(desc.copy(alloc)?, name))
            }
            ContentShape::Empty => Ok(ContentShape::Empty),
            ContentShape::Freeform => Ok(ContentShape::Freeform),
        }
    }
}

impl ApiEndpointErrorResponse {
    /// An error response equal to this one. Fails only for want of memory.
    pub fn copy(&self, alloc: Global) -> Result<ApiEndpointErrorResponse, AllocError>
        ensures { IfOk result (λ copy. copy ≡ self.now) }
    {
        Ok(ApiEndpointErrorResponse {
            name: self.name.copy(alloc)?,
            desc: self.desc.copy(alloc)?,
        })
    }
}

fn copy_desc(alloc: Global, desc: &Option<Desc>) -> Result<Option<Desc>, AllocError>
    ensures { IfOk result (λ copy. copy ≡ desc.now) }
{
    match desc {
        Some(desc) => Ok(Some(desc.copy(alloc)?)),
        None => Ok(None),
    }
}

fn copy_error(
    alloc: Global,
    error: &Option<ApiEndpointErrorResponse>,
) -> Result<Option<ApiEndpointErrorResponse>, AllocError>
    ensures { IfOk result (λ copy. copy ≡ error.now) }
{
    match error {
        Some(error) => Ok(Some(error.copy(alloc)?)),
        None => Ok(None),
    }
}
