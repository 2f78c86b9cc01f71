//! Endpoints without their handlers.
ghost use Rattle.std.specs.Prelude.{◌≡◌, IfOk};
ghost use Rattle.api_endpoints.specs.Endpoints.{boxed, declarations_of};

use crate::endpoint::ApiEndpoint;
use api_declarations::{Declaration, Declared};
use api_respond::RouteHandler;
use std::alloc::{AllocError, Global};

impl Declared for ApiEndpoint {
    ghost use Rattle.api_endpoints.specs.Endpoints.{declaration_by};

    ghost declared = { λ e. declaration_by e ((RouteHandler-box e.handler).shape_of e.handler.value) };

    fn declaration(&self) -> Declaration<'_> {
        Declaration {
            operation_id: &self.operation_id,
            method: &self.method,
            path: self.path.text(),
            body_content_type: self.body_content_type,
            versions: &self.versions,
            visible: self.visible,
            deprecated: self.deprecated,
            tags: &self.tags,
            summary: self.summary.as_ref(),
            description: self.description.as_ref(),
            body_limit: self.request_body_max_bytes,
            shape: self.handler.shape(),
        }
    }
}

/// What is said of endpoints, in order, lent. Fails only for want of memory.
pub fn declarations<'a>(
    alloc: Global,
    endpoints: &'a [ApiEndpoint],
) -> Result<Vec<Declaration<'a>>, AllocError>
    ensures { IfOk result (λ declarations. declarations.items
        ≡ declarations_of (boxed ⟦<dyn RouteHandler as RouteHandler>⟧) endpoints.now) }
{
    let mut declarations = Vec::new(alloc);
    for endpoint in endpoints {
        declarations.push(endpoint.declaration())?;
    }
    Ok(declarations)
}
