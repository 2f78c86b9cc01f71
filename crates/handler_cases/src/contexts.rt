//! What a handler is told of a request besides its arguments.
use api_respond::RequestContext;
use schema_values::Text;
use std::alloc::{AllocError, Global};
use typed_values::Tree;

/// A text of a copy of a context.
pub fn context_told(alloc: Global, context: &RequestContext) -> Result<Tree, AllocError> {
    let copy = Box::new(alloc, context.copy(alloc)?)?;
    parts_told(alloc, &copy)
}

fn parts_told(alloc: Global, context: &RequestContext) -> Result<Tree, AllocError> {
    let operation_id = &context.endpoint.operation_id;
    let media_type = context.endpoint.body_content_type.mime_type();
    let variables = context.endpoint.variables.len();
    let request_id = context.request_id.text();
    let method = context.request.method().as_str();
    let most_bytes = context.request_body_max_bytes();
    let told = format!(in alloc;
        "{operation_id} {media_type} {variables} {request_id} {method} {most_bytes}"
    )?;
    Ok(Tree::Text(Text::from_string(told)))
}
