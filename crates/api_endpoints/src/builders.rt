//! The calls that make one endpoint of another, each with one thing said otherwise.
ghost use Rattle.std.specs.Prelude.{◌≡◌, ◌++◌, ◌∷◌, [], IfOk, Some};

use crate::endpoint::ApiEndpoint;
use schema_values::Text;
use std::alloc::AllocError;

impl ApiEndpoint {
    /// The same endpoint with this short text, for documents.
    pub fn summary(mut self, summary: Text) -> Self
        ensures { result ≡ record self { summary = Some summary } }
    {
        self.summary = Some(summary);
        self
    }

    /// The same endpoint with this longer text, for documents.
    pub fn description(mut self, description: Text) -> Self
        ensures { result ≡ record self { description = Some description } }
    {
        self.description = Some(description);
        self
    }

    /// The same endpoint whose bodies have at most this many bytes.
    pub fn request_body_max_bytes(mut self, max_bytes: u64) -> Self
        ensures { result ≡ record self { request_body_max_bytes = Some max_bytes } }
    {
        self.request_body_max_bytes = Some(max_bytes);
        self
    }

    /// The same endpoint with a tag behind those that it has. Fails only for want of memory, and drops the
    /// endpoint then.
    pub fn tag(mut self, tag: Text) -> Result<Self, AllocError>
        ensures { IfOk result (λ e. e ≡ record self { tags = self.tags ++ tag ∷ [] }) }
    {
        self.tags.push(tag)?;
        Ok(self)
    }

    /// The same endpoint, shown by documents or hidden.
    pub fn visible(mut self, visible: bool) -> Self
        ensures { result ≡ record self { visible = visible } }
    {
        self.visible = visible;
        self
    }

    /// The same endpoint, of which documents say that it should no longer be used, or not.
    pub fn deprecated(mut self, deprecated: bool) -> Self
        ensures { result ≡ record self { deprecated = deprecated } }
    {
        self.deprecated = deprecated;
        self
    }
}
