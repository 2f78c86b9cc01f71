//! The endpoints of an API.
ghost use Rattle.std.specs.Prelude.{◌≡◌, [], true};
ghost use Rattle.api_endpoints.specs.Endpoints.{boxed};
ghost use Rattle.api_descriptions.specs.Ready.{IsReady};
ghost use Rattle.tag_config.specs.declared.policy.EndpointTagPolicy.TheVariants.{Any};

use api_endpoints::ApiEndpoint;
use api_registration::EndpointIndex;
use api_respond::RouteHandler;
use std::alloc::Global;
use tag_config::TagConfig;

/// The endpoints of an API, in the order in which they were registered, with what is configured of tags and with an
/// index of them.
///
/// `IsReady` says that each endpoint was accepted in its turn, that the lengths in its types have 32 bits, and that
/// the index is theirs. `new` gives it, `tag_config` and `register` keep it, and what asks the endpoints asks for it.
#[derive(Drop)]
pub struct ApiDescription {
    pub(crate) alloc: Global,
    pub(crate) tags: TagConfig,
    pub(crate) endpoints: Vec<ApiEndpoint>,
    pub(crate) index: EndpointIndex,
}

impl ApiDescription {
    /// An API without endpoints, whose endpoints may have any tags.
    pub fn new(alloc: Global) -> ApiDescription
        ensures endpoints { result.endpoints.items ≡ [] }
        ensures tags { result.tags ≡ record { allow_other_tags = true; policy = Any; tags = [] } }
        ensures ready { IsReady (boxed ⟦<dyn RouteHandler as RouteHandler>⟧) result }
    {
        ApiDescription {
            alloc,
            tags: TagConfig::default_config(alloc),
            endpoints: Vec::new(alloc),
            index: EndpointIndex::new(alloc),
        }
    }

    /// The same API with this configuration of tags, for the endpoints that are registered from now on, and for
    /// documents.
    pub fn tag_config(self, tag_config: TagConfig) -> ApiDescription
        ensures configured { result ≡ record self { tags = tag_config } }
        ensures ready { IsReady (boxed ⟦<dyn RouteHandler as RouteHandler>⟧) self
            → IsReady (boxed ⟦<dyn RouteHandler as RouteHandler>⟧) result }
    {
        let mut api = self;
        api.tags = tag_config;
        api
    }

    /// The configuration of tags.
    pub fn get_tag_config(&self) -> &TagConfig
        ensures { result.now ≡ self.now.tags }
    {
        &self.tags
    }

    /// The endpoints, in the order in which they were registered.
    pub fn endpoints(&self) -> &[ApiEndpoint]
        ensures { result.now ≡ self.now.endpoints.items }
    {
        &self.endpoints
    }
}
