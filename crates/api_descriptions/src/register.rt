//! Registering endpoints.
ghost use Rattle.std.specs.Prelude.{◌≡◌, ◌++◌, ◌∷◌, [], IfNone, IfOk, IsOkUnless, MatchOption, OnErr, OnOk};
ghost use Rattle.handler_shapes.specs.ShapeLengths.{ShapeHasShortLengths};
ghost use Rattle.endpoint_checks.specs.EndpointIndexes.{IsAsBefore, IsIndexed};
ghost use Rattle.api_registration.specs.Registering.{MayRegister, RefusedBy};
ghost use Rattle.api_registration.specs.declared.error.ApiDescriptionRegisterError.{
  ApiDescriptionRegisterError as ErrorValue,
};
ghost use Rattle.api_registration.specs.Accepted.{AreAccepted};
ghost use Rattle.api_descriptions.specs.Refusals.{IsFirstRefused};
ghost use Rattle.api_endpoints.specs.Endpoints.{boxed, declaration_of, declarations_of};
ghost use Rattle.api_descriptions.specs.Ready.{IsReady};

use crate::description::ApiDescription;
use crate::register_error::RegisterError;
use api_declarations::Declared;
use api_endpoints::ApiEndpoint;
use api_registration::{ApiDescriptionRegisterError, first_cause};
use api_respond::RouteHandler;
use std::alloc::{AllocError, Global};
use tag_config::TagConfig;

impl ApiDescription {
    /// Adds an endpoint, unless a cause stands against it; then it is dropped, and nothing changes. After want of
    /// memory endpoints and tags are as they were, and each key of the index has the places of before.
    pub fn register(&mut self, endpoint: ApiEndpoint) -> Result<(), RegisterError>
        requires indexed { IsIndexed (declarations_of (boxed ⟦<dyn RouteHandler as RouteHandler>⟧)
            self.old.endpoints.items) self.old.index }
        ensures ok { OnOk result (self.new.endpoints.items ≡ self.old.endpoints.items ++ endpoint ∷ []) }
        ensures may { OnOk result (MayRegister self.old.tags
            (declarations_of (boxed ⟦<dyn RouteHandler as RouteHandler>⟧) self.old.endpoints.items)
            (declaration_of (boxed ⟦<dyn RouteHandler as RouteHandler>⟧) endpoint)) }
        ensures refused { (error : ErrorValue) → result ≡ Err (RegisterError.Refused error)
            → RefusedBy self.old.tags
            (declarations_of (boxed ⟦<dyn RouteHandler as RouteHandler>⟧) self.old.endpoints.items)
            (declaration_of (boxed ⟦<dyn RouteHandler as RouteHandler>⟧) endpoint) error }
        ensures complete { MayRegister self.old.tags
            (declarations_of (boxed ⟦<dyn RouteHandler as RouteHandler>⟧) self.old.endpoints.items)
            (declaration_of (boxed ⟦<dyn RouteHandler as RouteHandler>⟧) endpoint)
            → IsOkUnless result RegisterError.OutOfMemory }
        ensures unchanged { (error : ErrorValue) → result ≡ Err (RegisterError.Refused error)
            → self.new ≡ self.old }
        ensures err { OnErr result (self.new.endpoints.items ≡ self.old.endpoints.items) }
        ensures index { OnErr result (IsAsBefore self.old.index self.new.index) }
        ensures tags { self.new.tags ≡ self.old.tags }
        ensures indexed { IsIndexed (declarations_of (boxed ⟦<dyn RouteHandler as RouteHandler>⟧)
            self.new.endpoints.items) self.new.index }
        ensures ready { IsReady (boxed ⟦<dyn RouteHandler as RouteHandler>⟧) self.old
            → IsReady (boxed ⟦<dyn RouteHandler as RouteHandler>⟧) self.new }
    {
        match self.cause_against(&endpoint)? {
            Some(error) => Err(RegisterError::Refused(error)),
            None => Ok(self.push(endpoint)?),
        }
    }

    // The error that tells the first cause against an endpoint, if any stands.
    fn cause_against(
        &self,
        endpoint: &ApiEndpoint,
    ) -> Result<Option<ApiDescriptionRegisterError>, AllocError>
        requires { IsIndexed (declarations_of (boxed ⟦<dyn RouteHandler as RouteHandler>⟧)
            self.now.endpoints.items) self.now.index }
        ensures first { IfOk result (λ refusal. MatchOption refusal
            (MayRegister self.now.tags
            (declarations_of (boxed ⟦<dyn RouteHandler as RouteHandler>⟧) self.now.endpoints.items)
            (declaration_of (boxed ⟦<dyn RouteHandler as RouteHandler>⟧) endpoint.now))
            (RefusedBy self.now.tags
            (declarations_of (boxed ⟦<dyn RouteHandler as RouteHandler>⟧) self.now.endpoints.items)
            (declaration_of (boxed ⟦<dyn RouteHandler as RouteHandler>⟧) endpoint.now))) }
        ensures lengths { IfOk result (λ refusal. IfNone refusal (ShapeHasShortLengths
            (declaration_of (boxed ⟦<dyn RouteHandler as RouteHandler>⟧) endpoint.now).shape)) }
    {
        let declaration = endpoint.declaration();
        first_cause(
            self.alloc,
            &self.tags,
            &self.endpoints,
            &self.index,
            &declaration,
        )
    }

    // Adds an endpoint and its places. After want of memory the endpoints are as they were, and at each key of the
    // index the places of before.
    fn push(&mut self, endpoint: ApiEndpoint) -> Result<(), AllocError>
        requires { IsIndexed (declarations_of (boxed ⟦<dyn RouteHandler as RouteHandler>⟧)
            self.old.endpoints.items) self.old.index }
        ensures ok { OnOk result (self.new.endpoints.items ≡ self.old.endpoints.items ++ endpoint ∷ []) }
        ensures err { OnErr result (self.new.endpoints.items ≡ self.old.endpoints.items) }
        ensures index { OnErr result (IsAsBefore self.old.index self.new.index) }
        ensures tags { self.new.tags ≡ self.old.tags }
        ensures indexed { IsIndexed (declarations_of (boxed ⟦<dyn RouteHandler as RouteHandler>⟧)
            self.new.endpoints.items) self.new.index }
    {
        self.endpoints.reserve(1)?;
        self.index.add(self.alloc, &self.endpoints, &endpoint)?;
        self.endpoints.push_reserved(endpoint);
        Ok(())
    }

    /// An API of these endpoints, registered in order under a configuration of tags. The first that may not be
    /// registered is told.
    pub fn of_endpoints(
        alloc: Global,
        tags: TagConfig,
        endpoints: Vec<ApiEndpoint>,
    ) -> Result<ApiDescription, RegisterError>
        ensures endpoints { IfOk result (λ api. api.endpoints.items ≡ endpoints.items) }
        ensures tags { IfOk result (λ api. api.tags ≡ tags) }
        ensures ready { IfOk result (IsReady (boxed ⟦<dyn RouteHandler as RouteHandler>⟧)) }
        ensures accepted { OnOk result (AreAccepted tags []
            (declarations_of (boxed ⟦<dyn RouteHandler as RouteHandler>⟧) endpoints.items)) }
        ensures refused { (error : ErrorValue) → result ≡ Err (RegisterError.Refused error)
            → IsFirstRefused tags
            (declarations_of (boxed ⟦<dyn RouteHandler as RouteHandler>⟧) endpoints.items) error }
        ensures complete { AreAccepted tags []
            (declarations_of (boxed ⟦<dyn RouteHandler as RouteHandler>⟧) endpoints.items)
            → IsOkUnless result RegisterError.OutOfMemory }
    {
        let mut api = ApiDescription::new(alloc).tag_config(tags);
        for endpoint in endpoints {
            api.register(endpoint)?;
        }
        Ok(api)
    }
}
