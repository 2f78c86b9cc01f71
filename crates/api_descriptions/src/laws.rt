//! What the document of an API says of the requests that it answers.
ghost use Rattle.std.specs.Prelude.{Result};
ghost use Rattle.schema_values.specs.Sound.{IsSound};
ghost use Rattle.openapi_values.specs.declared.info.Info.{Info as InfoValue};
ghost use Rattle.semver.specs.Parse.{Parts};
ghost use Rattle.tree_store.specs.Tables.{Tables};
ghost use Rattle.api_declarations.specs.Values.{DeclarationValue};
ghost use Rattle.api_agreement.specs.Agreement.{Agrees};
ghost use Rattle.api_documents.specs.Documents.{document_of, errors_of};
ghost use Rattle.api_documents.specs.Listed.{listed};
ghost use Rattle.api_documents.specs.Lists.{IsListed, Lists, ListsWritten};
ghost use Rattle.api_descriptions.specs.Agreement.{FollowsDocument};
ghost use Rattle.api_endpoints.specs.Endpoints.{boxed, declarations_of};
ghost use Rattle.endpoint_answers.specs.Denoting.{IsHandledAsDenoted, IsHandledOrRefused};
ghost use Rattle.endpoint_answers.specs.Exchanges.{Answers, Asked};
ghost use Rattle.api_descriptions.specs.Ready.{IsReady};
ghost use Rattle.api_descriptions.specs.Written.{document_at};
ghost use Rattle.endpoint_answers.specs.declared.outcome.Exchange.{Exchange as ExchangeValue};
ghost use Rattle.endpoint_answers.specs.declared.outcome.ExchangeError.{ExchangeError as ErrorValue};

use crate::description::ApiDescription;
use api_agreement::{accepted_agree, accepted_are_listed, accepted_may_be_listed};
use api_documents::documents_list;
use api_extract::answers_have_causes;
use api_registration::one_serves;
use api_respond::RouteHandler;

impl ApiDescription {
    /// The document of an API at a version is sound JSON. It lists exactly the endpoints that are visible and whose
    /// ranges hold the version, each once, and what is written has the operation of each at its path and method, and
    /// none at others. Of requests to these without a page token it admits exactly those that denote arguments, and
    /// what the endpoints answer at that version follows it: a valid one is handled exactly where the document admits
    /// it, unless memory ran out or a call on the body failed. It does nothing: its clauses are for proofs.
    pub fn agrees(&self)
        requires ready { IsReady (boxed ⟦<dyn RouteHandler as RouteHandler>⟧) self.now }
        ensures sound { (info : InfoValue) (version : Parts) → IsSound (document_at
            (boxed ⟦<dyn RouteHandler as RouteHandler>⟧) self.now.tags self.now.endpoints.items info version) }
        ensures lists { (info : InfoValue) (version : Parts) → Lists
            (errors_of (listed version
            (declarations_of (boxed ⟦<dyn RouteHandler as RouteHandler>⟧) self.now.endpoints.items)))
            (document_of
            (declarations_of (boxed ⟦<dyn RouteHandler as RouteHandler>⟧) self.now.endpoints.items)
            self.now.tags.tags info version) version
            (declarations_of (boxed ⟦<dyn RouteHandler as RouteHandler>⟧) self.now.endpoints.items) }
        ensures written { (info : InfoValue) (version : Parts) → ListsWritten
            (errors_of (listed version
            (declarations_of (boxed ⟦<dyn RouteHandler as RouteHandler>⟧) self.now.endpoints.items)))
            (document_at
            (boxed ⟦<dyn RouteHandler as RouteHandler>⟧) self.now.tags self.now.endpoints.items info version) version
            (declarations_of (boxed ⟦<dyn RouteHandler as RouteHandler>⟧) self.now.endpoints.items) }
        ensures agreed { (info : InfoValue) (version : Parts) (d : DeclarationValue) → IsListed version
            (declarations_of (boxed ⟦<dyn RouteHandler as RouteHandler>⟧) self.now.endpoints.items) d
            → Agrees (document_at (boxed ⟦<dyn RouteHandler as RouteHandler>⟧)
            self.now.tags self.now.endpoints.items info version) d }
        ensures followed { (info : InfoValue) (version : Parts) (asked : Asked)
            (outcome : Result ExchangeValue ErrorValue) (after : Tables)
            → Answers (boxed ⟦<dyn RouteHandler as RouteHandler>⟧)
            self.now.endpoints.items asked outcome after
            → FollowsDocument (boxed ⟦<dyn RouteHandler as RouteHandler>⟧) self.now.endpoints.items
            (document_at (boxed ⟦<dyn RouteHandler as RouteHandler>⟧)
            self.now.tags self.now.endpoints.items info version) version asked outcome after }
        // And of whatever endpoint a valid request names, a hidden one or with a page token too.
        ensures denoted { (asked : Asked) (outcome : Result ExchangeValue ErrorValue) (after : Tables)
            → Answers (boxed ⟦<dyn RouteHandler as RouteHandler>⟧)
            self.now.endpoints.items asked outcome after
            → IsHandledAsDenoted (boxed ⟦<dyn RouteHandler as RouteHandler>⟧)
            self.now.endpoints.items asked outcome }
        ensures told { (asked : Asked) (outcome : Result ExchangeValue ErrorValue) (after : Tables)
            → Answers (boxed ⟦<dyn RouteHandler as RouteHandler>⟧)
            self.now.endpoints.items asked outcome after
            → IsHandledOrRefused (boxed ⟦<dyn RouteHandler as RouteHandler>⟧)
            self.now.endpoints.items asked outcome }
    {
        accepted_are_listed();
        accepted_may_be_listed();
        documents_list();
        accepted_agree();
        one_serves();
        answers_have_causes();
    }
}
