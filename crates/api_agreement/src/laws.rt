//! Documents of accepted endpoints say of requests what these denote, and list the parameters that are
//! told of their slots.
ghost use Rattle.std.specs.Prelude.{◌≡◌, IsTrue, List as ListOf};
ghost use Rattle.semver.specs.Parse.{Parts};
ghost use Rattle.schema_values.specs.Sound.{IsSound};
ghost use Rattle.openapi_values.specs.declared.info.Info.{Info as InfoValue};
ghost use Rattle.descriptors.specs.declared.desc.Desc.{Desc as Descriptor};
ghost use Rattle.descriptors.specs.declared.table.Definition.{Definition as Entry};
ghost use Rattle.api_declarations.specs.Values.{DeclarationValue};
ghost use Rattle.endpoint_parameters.specs.Parameters.{fields_of_struct};
ghost use Rattle.api_registration.specs.Accepted.{AreRegistered, MayStandBehind};
ghost use Rattle.endpoint_metadata.specs.Modes.{AskAlike};
ghost use Rattle.endpoint_metadata.specs.Structs.{listed_fields};
ghost use Rattle.endpoint_metadata.specs.WellTyped.{AreWellTyped};
ghost use Rattle.api_documents.specs.Accepted.{MayBeListed};
ghost use Rattle.api_documents.specs.Documents.{document_json_of, document_of, errors_of};
ghost use Rattle.api_documents.specs.Listed.{listed};
ghost use Rattle.api_documents.specs.Lists.{IsListed, Lists};
ghost use Rattle.api_documents.specs.Tags.{Configured};
ghost use Rattle.api_agreement.specs.Agreement.{Agrees};
ghost use Rattle.api_agreement.specs.ShownSlots.{HasShownSlots};

use api_documents::{documents_define, documents_list, documents_sound};
use api_extract::requests_within_limits_are_read;
use openapi_values::operations_admitted;

/// The document of endpoints at a version says of the requests to each endpoint that it lists what
/// they denote.
pub fn requests_agree()
    ensures { (version : Parts) (ds : ListOf DeclarationValue) (configured : Configured)
        (info : InfoValue) → MayBeListed (listed version ds)
        → (d : DeclarationValue) → IsListed version ds d → HasShownSlots d
        → Agrees (document_json_of ds configured info version) d }
{
    documents_list();
    documents_define();
    operations_admitted();
    requests_within_limits_are_read();
}

/// An endpoint that may be registered, and that documents show, has slots of which they say what
/// requests denote.
pub fn accepted_are_shown()
    ensures { (before : ListOf DeclarationValue) (d : DeclarationValue)
        → MayStandBehind before d → IsTrue d.visible → HasShownSlots d }
{}

/// Accepted endpoints may be listed together at each version.
pub fn accepted_may_be_listed()
    ensures { (ds : ListOf DeclarationValue) (version : Parts)
        → AreRegistered ds → MayBeListed (listed version ds) }
{}

/// The document of accepted endpoints at a version lists exactly those that are visible and whose
/// ranges hold it, each once, and is sound JSON.
pub fn accepted_are_listed()
    ensures listed { (ds : ListOf DeclarationValue) (version : Parts) (configured : Configured)
        (info : InfoValue) → AreRegistered ds
        → Lists (errors_of (listed version ds)) (document_of ds configured info version) version ds }
    ensures sound { (ds : ListOf DeclarationValue) (version : Parts) (configured : Configured)
        (info : InfoValue) → AreRegistered ds
        → IsSound (document_json_of ds configured info version) }
{
    documents_list();
    documents_sound();
    accepted_may_be_listed();
}

/// The document of accepted endpoints at a version says of the requests to each endpoint that it lists
/// what they denote.
pub fn accepted_agree()
    ensures { (ds : ListOf DeclarationValue) (version : Parts) (configured : Configured)
        (info : InfoValue) → AreRegistered ds → (d : DeclarationValue) → IsListed version ds d
        → Agrees (document_json_of ds configured info version) d }
{
    requests_agree();
    accepted_are_shown();
    accepted_may_be_listed();
}

/// The fields that registration looks at, of a type in a path, a query or headers, are those that are
/// listed as parameters.
pub fn registered_fields_are_listed()
    ensures { (table : ListOf Entry) (desc : Descriptor) → fields_of_struct table desc ≡ listed_fields table desc }
{}

/// The slots of an endpoint that may be registered are such that `metadata` tells their parameters, those
/// of the endpoint's operation in a document, and no modes that differ.
pub fn accepted_are_told()
    ensures typed { (before : ListOf DeclarationValue) (d : DeclarationValue)
        → MayStandBehind before d → AreWellTyped d.shape.table d.shape.slots }
    ensures alike { (before : ListOf DeclarationValue) (d : DeclarationValue)
        → MayStandBehind before d → AskAlike d.shape.table d.shape.slots }
{}
