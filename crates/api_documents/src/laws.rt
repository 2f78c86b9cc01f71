//! What the document of endpoints lists, that it has the definitions and the responses of errors that
//! they refer to, under names that differ, and that it is sound.
ghost use Rattle.std.specs.Prelude.{◌≡◌, ◌↔◌, ℕ, ◌<◌, ◌^◌, true, false, ◌++◌, length};
ghost use Rattle.std.specs.Prelude.{All, Contains, IsSome, IsTrue, List as ListOf, Some};
ghost use Rattle.std.specs.Fmt.{decimal};
ghost use Rattle.semver.specs.Parse.{Parts};
ghost use Rattle.schema_values.specs.Sound.{AreDistinct, IsSound};
ghost use Rattle.openapi_values.specs.declared.info.Info.{Info as InfoValue};
ghost use Rattle.openapi_values.specs.Document.{open_api_json};
ghost use Rattle.openapi_values.specs.Find.{definition_in, response_in};
ghost use Rattle.descriptors.specs.declared.desc.Desc.{Desc as Descriptor};
ghost use Rattle.written_schemas.specs.Reached.{DefinesReached};
ghost use Rattle.handler_shapes.specs.declared.shape.ApiEndpointErrorResponse.{ApiEndpointErrorResponse as Error};
ghost use Rattle.handler_shapes.specs.ShapeChecks.{ShapePasses};
ghost use Rattle.api_declarations.specs.Values.{DeclarationValue};
ghost use Rattle.api_documents.specs.Accepted.{DefinitionsAgree, MayBeListed};
ghost use Rattle.api_documents.specs.Defines.{LeadsToDefinition, LeadsToError, RefersToError};
ghost use Rattle.api_documents.specs.Documents.{document_json_of, document_listing, document_of, errors_of};
ghost use Rattle.api_documents.specs.Drawn.{IsDrawn};
ghost use Rattle.api_documents.specs.ErrorNames.{IsLeastFree, TabledError, free_name, given_names};
ghost use Rattle.api_documents.specs.ErrorNames.{is_taken, listed_error, named_errors, same_error};
ghost use Rattle.api_documents.specs.Listed.{listed};
ghost use Rattle.api_documents.specs.Lists.{Lists, ListsWritten};
ghost use Rattle.api_documents.specs.Operations.{operation_of};
ghost use Rattle.api_documents.specs.Tags.{Configured};

/// The document of endpoints at a version lists those that are visible and whose ranges hold it, each
/// once. Its JSON has the operation of each at its path and method, and none at others.
pub fn documents_list()
    ensures lists { (version : Parts) (ds : ListOf DeclarationValue) (configured : Configured)
        (info : InfoValue) → MayBeListed (listed version ds)
        → Lists (errors_of (listed version ds)) (document_of ds configured info version) version ds }
    ensures written { (version : Parts) (ds : ListOf DeclarationValue) (configured : Configured)
        (info : InfoValue) → MayBeListed (listed version ds)
        → ListsWritten (errors_of (listed version ds)) (document_json_of ds configured info version) version ds }
{}

/// A document has the schema of each definition that the operation of an endpoint leads to, as it is
/// drawn under the endpoint's own table.
pub fn documents_define()
    ensures { (ds : ListOf DeclarationValue) (configured : Configured) (info : InfoValue)
        → All (λ (d : DeclarationValue). ShapePasses d.shape) ds → DefinitionsAgree ds
        → (d : DeclarationValue) → Contains ds d → (desc : Descriptor) → IsDrawn d.shape desc
        → DefinesReached (open_api_json (document_listing ds configured info)) d.shape.table desc }
{}

/// A document has no schema but those of definitions to which the operation of an endpoint leads, and no
/// response but those of errors to which one refers.
pub fn documents_define_no_more()
    ensures schemas { (ds : ListOf DeclarationValue) (configured : Configured) (info : InfoValue)
        → All (λ (d : DeclarationValue). ShapePasses d.shape) ds → (name : ListOf ℕ)
        → IsSome (definition_in (document_listing ds configured info) name)
        → (d : DeclarationValue) × Contains ds d × LeadsToDefinition d.shape name }
    ensures responses { (ds : ListOf DeclarationValue) (configured : Configured) (info : InfoValue)
        (name : ListOf ℕ) → IsSome (response_in (document_listing ds configured info) name)
        → (d : DeclarationValue) × Contains ds d × RefersToError (operation_of (errors_of ds) d) name }
{}

/// The references of an operation to the response of its error lead to it: the document has it under the
/// name by which the operation refers to it, as it is drawn under the endpoint's own table.
pub fn documents_define_errors()
    ensures { (ds : ListOf DeclarationValue) (configured : Configured) (info : InfoValue) → MayBeListed ds
        → length ds < 2 ^ 64 → (d : DeclarationValue) → Contains ds d → (error : Error)
        → listed_error d.shape ≡ Some error
        → LeadsToError (document_listing ds configured info) (operation_of (errors_of ds) d) d.shape.table error }
{}

/// The name that is given to an error is free: its own where that is free, else with the least number from
/// 2 on that makes it so. So no name is given twice.
pub fn error_names_differ()
    ensures free { (names : ListOf (ListOf ℕ)) (name : ListOf ℕ) → length names < 2 ^ 64
        → is_taken names (free_name names name) ≡ false }
    ensures own { (names : ListOf (ListOf ℕ)) (name : ListOf ℕ) → is_taken names name ≡ false
        → free_name names name ≡ name }
    ensures least { (names : ListOf (ListOf ℕ)) (name : ListOf ℕ) → length names < 2 ^ 64
        → is_taken names name ≡ true → (number : ℕ) × IsLeastFree names name number
        × (free_name names name ≡ name ++ decimal number) }
    ensures once { (es : ListOf TabledError) → length es < 2 ^ 64
        → AreDistinct (given_names (named_errors es)) }
{}

/// Two errors are the same to a document exactly where they are equal: in the name of their type and the
/// descriptor.
pub fn same_errors_are_equal()
    ensures { (a b : Error) → IsTrue (same_error a b) ↔ (a ≡ b) }
{}

/// A document is sound JSON: no object has a name twice, and each number has 64 bits.
pub fn documents_sound()
    ensures { (version : Parts) (ds : ListOf DeclarationValue) (configured : Configured)
        (info : InfoValue) → MayBeListed (listed version ds)
        → IsSound (document_json_of ds configured info version) }
{}
