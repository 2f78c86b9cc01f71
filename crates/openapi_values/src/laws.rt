ghost use Rattle.std.specs.Prelude.{◌≡◌, ◌↔◌, ℕ, suc, Bool, false, List, Option, Some, option_map};
ghost use Rattle.schema_values.specs.declared.json_value.Json.{Json as JsonValue, out-Json};
ghost use Rattle.schema_values.specs.declared.schema.Schema.{Schema as SchemaValue};
ghost use Rattle.schema_values.specs.Sound.{IsSound};
ghost use Rattle.openapi_values.specs.declared.document.OpenApi.{OpenApi as Document};
ghost use Rattle.openapi_values.specs.declared.operation.Operation.{Operation as Listed};
ghost use Rattle.request_words.specs.declared.request.WireRequest.{WireRequest as Request};
ghost use Rattle.openapi_values.specs.Admits.{operation_at, Admits};
ghost use Rattle.openapi_values.specs.Conforms.{SentResponse, Conforms};
ghost use Rattle.openapi_values.specs.Document.{open_api_json};
ghost use Rattle.openapi_values.specs.Find.{operation_in, definition_in};
ghost use Rattle.openapi_values.specs.JsonAdmits.{admits_within, schema_admits};
ghost use Rattle.openapi_values.specs.Listed.{ListedHolds};
ghost use Rattle.openapi_values.specs.ListedConforms.{ListedConforms};
ghost use Rattle.openapi_values.specs.Lookup.{definition};
ghost use Rattle.openapi_values.specs.Operation.{operation_json};
ghost use Rattle.openapi_values.specs.SchemaJson.{schema_json};
ghost use Rattle.openapi_values.specs.Smaller.{smaller_admits};
ghost use Rattle.openapi_values.specs.SoundContents.{HasSoundContents};
ghost use Rattle.openapi_values.specs.SoundParts.{HasSoundParts};

/// With no step left nothing is admitted. One step asks a schema of the value, and of smaller values with all
/// steps.
pub fn admits_by_steps()
    ensures none { (doc : JsonValue) (room : ℕ) (json schema : JsonValue)
        → admits_within doc room json 0 schema ≡ false }
    ensures step { (doc : JsonValue) (room : ℕ) (json : JsonValue) (steps : ℕ) (schema : JsonValue)
        → admits_within doc room json (suc steps) schema ≡ schema_admits doc (smaller_admits doc room)
        (admits_within doc room json steps) json (out-Json json) schema }
{}

/// A written document has the operations of its paths.
pub fn operations_stand()
    ensures { (document : Document) (path method : List ℕ)
        → operation_at (open_api_json document) path method ≡ option_map operation_json
        (operation_in document path method) }
{}

/// A written document has the schemas of its components.
pub fn definitions_stand()
    ensures { (document : Document) (name : List ℕ)
        → definition (open_api_json document) name ≡ definition_in document name }
{}

/// A written document admits a request to one of its operations exactly where the operation holds of it: each
/// of its parameters does, its query has what pages ask where it answers in pages, and its body does where it
/// has one.
pub fn operations_admitted()
    ensures { (document : Document) (path method : List ℕ) (listed : Listed) (request : Request)
        → operation_in document path method ≡ Some listed
        → Admits (open_api_json document) path method request
        ↔ ListedHolds (open_api_json document) request listed }
{}

/// A response conforms to a written document, under one of its operations, exactly where it conforms to what
/// the operation lists for its status: each required header stands, and the body is as listed.
pub fn responses_conform()
    ensures { (document : Document) (path method : List ℕ) (listed : Listed) (response : SentResponse)
        (set : Bool) → operation_in document path method ≡ Some listed
        → Conforms (open_api_json document) path method response set
        ↔ ListedConforms document listed response set }
{}

/// A document of sound parts is written as sound JSON.
pub fn documents_sound()
    ensures { (document : Document) → HasSoundParts document → IsSound (open_api_json document) }
{}

/// What is written for a schema of sound contents is sound, under any title.
pub fn contents_sound()
    ensures { (title : Option (List ℕ)) (schema : SchemaValue) → HasSoundContents schema
        → IsSound (schema_json title schema) }
{}
