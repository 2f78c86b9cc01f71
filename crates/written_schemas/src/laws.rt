ghost use Rattle.std.specs.Prelude.{◌≡◌, ◌↔◌, ℕ, ◌≤◌, List, Option, Some, None};
ghost use Rattle.schema_values.specs.declared.json_value.Json.{Json as JsonValue};
ghost use Rattle.schema_values.specs.Reading.{Reads};
ghost use Rattle.schema_values.specs.Sound.{IsSound};
ghost use Rattle.openapi_values.specs.declared.document.OpenApi.{OpenApi as Document};
ghost use Rattle.request_words.specs.declared.request.WireRequest.{WireRequest as Request};
ghost use Rattle.openapi_values.specs.Admits.{Admits};
ghost use Rattle.openapi_values.specs.Document.{open_api_json};
ghost use Rattle.openapi_values.specs.JsonAdmits.{JsonAdmits};
ghost use Rattle.request_words.specs.MediaTypes.{HasJsonType};
ghost use Rattle.openapi_values.specs.Refusal.{refusal_of};
ghost use Rattle.openapi_values.specs.SchemaJson.{schema_json as json_written};
ghost use Rattle.descriptors.specs.declared.desc.Desc.{Desc as Descriptor};
ghost use Rattle.descriptors.specs.declared.table.Definition.{Definition as Entry};
ghost use Rattle.descriptors.specs.declared.tree.Tree.{Tree as Value};
ghost use Rattle.typed_values.specs.Checks.{TablePasses, DescPasses};
ghost use Rattle.typed_values.specs.Denotes.{room as steps_of_table, told, told_within, JsonDenotes};
ghost use Rattle.typed_values.specs.Encoding.{json_of_tree};
ghost use Rattle.typed_values.specs.Fits.{Fits};
ghost use Rattle.typed_values.specs.Lengths.{HasShortLengths};
ghost use Rattle.typed_values.specs.SchemaTable.{schema_json, schema_json_titled, schema_json_described};
ghost use Rattle.typed_values.specs.Schemas.{schema_value, in_header, in_query};
ghost use Rattle.written_schemas.specs.Bodies.{TakesJson};
ghost use Rattle.written_schemas.specs.Written.{IsWritten, AdmitsDenoted, StepsSuffice};

/// The schema of a descriptor admits exactly the JSON values that denote a tree; so it does under a title or
/// a description.
pub fn schemas_agree()
    ensures plain { (doc : JsonValue) (table : List Entry) (desc : Descriptor) → IsWritten doc table desc
        → AdmitsDenoted doc (schema_json table desc) table desc }
    ensures titled { (doc : JsonValue) (table : List Entry) (desc : Descriptor) (name : List ℕ)
        → IsWritten doc table desc
        → AdmitsDenoted doc (schema_json_titled table name desc) table desc }
    ensures described { (doc : JsonValue) (table : List Entry) (desc : Descriptor) (text : Option (List ℕ))
        → IsWritten doc table desc
        → AdmitsDenoted doc (schema_json_described table text desc) table desc }
{}

/// Where an operation of a written document takes JSON under a descriptor's titled schema, a request with the
/// media type of JSON, whose body reads as JSON, is admitted exactly where that JSON denotes a tree.
pub fn bodies_agree()
    ensures { (document : Document) (path method name : List ℕ) (table : List Entry) (desc : Descriptor)
        → TakesJson document path method name table desc → IsWritten (open_api_json document) table desc
        → (request : Request) (json : JsonValue) → HasJsonType request.headers → Reads request.body json
        → Admits (open_api_json document) path method request
        ↔ ((tree : Value) × JsonDenotes table desc json tree) }
{}

/// Steps are never spent: more of them tell the same of a table that passes its checks, and admit the same in
/// a document.
pub fn steps_suffice()
    ensures told { (table : List Entry) (desc : Descriptor) → TablePasses table → DescPasses table desc
        → (json : JsonValue) (steps : ℕ) → steps_of_table table desc ≤ steps
        → told_within table steps json steps desc ≡ told table desc json desc }
    ensures plain { (doc : JsonValue) (table : List Entry) (desc : Descriptor) → IsWritten doc table desc
        → StepsSuffice doc (schema_json table desc) }
    ensures titled { (doc : JsonValue) (table : List Entry) (desc : Descriptor) (name : List ℕ)
        → IsWritten doc table desc → StepsSuffice doc (schema_json_titled table name desc) }
    ensures described { (doc : JsonValue) (table : List Entry) (desc : Descriptor) (text : Option (List ℕ))
        → IsWritten doc table desc → StepsSuffice doc (schema_json_described table text desc) }
{}

/// What is written for a value of a descriptor is admitted by the descriptor's schema; so it is under a title
/// or a description.
pub fn encodings_agree()
    ensures plain { (doc : JsonValue) (table : List Entry) (desc : Descriptor) (tree : Value)
        → IsWritten doc table desc → Fits table desc tree
        → JsonAdmits doc (schema_json table desc) (json_of_tree table desc tree) }
    ensures titled { (doc : JsonValue) (table : List Entry) (desc : Descriptor) (name : List ℕ) (tree : Value)
        → IsWritten doc table desc → Fits table desc tree
        → JsonAdmits doc (schema_json_titled table name desc) (json_of_tree table desc tree) }
    ensures described { (doc : JsonValue) (table : List Entry) (desc : Descriptor) (text : Option (List ℕ))
        (tree : Value) → IsWritten doc table desc → Fits table desc tree
        → JsonAdmits doc (schema_json_described table text desc) (json_of_tree table desc tree) }
{}

/// The schema of a descriptor is never refused. It is written as the table of schemas has it, also under a
/// title, which a reference does not show; so is the schema that stands in a header or in a query.
pub fn schemas_written()
    ensures accepted { (table : List Entry) (desc : Descriptor)
        → refusal_of (schema_value table desc) ≡ None }
    ensures plain { (table : List Entry) (desc : Descriptor)
        → json_written None (schema_value table desc) ≡ schema_json table desc }
    ensures titled { (table : List Entry) (desc : Descriptor) (name : List ℕ)
        → json_written (Some name) (schema_value table desc) ≡ schema_json_titled table name desc }
    ensures header_accepted { (table : List Entry) (desc : Descriptor)
        → refusal_of (schema_value table (in_header desc)) ≡ None }
    ensures header_plain { (table : List Entry) (desc : Descriptor)
        → json_written None (schema_value table (in_header desc)) ≡ schema_json table (in_header desc) }
    ensures header_titled { (table : List Entry) (desc : Descriptor) (name : List ℕ)
        → json_written (Some name) (schema_value table (in_header desc))
        ≡ schema_json_titled table name (in_header desc) }
    ensures query_accepted { (table : List Entry) (desc : Descriptor)
        → refusal_of (schema_value table (in_query desc)) ≡ None }
    ensures query_plain { (table : List Entry) (desc : Descriptor)
        → json_written None (schema_value table (in_query desc)) ≡ schema_json table (in_query desc) }
    ensures query_titled { (table : List Entry) (desc : Descriptor) (name : List ℕ)
        → json_written (Some name) (schema_value table (in_query desc))
        ≡ schema_json_titled table name (in_query desc) }
{}

/// In a table that passes its checks the schema of a descriptor that passes them, and whose lengths have 32
/// bits, is sound JSON; so it is under a title or a description, and so is the schema that stands in a
/// header or in a query.
pub fn schemas_sound()
    ensures plain { (table : List Entry) (desc : Descriptor) → TablePasses table
        → DescPasses table desc → HasShortLengths desc → IsSound (schema_json table desc) }
    ensures titled { (table : List Entry) (desc : Descriptor) (name : List ℕ) → TablePasses table
        → DescPasses table desc → HasShortLengths desc → IsSound (schema_json_titled table name desc) }
    ensures described { (table : List Entry) (desc : Descriptor) (text : Option (List ℕ)) → TablePasses table
        → DescPasses table desc → HasShortLengths desc → IsSound (schema_json_described table text desc) }
    ensures header_plain { (table : List Entry) (desc : Descriptor) → TablePasses table
        → DescPasses table desc → HasShortLengths desc → IsSound (schema_json table (in_header desc)) }
    ensures header_titled { (table : List Entry) (desc : Descriptor) (name : List ℕ) → TablePasses table
        → DescPasses table desc → HasShortLengths desc
        → IsSound (schema_json_titled table name (in_header desc)) }
    ensures query_plain { (table : List Entry) (desc : Descriptor) → TablePasses table
        → DescPasses table desc → HasShortLengths desc → IsSound (schema_json table (in_query desc)) }
    ensures query_titled { (table : List Entry) (desc : Descriptor) (name : List ℕ) → TablePasses table
        → DescPasses table desc → HasShortLengths desc
        → IsSound (schema_json_titled table name (in_query desc)) }
{}
