ghost use Rattle.std.specs.Prelude.{◌↔◌, ℕ, List, [], Ok, Option};
ghost use Rattle.schema_values.specs.declared.json_value.Json.{Json as JsonValue};
ghost use Rattle.schema_values.specs.declared.schema.Schema.{Schema as SchemaValue};
ghost use Rattle.openapi_values.specs.JsonAdmits.{JsonAdmits};
ghost use Rattle.openapi_values.specs.SchemaJson.{schema_json};
ghost use Rattle.schema_util.specs.References.{ComesTo, Names};
ghost use Rattle.schema_meaning.specs.Accepted.{IsAccepted};
ghost use Rattle.schema_meaning.specs.Definitions.{NamedSchemas};
ghost use Rattle.schema_meaning.specs.Meaning.{SchemaAdmits};
ghost use Rattle.schema_meaning.specs.Resolved.{HasTheSame};
ghost use Rattle.schema_meaning.specs.Steps.{WrittenStepsSuffice, MeaningStepsSuffice};
ghost use Rattle.schema_meaning.specs.Written.{DefinesReached};

/// An accepted schema means the same as what `j2oas_schema` writes for it, under any title: in a document
/// with the written definitions, each under any title, it admits the same JSON values. A schema whose
/// `all_of` is empty admits nothing, as one with an empty `allOf` does in a document; beside an empty list of
/// values `all_of` is not written, and does not count. Beyond a schema that is not refused this asks for an
/// `all_of` of at most one schema, since a document's `allOf` of several is not read, and that the document
/// has nothing under a name without a definition, since what stood there would be read as one.
pub fn schemas_agree()
    ensures { (doc : JsonValue) (definitions : NamedSchemas) (schema : SchemaValue) (title : Option (List ℕ))
        → IsAccepted definitions schema → DefinesReached doc definitions schema → (json : JsonValue)
        → JsonAdmits doc (schema_json title schema) json ↔ SchemaAdmits definitions schema json }
{}

/// Steps are never spent: more of them change neither what an accepted schema admits nor, in such a document,
/// what is written for it.
pub fn steps_suffice()
    ensures meant { (definitions : NamedSchemas) (schema : SchemaValue) → IsAccepted definitions schema
        → MeaningStepsSuffice definitions schema }
    ensures written { (doc : JsonValue) (definitions : NamedSchemas) (schema : SchemaValue)
        (title : Option (List ℕ)) → IsAccepted definitions schema → DefinesReached doc definitions schema
        → WrittenStepsSuffice doc (schema_json title schema) }
{}

/// What `resolve` comes to means the same as the schema: where a map of definitions, whose names stand in
/// UTF-8, has the same schemas as a list of them under names in characters, an accepted schema admits the
/// same JSON values as the schema that it comes to along references.
pub fn resolved_means_the_same()
    ensures { (names : Names) (definitions : NamedSchemas) (schema found : SchemaValue)
        → HasTheSame names definitions → IsAccepted definitions schema
        → ComesTo names [] schema (Ok found) → (json : JsonValue)
        → SchemaAdmits definitions schema json ↔ SchemaAdmits definitions found json }
{}
