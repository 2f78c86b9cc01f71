//! Values as JSON.
ghost use Rattle.std.specs.Prelude.{◌≡◌, IfOk, IfErr};
ghost use Rattle.schema_values.specs.declared.json_value.Json.{Json as JsonValue};
ghost use Rattle.schema_values.specs.Sound.{IsSound};
ghost use Rattle.openapi_values.specs.JsonAdmits.{JsonAdmits};
ghost use Rattle.descriptors.specs.declared.tree.Tree.{Tree as Value};
ghost use Rattle.typed_values.specs.Answer.{IfFault, IsFaultOf};
ghost use Rattle.typed_values.specs.Denotes.{JsonDenotes, told};
ghost use Rattle.typed_values.specs.Encoding.{json_of_tree};
ghost use Rattle.typed_values.specs.Reached.{ReachesNoUntagged};
ghost use Rattle.typed_values.specs.SchemaTable.{schema_json, schema_json_titled};
ghost use Rattle.written_schemas.specs.Written.{IsWritten};
ghost use Rattle.api_types.specs.Types.{IsTableOf};

use api_types::ApiType;
use schema_values::Json;
use std::alloc::{AllocError, Global};
use typed_values::{DecodeError, DescTable, decode_json, encode_json};

/// The JSON of a value, which denotes the value's tree again where no untagged union is reached. Each
/// document that has the schemas of the definitions admits it under the type's schema, also under its title.
pub fn value_json<T: ApiType>(
    alloc: Global,
    table: &DescTable,
    value: &T,
) -> Result<Json, AllocError>
    requires { IsTableOf T.definitions_of T.desc_of table.now }
    ensures json { IfOk result (λ json. json ≡ json_of_tree table.now T.desc_of (T.tree_of value.now)) }
    ensures sound { IfOk result IsSound }
    ensures denotes { IfOk result (λ json. (read : Value) × JsonDenotes table.now T.desc_of json read) }
    ensures again { ReachesNoUntagged table.now T.desc_of
        → IfOk result (λ json. JsonDenotes table.now T.desc_of json (T.tree_of value.now)) }
    ensures plain { (doc : JsonValue) → IsWritten doc table.now T.desc_of
        → IfOk result (JsonAdmits doc (schema_json table.now T.desc_of)) }
    ensures titled { (doc : JsonValue) → IsWritten doc table.now T.desc_of
        → IfOk result (JsonAdmits doc (schema_json_titled table.now T.name_of T.desc_of)) }
{
    let desc = T::descriptor(alloc)?;
    value.fits();
    let tree = value.to_tree(alloc)?;
    encode_json(alloc, table, &desc, &tree)
}

/// The value whose tree sound JSON denotes, or the fault that is told first. Each document that has the
/// schemas of the definitions admits what is read under the type's schema, with its name as title or
/// without, and where it admits the JSON no fault is told.
pub fn json_value<T: ApiType>(
    alloc: Global,
    table: &DescTable,
    json: &Json,
) -> Result<T, DecodeError>
    requires table { IsTableOf T.definitions_of T.desc_of table.now }
    requires sound { IsSound json.now }
    ensures denotes { IfOk result (λ value. JsonDenotes table.now T.desc_of json.now (T.tree_of value)) }
    ensures fault { IfErr result (λ error. IfFault error
        (IsFaultOf (told table.now T.desc_of json.now T.desc_of))) }
    ensures refused { IfErr result (λ error. IfFault error
        (λ fault. (tree : Value) → JsonDenotes table.now T.desc_of json.now tree → ⊥)) }
    ensures plain { (doc : JsonValue) → IsWritten doc table.now T.desc_of
        → JsonAdmits doc (schema_json table.now T.desc_of) json.now
        → IfErr result (λ error. IfFault error (λ _. ⊥)) }
    ensures titled { (doc : JsonValue) → IsWritten doc table.now T.desc_of
        → JsonAdmits doc (schema_json_titled table.now T.name_of T.desc_of) json.now
        → IfErr result (λ error. IfFault error (λ _. ⊥)) }
    ensures plain_read { (doc : JsonValue) → IsWritten doc table.now T.desc_of
        → IfOk result (λ _. JsonAdmits doc (schema_json table.now T.desc_of) json.now) }
    ensures titled_read { (doc : JsonValue) → IsWritten doc table.now T.desc_of
        → IfOk result (λ _. JsonAdmits doc (schema_json_titled table.now T.name_of T.desc_of) json.now) }
{
    let desc = T::descriptor(alloc)?;
    let tree = decode_json(alloc, table, &desc, json)?;
    Ok(T::from_tree(alloc, &tree)?)
}
