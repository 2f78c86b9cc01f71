//! How the schema of a descriptor is written in a document.
ghost use Rattle.std.specs.Prelude.{◌≡◌, IfOk, None, option_map};
ghost use Rattle.std.specs.Str.{chars};
ghost use Rattle.openapi_values.specs.Refusal.{refusal_of};
ghost use Rattle.openapi_values.specs.SchemaJson.{schema_json};
ghost use Rattle.typed_values.specs.Checks.{TablePasses};
ghost use Rattle.typed_values.specs.SchemaTable.{schema_json_titled, schema_json_described};

use openapi_values::{J2oasError, j2oas_schema};
use schema_values::{Json, Schema, Text};
use std::alloc::{AllocError, Global};
use typed_values::{Definition, Desc, DescTable, SchemaPlace, schema_of, schema_of_definition};

/// The schema of a type, with its name as title, which a reference does not show.
pub fn titled_schema(
    alloc: Global,
    table: &DescTable,
    desc: &Desc,
    name: &Text,
) -> Result<Json, AllocError>
    requires { TablePasses table.now }
    ensures { IfOk result (λ json. json ≡ schema_json_titled table.now name.now desc.now) }
{
    let schema = schema_of(alloc, table, desc, SchemaPlace::Plain)?;
    written(alloc, Some(name.as_str()), &schema)
}

/// The schema of a definition of the table, with its description.
pub fn definition_schema(
    alloc: Global,
    table: &DescTable,
    definition: &Definition,
) -> Result<Json, AllocError>
    requires { TablePasses table.now }
    ensures { IfOk result (λ json. json ≡ schema_json_described table.now definition.now.description
        definition.now.desc) }
{
    let schema = schema_of_definition(alloc, table, definition)?;
    written(alloc, None, &schema)
}

// The JSON of a schema that is not refused.
fn written(alloc: Global, title: Option<&str>, schema: &Schema) -> Result<Json, AllocError>
    requires { refusal_of schema.now ≡ None }
    ensures { IfOk result (λ json. json ≡ schema_json
        (option_map (λ title. chars title.now) title.entry) schema.now) }
{
    match j2oas_schema(alloc, title, schema) {
        Ok(json) => Ok(json),
        Err(J2oasError::OutOfMemory) => Err(AllocError),
        Err(_) => unreachable!(),
    }
}
