// The schemas of parameters, by their places.
ghost use Rattle.std.specs.Prelude.{◌≡◌, IfOk, None};
ghost use Rattle.openapi_values.specs.Refusal.{refusal_of};
ghost use Rattle.openapi_values.specs.SchemaJson.{schema_json as json_written};
ghost use Rattle.typed_values.specs.Checks.{TablePasses};
ghost use Rattle.typed_values.specs.SchemaTable.{schema_json};
ghost use Rattle.endpoint_metadata.specs.Parameters.{written_in};

use endpoint_metadata::{ApiEndpointParameterLocation, schema_in};
use openapi_values::{J2oasError, j2oas_schema};
use schema_values::{Json, Schema};
use std::alloc::{AllocError, Global};
use typed_values::{Desc, DescTable};
use written_schemas::schemas_written;

/// The schema of a type as it stands in a place.
pub(crate) fn placed_schema(
    alloc: Global,
    table: &DescTable,
    desc: &Desc,
    place: ApiEndpointParameterLocation,
) -> Result<Json, AllocError>
    requires { TablePasses table.now }
    ensures { IfOk result (λ json. json ≡ schema_json table.now (written_in place desc.now)) }
{
    schemas_written();
    let schema = schema_in(alloc, table, place, desc)?;
    written(alloc, &schema)
}

// The JSON of a schema that is not refused.
fn written(alloc: Global, schema: &Schema) -> Result<Json, AllocError>
    requires { refusal_of schema.now ≡ None }
    ensures { IfOk result (λ json. json ≡ json_written None schema.now) }
{
    match j2oas_schema(alloc, None, schema) {
        Ok(json) => Ok(json),
        Err(J2oasError::OutOfMemory) => Err(AllocError),
        Err(_) => unreachable!(),
    }
}
