//! The bodies of slots.
ghost use Rattle.std.specs.Prelude.{◌≡◌, IfOk};
ghost use Rattle.typed_values.specs.Checks.{TablePasses};
ghost use Rattle.typed_values.specs.Schemas.{schema_value};
ghost use Rattle.endpoint_metadata.specs.Parameters.{binary_type, body_parameter, bytes_parameter};
ghost use Rattle.endpoint_metadata.specs.Values.{of_type, parameter_value};

use crate::generator::ApiSchemaGenerator;
use crate::parameter::ApiEndpointParameter;
use request_parts::ApiEndpointBodyContentType;
use schema_values::{Boxed, Definitions, List, Text};
use std::alloc::{AllocError, Global};
use typed_values::{Desc, DescTable, SchemaPlace, schema_of};

/// A typed body, of the endpoint's kind.
pub(crate) fn typed_body(
    alloc: Global,
    content_type: ApiEndpointBodyContentType,
    table: &DescTable,
    desc: &Desc,
    name: &Text,
) -> Result<ApiEndpointParameter, AllocError>
    requires { TablePasses table.now }
    ensures { IfOk result (λ told. parameter_value told ≡ body_parameter content_type
        (of_type name.now (schema_value table.now desc.now))) }
{
    let name = name.copy(alloc)?;
    let schema = schema_of(alloc, table, desc, SchemaPlace::Plain)?;
    let schema = ApiSchemaGenerator::Gen { name, schema };
    let examples = List::new(alloc);
    Ok(ApiEndpointParameter::new_body(content_type, true, schema, examples))
}

/// A body of any bytes.
pub(crate) fn bytes_body(
    alloc: Global,
    table: &DescTable,
) -> Result<ApiEndpointParameter, AllocError>
    requires { TablePasses table.now }
    ensures { IfOk result (λ told. parameter_value told ≡ bytes_parameter table.now) }
{
    let binary = binary_type(alloc)?;
    let schema = schema_of(alloc, table, binary.get(), SchemaPlace::Plain)?;
    let schema = ApiSchemaGenerator::Static {
        schema,
        dependencies: Definitions::new(alloc),
    };
    let examples = List::new(alloc);
    Ok(ApiEndpointParameter::new_body(ApiEndpointBodyContentType::Bytes, true, schema, examples))
}

fn binary_type(alloc: Global) -> Result<Boxed<Desc>, AllocError>
    ensures { IfOk result (λ binary. binary ≡ binary_type) }
{
    let binary = Desc::Text {
        min: None,
        max: None,
        format: Some(Text::from_ascii(alloc, "binary")?),
    };
    Boxed::new(alloc, binary)
}
