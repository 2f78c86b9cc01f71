//! Definitions as schemas, by name.
ghost use Rattle.std.specs.Prelude.{◌≡◌, ◌≢◌, ◌++◌, ◌∷◌, [], IfOk, OnOk};
ghost use Rattle.std.specs.List.{AllByRecursion};
ghost use Rattle.typed_values.specs.Checks.{TablePasses};
ghost use Rattle.endpoint_metadata.specs.Parameters.{table_schemas};
ghost use Rattle.endpoint_metadata.specs.ByBytes.{entries_by_bytes, names_by_bytes};
ghost use Rattle.endpoint_metadata.specs.Values.{named_schemas};

use schema_values::{Definitions, Schema};
use std::alloc::{AllocError, Global};
use typed_values::{DescTable, schema_of_definition};

/// The definitions of a table as schemas, with their descriptions, in order.
pub(crate) fn definitions_of(alloc: Global, table: &DescTable) -> Result<Definitions, AllocError>
    requires { TablePasses table.now }
    ensures { IfOk result (λ definitions.
        named_schemas definitions.entries ≡ table_schemas table.now) }
{
    let mut definitions = Definitions::new(alloc);
    for definition in table.definitions() {
        let schema = schema_of_definition(alloc, table, definition)?;
        define(alloc, &mut definitions, definition.name.as_str(), schema)?;
    }
    Ok(definitions)
}

/// The same definitions in the same order.
pub(crate) fn copy_definitions(
    alloc: Global,
    definitions: &Definitions,
) -> Result<Definitions, AllocError>
    ensures { IfOk result (λ copies.
        named_schemas copies.entries ≡ named_schemas definitions.now.entries) }
{
    let mut copies = Definitions::new(alloc);
    for (name, schema) in definitions {
        define(alloc, &mut copies, name.as_str(), schema.copy(alloc)?)?;
    }
    Ok(copies)
}

// Puts a definition behind the others, none of which has its name.
fn define(
    alloc: Global,
    definitions: &mut Definitions,
    name: &str,
    schema: Schema,
) -> Result<(), AllocError>
    requires { AllByRecursion (λ other. name.now ≢ other) (names_by_bytes definitions.old.entries) }
    ensures { OnOk result (entries_by_bytes definitions.new.entries
        ≡ entries_by_bytes definitions.old.entries ++ (name.now, schema) ∷ []) }
{
    let name = String::from_str(alloc, name)?;
    definitions.insert(name, schema)?;
    Ok(())
}
