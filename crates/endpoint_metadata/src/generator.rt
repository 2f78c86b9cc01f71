//! The schemas of parameters.
ghost use Rattle.std.specs.Prelude.{◌≡◌, IfOk};
ghost use Rattle.endpoint_metadata.specs.Values.{generator_value};

use crate::definitions::copy_definitions;
use schema_values::{Definitions, Schema, Text};
use std::alloc::{AllocError, Global};

/// The schema of a parameter.
#[derive(Drop)]
pub enum ApiSchemaGenerator {
    /// The schema of a type. References in it mean definitions of the handler's table.
    Gen {
        /// The name of the type, which a document shows as the title.
        name: Text,
        /// The schema.
        schema: Schema,
    },
    /// A schema, and the definitions that references in it may mean.
    Static {
        /// The schema.
        schema: Schema,
        /// The definitions, by name.
        dependencies: Definitions,
    },
}

impl ApiSchemaGenerator {
    /// A schema equal to this one, beside the same definitions in the same order. Fails only for
    /// want of memory.
    pub fn copy(&self, alloc: Global) -> Result<ApiSchemaGenerator, AllocError>
        ensures { IfOk result (λ copy. generator_value copy ≡ generator_value self.now) }
    {
        match self {
            ApiSchemaGenerator::Gen { name, schema } => {
                let name = name.copy(alloc)?;
                let schema = schema.copy(alloc)?;
                Ok(ApiSchemaGenerator::Gen { name, schema })
            }
            ApiSchemaGenerator::Static {
                schema,
                dependencies,
            } => {
                let schema = schema.copy(alloc)?;
                let dependencies = copy_definitions(alloc, dependencies)?;
                Ok(ApiSchemaGenerator::Static {
                    schema,
                    dependencies,
                })
            }
        }
    }
}
