//! What is said of an endpoint by its slots.
ghost use Rattle.std.specs.Prelude.{◌≡◌, IfOk};
ghost use Rattle.endpoint_metadata.specs.Values.{metadata_value, parameter_values};

use crate::parameter::{ApiEndpointParameter, copy_texts};
use schema_values::{List, Text};
use std::alloc::{AllocError, Global};

/// Whether an endpoint answers in pages.
#[derive(Drop)]
pub enum ExtensionMode {
    /// It does not.
    None,
    /// It does, and a request for the first page must have these names, in order.
    Paginated(List<Text>),
}

/// What is said of an endpoint by its slots.
#[derive(Drop)]
pub struct ExtractorMetadata {
    /// Whether it answers in pages.
    pub extension_mode: ExtensionMode,
    /// Its parameters, and its body where the slot of the body stands.
    pub parameters: List<ApiEndpointParameter>,
}

impl ExtensionMode {
    /// A mode equal to this one. Fails only for want of memory.
    pub fn copy(&self, alloc: Global) -> Result<ExtensionMode, AllocError>
        ensures { IfOk result (λ copy. copy ≡ self.now) }
    {
        match self {
            ExtensionMode::None => Ok(ExtensionMode::None),
            ExtensionMode::Paginated(names) => {
                Ok(ExtensionMode::Paginated(copy_texts(alloc, names.as_slice())?))
            }
        }
    }
}

impl ExtractorMetadata {
    /// Metadata equal to these. Fails only for want of memory.
    pub fn copy(&self, alloc: Global) -> Result<ExtractorMetadata, AllocError>
        ensures { IfOk result (λ copy. metadata_value copy ≡ metadata_value self.now) }
    {
        Ok(ExtractorMetadata {
            extension_mode: self.extension_mode.copy(alloc)?,
            parameters: copy_parameters(alloc, self.parameters.as_slice())?,
        })
    }
}

// Equal parameters in the same order.
fn copy_parameters(
    alloc: Global,
    parameters: &[ApiEndpointParameter],
) -> Result<List<ApiEndpointParameter>, AllocError>
    ensures { IfOk result (λ copies. parameter_values copies ≡ parameter_values parameters.now) }
{
    let mut copies = List::new(alloc);
    for parameter in parameters {
        copies.push(parameter.copy(alloc)?)?;
    }
    Ok(copies)
}
