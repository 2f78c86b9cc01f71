//! What is said of an endpoint by the slots of its handler.
ghost use Rattle.std.specs.Prelude.{◌≡◌, Ok, IfErr, IfOk};
ghost use Rattle.endpoint_metadata.specs.Modes.{AskAlike, AskDifferently, mode_of, first_asked};
ghost use Rattle.endpoint_metadata.specs.Parameters.{listed_parameters};
ghost use Rattle.endpoint_metadata.specs.Shown.{documented_bodies, documented_parameters};
ghost use Rattle.endpoint_metadata.specs.Shown.{shown_bodies, shown_parameters};
ghost use Rattle.endpoint_metadata.specs.Values.{parameter_values};
ghost use Rattle.endpoint_metadata.specs.WellTyped.{AreWellTyped, nothing_told};
ghost use Rattle.endpoint_metadata.specs.declared.mode_error.ModeError.TheVariants.{IncompatibleModes};

use crate::extension::{ExtensionMode, ExtractorMetadata};
use crate::laws::parameters_are_shown;
use crate::mode_error::ModeError;
use crate::modes::joint_mode;
use crate::parameters::listed_parameters;
use crate::well_typed::are_well_typed;
use handler_shapes::Slot;
use request_parts::ApiEndpointBodyContentType;
use schema_values::List;
use std::alloc::Global;
use typed_values::DescTable;

/// What is said of an endpoint by the slots of its handler: the fields of its path, its query and
/// its headers as parameters, its body, and whether it answers in pages. What a document shows of
/// structs that take unknown names is the same.
///
/// Where a table or a type does not pass its check, or the type of parameters is no struct, nothing
/// is told. `IncompatibleModes` exactly where otherwise two slots of pages ask for different names.
pub fn metadata(
    alloc: Global,
    slots: &List<Slot>,
    table: &DescTable,
    content_type: ApiEndpointBodyContentType,
) -> Result<ExtractorMetadata, ModeError>
    ensures nothing { ¬ AreWellTyped table.now slots.now → result ≡ Ok nothing_told }
    ensures parameters { AreWellTyped table.now slots.now → IfOk result (λ metadata.
        parameter_values metadata.parameters ≡ listed_parameters content_type table.now slots.now) }
    ensures shown { AreWellTyped table.now slots.now → IfOk result (λ metadata.
        shown_parameters metadata.parameters ≡ documented_parameters table.now slots.now) }
    ensures bodies { AreWellTyped table.now slots.now → IfOk result (λ metadata.
        shown_bodies metadata.parameters ≡ documented_bodies content_type table.now slots.now) }
    ensures mode { AreWellTyped table.now slots.now → IfOk result (λ metadata.
        metadata.extension_mode ≡ mode_of (first_asked table.now slots.now)) }
    ensures alike { AreWellTyped table.now slots.now → IfOk result (λ _.
        AskAlike table.now slots.now) }
    ensures incompatible { IfErr result (λ error. error ≡ IncompatibleModes
        → AreWellTyped table.now slots.now × AskDifferently table.now slots.now) }
{
    parameters_are_shown();
    let slots = slots.as_slice();
    if !are_well_typed(table, slots) {
        return Ok(ExtractorMetadata {
            extension_mode: ExtensionMode::None,
            parameters: List::new(alloc),
        });
    }
    let extension_mode = joint_mode(alloc, table, slots)?;
    let parameters = listed_parameters(alloc, table, slots, content_type)?;
    Ok(ExtractorMetadata {
        extension_mode,
        parameters,
    })
}
