//! Whether an endpoint answers in pages.
ghost use Rattle.std.specs.Prelude.{◌≡◌, ◌≢◌, IfErr, IfOk};
ghost use Rattle.typed_values.specs.Checks.{TablePasses};
ghost use Rattle.written_texts.specs.PageParameters.{first_page_names};
ghost use Rattle.endpoint_metadata.specs.Modes.{AskAlike, AskDifferently, mode_of, first_asked};
ghost use Rattle.endpoint_metadata.specs.Modes.{PageNames, asked_names};
ghost use Rattle.endpoint_metadata.specs.declared.extension.ExtensionMode.TheVariants.{Paginated};
ghost use Rattle.endpoint_metadata.specs.declared.mode_error.ModeError.TheVariants.{IncompatibleModes};

use crate::extension::ExtensionMode;
use crate::fields::listed_fields;
use crate::mode_error::ModeError;
use crate::parameters::is_required;
use handler_shapes::Slot;
use schema_values::{List, Text, in_order};
use std::alloc::{AllocError, Global};
use typed_values::{DescTable, Field};

/// The mode that all slots of pages have, if there is one.
pub(crate) fn joint_mode(
    alloc: Global,
    table: &DescTable,
    slots: &[Slot],
) -> Result<ExtensionMode, ModeError>
    requires { TablePasses table.now }
    ensures mode { IfOk result (λ mode. mode ≡ mode_of (first_asked table.now slots.now)) }
    ensures alike { IfOk result (λ _. AskAlike table.now slots.now) }
    ensures incompatible { IfErr result (λ error.
        error ≡ IncompatibleModes → AskDifferently table.now slots.now) }
{
    let mut mode = ExtensionMode::None;
    for slot in slots {
        if let Some(names) = asked_names(alloc, table, slot)? {
            mode = joined(mode, names)?;
        }
    }
    Ok(mode)
}

// A mode and one more slot of pages, which asks for some names.
fn joined(mode: ExtensionMode, names: List<Text>) -> Result<ExtensionMode, ModeError>
    ensures joined { IfOk result (λ joined. joined ≡ Paginated names) }
    ensures same { (first : PageNames) → mode ≡ Paginated first → IfOk result (λ _. first ≡ names) }
    ensures differ { IfErr result (λ _.
        (first : PageNames) × (mode ≡ Paginated first) × (first ≢ names)) }
    ensures told { IfErr result (λ error. error ≡ IncompatibleModes) }
{
    match mode {
        ExtensionMode::None => Ok(ExtensionMode::Paginated(names)),
        ExtensionMode::Paginated(first) => {
            if first == names {
                Ok(ExtensionMode::Paginated(first))
            } else {
                Err(ModeError::IncompatibleModes)
            }
        }
    }
}

/// The names that a request for the first page must have, where a slot is that of pages. Fails only
/// for want of memory.
pub fn asked_names(
    alloc: Global,
    table: &DescTable,
    slot: &Slot,
) -> Result<Option<List<Text>>, AllocError>
    requires { TablePasses table.now }
    ensures { IfOk result (λ pages. pages ≡ asked_names table.now slot.now) }
{
    match slot {
        Slot::PagedQuery { scan, .. } => {
            Ok(Some(first_page_names(alloc, listed_fields(table, scan))?))
        }
        _ => Ok(None),
    }
}

fn first_page_names(alloc: Global, fields: &[Field]) -> Result<List<Text>, AllocError>
    ensures { IfOk result (λ names. names ≡ first_page_names fields.now) }
{
    let mut names = List::new(alloc);
    let ordered = in_order(alloc, fields)?;
    for field in ordered.iter() {
        if is_required(&field.presence) {
            names.push(field.name.copy(alloc)?)?;
        }
    }
    Ok(names)
}
