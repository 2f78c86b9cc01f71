//! Whether the types of some slots are such that their parameters can be told.
ghost use Rattle.std.specs.Prelude.{◌↔◌, All, IsTrue};
ghost use Rattle.typed_values.specs.Checks.{TablePasses};
ghost use Rattle.endpoint_metadata.specs.WellTyped.{AreWellTyped, IsWellTyped, TakesStruct};

use crate::fields::is_struct;
use handler_shapes::{Slot, slot_passes};
use typed_values::{DescTable, check_table};

/// Whether a table and the types of some slots pass their checks, and their parameters are of
/// structs.
pub(crate) fn are_well_typed(table: &DescTable, slots: &[Slot]) -> bool
    ensures { IsTrue result ↔ AreWellTyped table.now slots.now }
{
    check_table(table).is_ok() && each_is_well_typed(table, slots)
}

fn each_is_well_typed(table: &DescTable, slots: &[Slot]) -> bool
    requires { TablePasses table.now }
    ensures { IsTrue result ↔ All (IsWellTyped table.now) slots.now }
{
    for slot in slots {
        if !is_well_typed(table, slot) {
            return false;
        }
    }
    true
}

fn is_well_typed(table: &DescTable, slot: &Slot) -> bool
    requires { TablePasses table.now }
    ensures { IsTrue result ↔ IsWellTyped table.now slot.now }
{
    slot_passes(table, slot) && takes_struct(table, slot)
}

// Whether the type of a slot's parameters is a struct.
fn takes_struct(table: &DescTable, slot: &Slot) -> bool
    requires { TablePasses table.now }
    ensures { IsTrue result ↔ TakesStruct table.now slot.now }
{
    match slot {
        Slot::Path(desc) | Slot::Query(desc) | Slot::Header(desc) => is_struct(table, desc),
        Slot::PagedQuery { scan, .. } => is_struct(table, scan),
        Slot::TypedBody(..) | Slot::RawBody | Slot::StreamBody => true,
    }
}
