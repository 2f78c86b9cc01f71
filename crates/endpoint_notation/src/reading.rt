//! What cases note of how slots are served: `"limit"` and `"budget"` of the body, 1,024 bytes and
//! 1,000 frames where they are left out, its kind as media.rt says, and how many `"calls"` are made
//! on a stream, none where it is left out.
ghost use Rattle.std.specs.Prelude.{◌<◌, ◌-◌, ◌^◌, IfOk, IsTrue};
ghost use Rattle.api_extract.specs.Extraction.{AreServed};
ghost use Rattle.handler_shapes.specs.ShapeChecks.{SlotsPass};
ghost use Rattle.typed_values.specs.Checks.{TablePasses};

use crate::media::kind_at;
use crate::members::number_or;
use case_notation::CaseError;
use handler_shapes::{Slot, body_comes_last, slot_passes};
use request_parts::ApiEndpointBodyContentType;
use schema_values::Json;
use std::alloc::Global;
use typed_values::{DescTable, check_table};

/// How a body is read.
#[derive(Clone, Copy)]
pub struct Reading {
    /// The kind of a typed body.
    pub kind: ApiEndpointBodyContentType,
    /// How many bytes it has at most.
    pub limit: u64,
    /// How many frames it has at most.
    pub budget: u64,
    /// How many calls are made on a stream.
    pub calls: u64,
}

/// How the body of a case is read.
pub fn reading_of(alloc: Global, case: &Json) -> Result<Reading, CaseError>
    ensures { IfOk result (λ reading. reading.budget < 2 ^ 64 - 1) }
{
    let budget = number_or(case, "budget", 1_000)?;
    if budget == u64::MAX {
        return Err(CaseError::Expected("a lesser budget"));
    }
    Ok(Reading {
        kind: kind_at(alloc, case)?,
        limit: number_or(case, "limit", 1_024)?,
        budget,
        calls: number_or(case, "calls", 0)?,
    })
}

/// Whether requests can be given to slots.
pub fn are_served(table: &DescTable, slots: &[Slot]) -> bool
    ensures { IsTrue result → AreServed table.now slots.now }
{
    check_table(table).is_ok() && all_pass(table, slots) && body_comes_last(slots)
}

fn all_pass(table: &DescTable, slots: &[Slot]) -> bool
    requires { TablePasses table.now }
    ensures { IsTrue result → SlotsPass table.now slots.now }
{
    for slot in slots {
        if !slot_passes(table, slot) {
            return false;
        }
    }
    true
}
