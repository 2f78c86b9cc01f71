// Whether the bounds of a descriptor are in order, and within its kind.
ghost use Rattle.std.specs.Prelude.{◌≡◌, IsTrue};
ghost use Rattle.descriptors.specs.declared.desc.Desc.{out-Desc};
ghost use Rattle.typed_values.specs.Checks as checks;
ghost use Rattle.typed_values.specs.Lengths.{is_short, IsShort};

use crate::bounds::{greatest_of, least_of};
use descriptors::{Desc, IntKind};

pub(crate) fn are_bounds_right(desc: &Desc) -> bool
    ensures bounds { result ≡ checks.are_bounds_right (out-Desc desc.now) }
    ensures lengths { IsShort desc.now }
{
    match desc {
        Desc::Int { kind, min, max } => {
            is_number_order(min, max) && is_bound_of(*kind, min) && is_bound_of(*kind, max)
        }
        Desc::Text { min, max, .. } => is_length_order(*min, *max),
        Desc::List { min, max, .. } => is_length_order(*min, *max),
        Desc::Enumeration { names } => names.len() <= 0x1_0000_0000,
        Desc::External { variants } => variants.len() <= 0x1_0000_0000,
        Desc::Tagged { variants, .. } => variants.len() <= 0x1_0000_0000,
        Desc::Untagged { alternatives } => alternatives.len() <= 0x1_0000_0000,
        _ => true,
    }
}

fn is_number_order(min: &Option<i128>, max: &Option<i128>) -> bool
    ensures { result ≡ checks.is_number_order min.now max.now }
{
    match (min, max) {
        (Some(min), Some(max)) => *min <= *max,
        _ => true,
    }
}

fn is_bound_of(kind: IntKind, bound: &Option<i128>) -> bool
    ensures { result ≡ checks.is_bound_of kind bound.now }
{
    match bound {
        Some(bound) => least_of(kind) <= *bound && *bound <= greatest_of(kind),
        None => true,
    }
}

// A length is below 2^32 by its type.
fn is_length_order(min: Option<u32>, max: Option<u32>) -> bool
    ensures order { result ≡ checks.is_length_order min max }
    ensures least { IsTrue (is_short min) }
    ensures greatest { IsTrue (is_short max) }
{
    match (min, max) {
        (Some(min), Some(max)) => min <= max,
        _ => true,
    }
}
