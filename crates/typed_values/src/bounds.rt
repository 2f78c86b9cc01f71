ghost use Rattle.std.specs.Prelude.{◌≡◌, length};
ghost use Rattle.typed_values.specs.Bounds as bounds;

use descriptors::IntKind;
use schema_values::Text;

/// The least number of a kind.
pub(crate) fn least_of(kind: IntKind) -> i128
    ensures { result ≡ bounds.least_of kind }
{
    match kind {
        IntKind::I8 => -0x80,
        IntKind::I16 => -0x8000,
        IntKind::I32 => -0x8000_0000,
        IntKind::I64 => -0x8000_0000_0000_0000,
        IntKind::U8 | IntKind::U16 | IntKind::U32 | IntKind::U64 => 0,
    }
}

/// The greatest number of a kind.
pub(crate) fn greatest_of(kind: IntKind) -> i128
    ensures { result ≡ bounds.greatest_of kind }
{
    match kind {
        IntKind::I8 => 0x7f,
        IntKind::I16 => 0x7fff,
        IntKind::I32 => 0x7fff_ffff,
        IntKind::I64 => 0x7fff_ffff_ffff_ffff,
        IntKind::U8 => 0xff,
        IntKind::U16 => 0xffff,
        IntKind::U32 => 0xffff_ffff,
        IntKind::U64 => 0xffff_ffff_ffff_ffff,
    }
}

fn is_at_least(min: Option<i128>, number: i128) -> bool
    ensures { result ≡ bounds.is_at_least min number }
{
    match min {
        Some(least) => least <= number,
        None => true,
    }
}

fn is_at_most(max: Option<i128>, number: i128) -> bool
    ensures { result ≡ bounds.is_at_most max number }
{
    match max {
        Some(greatest) => number <= greatest,
        None => true,
    }
}

/// Whether a number is one of the kind, within the bounds.
pub fn is_number_of(kind: IntKind, min: Option<i128>, max: Option<i128>, number: i128) -> bool
    ensures { result ≡ bounds.is_number_of kind min max number }
{
    least_of(kind) <= number
        && number <= greatest_of(kind)
        && is_at_least(min, number)
        && is_at_most(max, number)
}

fn is_long_enough(min: Option<u32>, length: usize) -> bool
    ensures { result ≡ bounds.is_long_enough min length }
{
    match min {
        Some(least) => least as usize <= length,
        None => true,
    }
}

fn is_short_enough(max: Option<u32>, length: usize) -> bool
    ensures { result ≡ bounds.is_short_enough max length }
{
    match max {
        Some(greatest) => length <= greatest as usize,
        None => true,
    }
}

/// Whether a length is within the bounds.
pub fn is_length_within(min: Option<u32>, max: Option<u32>, length: usize) -> bool
    ensures { result ≡ bounds.is_length_within min max length }
{
    is_long_enough(min, length) && is_short_enough(max, length)
}

/// The number of characters of a text.
pub fn character_count(text: &Text) -> usize
    ensures { result ≡ length text.now }
{
    text.as_str().chars().count()
}
