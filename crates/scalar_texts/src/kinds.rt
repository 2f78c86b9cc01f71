// The kinds of whole numbers, as texts of faults name them.
ghost use Rattle.std.specs.Prelude.{◌≡◌, IsTrue};
ghost use Rattle.schema_values.specs.Ascii.{all_ascii};
ghost use Rattle.scalar_texts.specs.Texts as texts;

use descriptors::IntKind;

/// The name of a kind of numbers.
pub fn kind_name(kind: IntKind) -> &'static str
    ensures name { result.now ≡ texts.kind_name kind }
    ensures ascii { IsTrue (all_ascii result.now) }
{
    match kind {
        IntKind::I8 => "i8",
        IntKind::I16 => "i16",
        IntKind::I32 => "i32",
        IntKind::I64 => "i64",
        IntKind::U8 => "u8",
        IntKind::U16 => "u16",
        IntKind::U32 => "u32",
        IntKind::U64 => "u64",
    }
}

/// Whether the numbers of a kind have no sign.
pub(crate) fn has_no_sign(kind: IntKind) -> bool
    ensures { result ≡ texts.has_no_sign kind }
{
    match kind {
        IntKind::I8 | IntKind::I16 | IntKind::I32 | IntKind::I64 => false,
        IntKind::U8 | IntKind::U16 | IntKind::U32 | IntKind::U64 => true,
    }
}
