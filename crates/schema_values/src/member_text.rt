//! The members of an object, written one by one at the end of a text.
ghost use Rattle.std.specs.Prelude.{◌≡◌, ◌++◌, ◌∷◌, [], OnErr, OnOk, IsTrue};
ghost use Rattle.std.specs.Io.{StartsWith};
ghost use Rattle.std.specs.Str.{chars};
ghost use Rattle.schema_values.specs.Ascii.{all_ascii};
ghost use Rattle.schema_values.specs.Member.{member};
ghost use Rattle.schema_values.specs.Print.{comma_before, quoted};
ghost use Rattle.schema_values.specs.PrintMember.{compact_member};
ghost use Rattle.schema_values.specs.declared.json_value.Json.{Int as Number, Text as Words};

use crate::json_value::Json;
use crate::print::write_comma;
use crate::quoting::write_quoted_str;
use crate::text::Text;
use std::alloc::{AllocError, Global};

/// Puts the name of a member at the end, behind a comma where members stand before it, and then a colon. The
/// index is how many stand before it.
pub fn write_name(index: usize, name: &str, out: &mut Text) -> Result<(), AllocError>
    requires { IsTrue (all_ascii name.now) }
    ensures ok { OnOk result (out.new ≡ out.old ++ (comma_before index ++ (quoted name.now ++ 58 ∷ []))) }
    ensures err { OnErr result (StartsWith out.new out.old) }
{
    write_comma(index, out)?;
    write_quoted_str(name, out)?;
    out.push(':')
}

/// Puts a member at the end whose value is a text, as `compact` writes it.
pub fn write_text_member(
    index: usize,
    name: &str,
    value: &str,
    out: &mut Text,
) -> Result<(), AllocError>
    requires { IsTrue (all_ascii name.now) }
    ensures ok { OnOk result (out.new ≡ out.old
        ++ (comma_before index ++ compact_member (member name.now (Words (chars value.now))))) }
    ensures err { OnErr result (StartsWith out.new out.old) }
{
    write_name(index, name, out)?;
    write_quoted_str(value, out)
}

/// Puts a member at the end whose value is a whole number, as `compact` writes it.
pub fn write_number_member(
    alloc: Global,
    index: usize,
    name: &str,
    value: i128,
    out: &mut Text,
) -> Result<(), AllocError>
    requires { IsTrue (all_ascii name.now) }
    ensures ok { OnOk result (out.new ≡ out.old
        ++ (comma_before index ++ compact_member (member name.now (Number value)))) }
    ensures err { OnErr result (StartsWith out.new out.old) }
{
    write_name(index, name, out)?;
    out.push_number(alloc, value)
}

/// Puts a member at the end, as `compact` writes it.
pub fn write_member(
    alloc: Global,
    index: usize,
    name: &str,
    value: &Json,
    out: &mut Text,
) -> Result<(), AllocError>
    requires { IsTrue (all_ascii name.now) }
    ensures ok { OnOk result (out.new ≡ out.old
        ++ (comma_before index ++ compact_member (member name.now value.now))) }
    ensures err { OnErr result (StartsWith out.new out.old) }
{
    write_name(index, name, out)?;
    value.write_compact(alloc, out)
}
