ghost use Rattle.std.specs.Prelude.{◌≡◌, ◌≤◌, ◌++◌, IfOk, IsOk, OnErr, OnOk, map, codes, if◌then◌else◌};
ghost use Rattle.std.specs.Io.{StartsWith};
ghost use Rattle.std.specs.Str.{encode_utf8_all};
ghost use Rattle.schema_values.specs.Depth.{depth};
ghost use Rattle.schema_values.specs.Print.{joined, comma_before, compact_of};
ghost use Rattle.schema_values.specs.PrintMember.{compact_member};
ghost use Rattle.schema_values.specs.Reading.{Reads};
ghost use Rattle.schema_values.specs.SortedMembers.{sorted_members};
ghost use Rattle.schema_values.specs.Sound.{IsSound};

use crate::json_value::{Json, Member};
use crate::quoting::write_quoted;
use crate::text::Text;
use std::alloc::{AllocError, Global};

// Room that a text begins with, so that a short one does not grow.
const FIRST_ROOM: usize = 256;

impl Json {
    /// The value's text with no white space.
    pub fn compact(&self, alloc: Global) -> Result<Text, AllocError>
        ensures text { IfOk result (λ text. text ≡ compact_of self.now) }
        ensures reads_back { IfOk result (λ text. IsSound self.now → depth self.now ≤ 127
            → Reads (encode_utf8_all text) (sorted_members self.now)) }
    {
        let mut out = Text::with_capacity(alloc, FIRST_ROOM)?;
        self.write_compact(alloc, &mut out)?;
        Ok(out)
    }

    #[cycle(compact)]
    pub(crate) fn write_compact(&self, alloc: Global, out: &mut Text) -> Result<(), AllocError>
        ensures ok { OnOk result (out.new ≡ out.old ++ compact_of self.now) }
        ensures err { OnErr result (StartsWith out.new out.old) }
    {
        match self {
            Json::Null => out.push_ascii("null"),
            Json::Bool(truth) => write_truth(*truth, out),
            Json::Int(number) => out.push_number(alloc, *number),
            Json::Text(text) => write_quoted(text, out),
            Json::List(items) => {
                out.push('[')?;
                write_items(alloc, items.as_slice(), out)?;
                out.push(']')
            }
            Json::Object(members) => {
                out.push('{')?;
                write_members(alloc, members.as_slice(), out)?;
                out.push('}')
            }
        }
    }
}

#[cycle(compact)]
fn write_items(alloc: Global, items: &[Json], out: &mut Text) -> Result<(), AllocError>
    ensures ok { OnOk result (out.new ≡ out.old ++ joined (map compact_of items.now)) }
    ensures err { OnErr result (StartsWith out.new out.old) }
{
    for (index, item) in items.iter().enumerate() {
        write_comma(index, out)?;
        item.write_compact(alloc, out)?;
    }
    Ok(())
}

#[cycle(compact)]
fn write_members(alloc: Global, members: &[Member], out: &mut Text) -> Result<(), AllocError>
    ensures ok { OnOk result (out.new ≡ out.old ++ joined (map compact_member members.now)) }
    ensures err { OnErr result (StartsWith out.new out.old) }
{
    for (index, member) in members.iter().enumerate() {
        write_comma(index, out)?;
        write_quoted(&member.name, out)?;
        out.push(':')?;
        member.value.write_compact(alloc, out)?;
    }
    Ok(())
}

/// Puts a comma at the end where texts stand before the next one, and takes no memory where none
/// does. The index is how many stand before it.
pub fn write_comma(index: usize, out: &mut Text) -> Result<(), AllocError>
    ensures ok { OnOk result (out.new ≡ out.old ++ comma_before index) }
    ensures err { OnErr result (out.new ≡ out.old) }
    ensures first { index ≡ 0 → IsOk result }
{
    if index == 0 { Ok(()) } else { out.push(',') }
}

pub(crate) fn write_truth(truth: bool, out: &mut Text) -> Result<(), AllocError>
    ensures ok { OnOk result (out.new ≡ out.old ++ (if truth then codes "true" else codes "false")) }
    ensures err { OnErr result (out.new ≡ out.old) }
{
    if truth {
        out.push_ascii("true")
    } else {
        out.push_ascii("false")
    }
}
