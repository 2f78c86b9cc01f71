ghost use Rattle.std.specs.Prelude.{◌≡◌, ◌≤◌, ◌-◌, ◌^◌, ◌++◌, IfOk, OnErr, OnOk, map, suc};
ghost use Rattle.std.specs.Str.{encode_utf8_all};
ghost use Rattle.schema_values.specs.Depth.{depth};
ghost use Rattle.schema_values.specs.Pretty.{new_line, on_line, grouped, pretty_at, pretty_member, pretty_of};
ghost use Rattle.schema_values.specs.Print.{joined};
ghost use Rattle.schema_values.specs.Reading.{Reads};
ghost use Rattle.schema_values.specs.SortedMembers.{sorted_members};
ghost use Rattle.schema_values.specs.Sound.{IsSound};

use crate::json_value::{Json, Member};
use crate::print::{write_comma, write_truth};
use crate::quoting::write_quoted;
use crate::text::Text;
use std::alloc::{AllocError, Global};

impl Json {
    /// The value's text with a line for each item and member.
    pub fn pretty(&self, alloc: Global) -> Result<Text, AllocError>
        ensures text { IfOk result (λ text. text ≡ pretty_of self.now) }
        ensures reads_back { IfOk result (λ text. IsSound self.now → depth self.now ≤ 127
            → Reads (encode_utf8_all text) (sorted_members self.now)) }
    {
        let mut out = Text::new(alloc);
        self.write_pretty(alloc, 0, &mut out)?;
        Ok(out)
    }

    #[cycle(pretty)]
    fn write_pretty(&self, alloc: Global, depth: usize, out: &mut Text) -> Result<(), AllocError>
        ensures { OnOk result (out.new ≡ out.old ++ pretty_at self.now depth) }
    {
        match self {
            Json::Null => out.push_ascii("null"),
            Json::Bool(truth) => write_truth(*truth, out),
            Json::Int(number) => out.push_number(alloc, *number),
            Json::Text(text) => write_quoted(text, out),
            Json::List(items) => write_list(alloc, items.as_slice(), depth, out),
            Json::Object(members) => write_object(alloc, members.as_slice(), depth, out),
        }
    }
}

#[cycle(pretty)]
fn write_list(alloc: Global, items: &[Json], depth: usize, out: &mut Text) -> Result<(), AllocError>
    ensures { OnOk result (out.new ≡ out.old ++ grouped 91 93 (map pretty_at items.now) depth) }
{
    if items.is_empty() {
        return out.push_ascii("[]");
    }
    let inner = deeper(depth)?;
    out.push('[')?;
    write_item_lines(alloc, items, inner, out)?;
    write_new_line(depth, out)?;
    out.push(']')
}

#[cycle(pretty)]
fn write_item_lines(
    alloc: Global,
    items: &[Json],
    depth: usize,
    out: &mut Text,
) -> Result<(), AllocError>
    ensures { OnOk result (out.new ≡ out.old ++ joined (map (on_line depth) (map pretty_at items.now))) }
{
    for (index, item) in items.iter().enumerate() {
        write_comma(index, out)?;
        write_new_line(depth, out)?;
        item.write_pretty(alloc, depth, out)?;
    }
    Ok(())
}

#[cycle(pretty)]
fn write_object(
    alloc: Global,
    members: &[Member],
    depth: usize,
    out: &mut Text,
) -> Result<(), AllocError>
    ensures { OnOk result (out.new ≡ out.old ++ grouped 123 125 (map pretty_member members.now) depth) }
{
    if members.is_empty() {
        return out.push_ascii("{}");
    }
    let inner = deeper(depth)?;
    out.push('{')?;
    write_member_lines(alloc, members, inner, out)?;
    write_new_line(depth, out)?;
    out.push('}')
}

#[cycle(pretty)]
fn write_member_lines(
    alloc: Global,
    members: &[Member],
    depth: usize,
    out: &mut Text,
) -> Result<(), AllocError>
    ensures { OnOk result (out.new ≡ out.old ++ joined
        (map (on_line depth) (map pretty_member members.now))) }
{
    for (index, member) in members.iter().enumerate() {
        write_comma(index, out)?;
        write_new_line(depth, out)?;
        write_quoted(&member.name, out)?;
        out.push_ascii(": ")?;
        member.value.write_pretty(alloc, depth, out)?;
    }
    Ok(())
}

// One more than the depth. No value nests so deep that there is none.
fn deeper(depth: usize) -> Result<usize, AllocError>
    ensures more { IfOk result (λ inner. inner ≡ suc depth) }
    ensures last { OnErr result (2 ^ 64 - 1 ≤ depth) }
{
    match depth.checked_add(1) {
        Some(inner) => Ok(inner),
        None => Err(AllocError),
    }
}

fn write_new_line(depth: usize, out: &mut Text) -> Result<(), AllocError>
    ensures { OnOk result (out.new ≡ out.old ++ new_line depth) }
{
    out.push('\n')?;
    for _level in 0..depth {
        out.push_ascii("  ")?;
    }
    Ok(())
}
