//! The struct that header lines denote.
ghost use Rattle.std.specs.Prelude.{Contains, IfErr, IfOk, map};
ghost use Rattle.descriptors.specs.declared.desc.Field.{Field};
ghost use Rattle.descriptors.specs.declared.tree.Tree.{Tree};
ghost use Rattle.typed_values.specs.Answer.{Tells, IfFault, IsFaultOf};
ghost use Rattle.typed_values.specs.Checks.{TablePasses, DescPasses};
ghost use Rattle.typed_values.specs.Denotes.{by_presence};
ghost use Rattle.typed_values.specs.Fits.{Fits};
ghost use Rattle.flat_maps.specs.Flat.{FlatDenotes, fields_told};
ghost use Rattle.request_parts.specs.Wire.{wire_line};
ghost use Rattle.header_texts.specs.HeaderTexts.{HeadersDenote, headers_told, header_told};
ghost use Rattle.header_texts.specs.HeaderTexts.{line_told, shown_names};

use crate::lines::last_line;
use descriptors::{Desc, DescTable, Field, Tree};
use flat_maps::{absent_field, fields_of, present_field, tree_of_text};
use header_lists::HeaderList;
use http_header::{HeaderName, HeaderValue};
use request_words::shown_text;
use schema_values::List;
use std::alloc::Global;
use typed_values::{DecodeError, FaultKind, Stop};

/// Decodes header lines (OpenAPI 3.0.3, Parameter Object; RFC 9110, sections 5.1 and 5.5) under a
/// struct that takes unknown names, or a reference to one: the tree that they denote, or the fault
/// that is told first. Of the lines of a field's name, compared without case, the last one counts;
/// its value is a text of visible ASCII characters, spaces and tabs. Names that are no field's have
/// no effect. It compares f times l names for f fields and l lines, and takes no memory for them.
pub fn decode_headers(
    alloc: Global,
    table: &DescTable,
    desc: &Desc,
    lines: &HeaderList,
) -> Result<Tree, DecodeError>
    requires table { TablePasses table.now }
    requires desc { DescPasses table.now desc.now }
    ensures denotes { IfOk result (HeadersDenote table.now desc.now (map wire_line lines.now)) }
    ensures flat { IfOk result
        (FlatDenotes table.now desc.now (shown_names (map wire_line lines.now))) }
    ensures fits { IfOk result (Fits table.now desc.now) }
    ensures fault { IfErr result (λ error. IfFault error
        (IsFaultOf (headers_told table.now (map wire_line lines.now) desc.now))) }
    ensures refused { IfErr result (λ error. IfFault error (λ fault. (tree : Tree)
        → HeadersDenote table.now desc.now (map wire_line lines.now) tree → ⊥)) }
{
    match tree_of_lines(alloc, table, desc, lines.lines()) {
        Ok(tree) => Ok(tree),
        Err(stop) => Err(stop.into_error(alloc)),
    }
}

fn tree_of_lines(
    alloc: Global,
    table: &DescTable,
    desc: &Desc,
    lines: &[(HeaderName, HeaderValue)],
) -> Result<Tree, Stop>
    requires table { TablePasses table.now }
    requires desc { DescPasses table.now desc.now }
    ensures { Tells result (headers_told table.now (map wire_line lines.now) desc.now) }
{
    match fields_of(table, desc) {
        Some(fields) => decode_fields(alloc, table, fields, lines),
        None => Err(Stop::refused(alloc, FaultKind::WrongKind)),
    }
}

// The trees of all fields in order.
fn decode_fields(
    alloc: Global,
    table: &DescTable,
    fields: &[Field],
    lines: &[(HeaderName, HeaderValue)],
) -> Result<Tree, Stop>
    requires table { TablePasses table.now }
    requires fields { (f : Field) → Contains fields.now f → DescPasses table.now f.desc }
    ensures { Tells result
        (fields_told (header_told table.now (map wire_line lines.now)) fields.now) }
{
    let mut trees = List::new(alloc);
    for field in fields {
        let tree = decode_field(alloc, table, field, lines)?;
        trees.push(tree)?;
    }
    Ok(Tree::Fields(trees))
}

fn decode_field(
    alloc: Global,
    table: &DescTable,
    field: &Field,
    lines: &[(HeaderName, HeaderValue)],
) -> Result<Tree, Stop>
    requires table { TablePasses table.now }
    requires desc { DescPasses table.now field.now.desc }
    ensures { Tells result (by_presence field.now
        (header_told table.now (map wire_line lines.now) field.now)) }
{
    match last_line(lines, field.name.as_bytes()) {
        Some(value) => present_field(alloc, field, decode_value(alloc, table, &field.desc, value)),
        None => absent_field(alloc, field),
    }
}

// The value of a line, each of whose bytes is shown.
fn decode_value(
    alloc: Global,
    table: &DescTable,
    desc: &Desc,
    value: &HeaderValue,
) -> Result<Tree, Stop>
    requires table { TablePasses table.now }
    requires desc { DescPasses table.now desc.now }
    ensures { Tells result (line_told table.now desc.now value.now.bytes) }
{
    match shown_text(value.as_bytes()) {
        Some(text) => tree_of_text(alloc, table, desc, text),
        None => Err(Stop::refused(alloc, FaultKind::HeaderBytes)),
    }
}
