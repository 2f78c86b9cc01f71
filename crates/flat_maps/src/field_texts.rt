// The texts of a struct's fields.
ghost use Rattle.std.specs.Prelude.{◌≡◌, ◌++◌, [], Contains, OnOk, map, option_map};
ghost use Rattle.descriptors.specs.declared.desc.Desc.{out-Desc};
ghost use Rattle.descriptors.specs.declared.desc.Desc.TheOpen.{Desc-F};
ghost use Rattle.descriptors.specs.declared.desc.Field.{Field};
ghost use Rattle.descriptors.specs.declared.tree.Tree.{out-Tree};
ghost use Rattle.typed_values.specs.Checks.{TablePasses, DescPasses};
ghost use Rattle.flat_maps.specs.Flat.{resolved};
ghost use Rattle.flat_maps.specs.MapErrors.{AnswersAs};
ghost use Rattle.flat_maps.specs.TextMaps as texts;

use crate::map_error::MapError;
use crate::refusals::refusal;
use crate::resolve::resolve;
use descriptors::{Desc, DescTable, Field, Presence, Tree};
use schema_values::{List, Text};
use std::alloc::{AllocError, Global};

/// The names and texts of the fields that have one, in the order in which these are declared.
pub(crate) fn field_texts<'a>(
    alloc: Global,
    table: &DescTable,
    fields: &'a [Field],
    trees: &'a [Tree],
) -> Result<List<(&'a Text, &'a Text)>, MapError>
    requires table { TablePasses table.now }
    requires fields { (f : Field) → Contains fields.now f → DescPasses table.now f.desc }
    ensures { AnswersAs (λ entries. map (λ entry. (entry.0.now, entry.1.now)) entries) result
        (texts.texts_written table.now fields.now trees.now) }
{
    let mut entries = List::new(alloc);
    for (place, field) in fields.iter().enumerate() {
        let Some(tree) = trees.get(place) else {
            return Ok(entries);
        };
        let text = field_text(alloc, table, field, tree)?;
        push_text(&mut entries, &field.name, text)?;
    }
    Ok(entries)
}

// Puts the text of a field at the end, with its name, if there is one.
fn push_text<'a>(
    entries: &mut List<(&'a Text, &'a Text)>,
    name: &'a Text,
    text: Option<&'a Text>,
) -> Result<(), AllocError>
    ensures { OnOk result (map (λ entry. (entry.0.now, entry.1.now)) entries.new
        ≡ map (λ entry. (entry.0.now, entry.1.now)) entries.old
        ++ texts.entries_with name.now (option_map (λ text. text.now) text.entry) []) }
{
    match text {
        Some(text) => entries.push((name, text)),
        None => Ok(()),
    }
}

// The text of a field, if it has one. What may be left out is an option.
fn field_text<'a>(
    alloc: Global,
    table: &DescTable,
    field: &Field,
    tree: &'a Tree,
) -> Result<Option<&'a Text>, MapError>
    requires table { TablePasses table.now }
    requires desc { DescPasses table.now field.now.desc }
    ensures { AnswersAs (option_map (λ text. text.now)) result
        (texts.field_text table.now field.now tree.now) }
{
    match &field.presence {
        Presence::Skipped => optional_text(alloc, table, &field.desc, tree),
        Presence::Required | Presence::Nullable | Presence::Default(_) => {
            optional_behind(alloc, table, &field.desc, tree)
        }
    }
}

// A text, or what an option holds.
fn optional_behind<'a>(
    alloc: Global,
    table: &DescTable,
    desc: &Desc,
    tree: &'a Tree,
) -> Result<Option<&'a Text>, MapError>
    requires table { TablePasses table.now }
    requires desc { DescPasses table.now desc.now }
    ensures { AnswersAs (option_map (λ text. text.now)) result
        (texts.optional_behind table.now (resolved table.now desc.now) tree.now) }
{
    match resolve(table, desc) {
        Some(resolved) => match resolved {
            Desc::Option(inner) => optional_text(alloc, table, inner.get(), tree),
            _ => text_alone(alloc, table, resolved, tree),
        },
        None => Err(MapError::invalid_type(alloc, "unit")),
    }
}

// What an option of a descriptor holds.
fn optional_text<'a>(
    alloc: Global,
    table: &DescTable,
    inner: &Desc,
    tree: &'a Tree,
) -> Result<Option<&'a Text>, MapError>
    requires table { TablePasses table.now }
    requires inner { DescPasses table.now inner.now }
    ensures { AnswersAs (option_map (λ text. text.now)) result
        (texts.optional_text table.now (Desc-F.Option inner.now) (out-Tree tree.now)) }
{
    match tree {
        Tree::None => Ok(None),
        Tree::Some(tree) => match resolve(table, inner) {
            Some(plain) => text_alone(alloc, table, plain, tree.get()),
            None => Err(MapError::invalid_type(alloc, "unit")),
        },
        _ => Err(MapError::invalid_type(alloc, "some")),
    }
}

// A text, and anything else is refused.
fn text_alone<'a>(
    alloc: Global,
    table: &DescTable,
    desc: &Desc,
    tree: &'a Tree,
) -> Result<Option<&'a Text>, MapError>
    requires table { TablePasses table.now }
    requires desc { DescPasses table.now desc.now }
    ensures { AnswersAs (option_map (λ text. text.now)) result
        (texts.text_alone table.now (out-Desc desc.now) (out-Tree tree.now)) }
{
    match (desc, tree) {
        (Desc::Text { .. }, Tree::Text(text)) => Ok(Some(text)),
        _ => Err(refusal(alloc, table, desc, tree)),
    }
}
