// What stands under names.
ghost use Rattle.std.specs.Prelude.{Some};
ghost use Rattle.typed_values.specs.Answer.{Tells};
ghost use Rattle.typed_values.specs.Checks.{TablePasses, DescPasses};
ghost use Rattle.typed_values.specs.Denotes.{items_told};
ghost use Rattle.flat_maps.specs.Flat.{given_told, resolved, texts_told, told_item};
ghost use Rattle.flat_maps.specs.Lookups.{given_of};

use crate::resolve::resolve;
use descriptors::{Desc, DescTable, Tree};
use scalar_texts::tree_of_text;
use schema_values::{List, Text};
use std::alloc::{AllocError, Global};
use typed_values::{FaultKind, Place, Stop, is_length_within};

/// What stands under a name: one text, or a list of texts.
#[derive(Clone, Copy)]
pub(crate) enum Given<'a> {
    One(&'a str),
    Several(&'a [Text]),
}

/// Names, under which texts are looked up. A look-up fails only for want of memory.
pub(crate) trait LookUp {
    ghost use Rattle.std.specs.Prelude.{◌≡◌, option_map, IfOk};
    ghost use Rattle.flat_maps.specs.Given.{Names};
    ghost use Rattle.flat_maps.specs.Lookups.{given_of};

    ghost names: { Self → Names };

    /// What stands under a name, if anything does.
    fn look_up(&self, alloc: Global, name: &Text) -> Result<Option<Given<'_>>, AllocError>
        ensures { IfOk result (λ given. option_map given_of given ≡ names self.now name.now) };
}

/// What is given under a name, under a descriptor.
pub(crate) fn decode_given(
    alloc: Global,
    table: &DescTable,
    desc: &Desc,
    given: Given<'_>,
) -> Result<Tree, Stop>
    requires table { TablePasses table.now }
    requires desc { DescPasses table.now desc.now }
    ensures { Tells result (given_told table.now desc.now (given_of given.entry)) }
{
    match given {
        Given::One(text) => tree_of_text(alloc, table, desc, text),
        Given::Several(texts) => decode_several(alloc, table, desc, texts),
    }
}

// A list of texts has to stand under a list, or under a reference to one.
fn decode_several(
    alloc: Global,
    table: &DescTable,
    desc: &Desc,
    texts: &[Text],
) -> Result<Tree, Stop>
    requires table { TablePasses table.now }
    requires desc { DescPasses table.now desc.now }
    ensures { Tells result (texts_told table.now texts.now (resolved table.now desc.now)) }
{
    match resolve(table, desc) {
        Some(resolved) => decode_list(alloc, table, resolved, texts),
        None => Err(Stop::refused(alloc, FaultKind::WrongKind)),
    }
}

// Any other descriptor has no list of texts.
fn decode_list(
    alloc: Global,
    table: &DescTable,
    resolved: &Desc,
    texts: &[Text],
) -> Result<Tree, Stop>
    requires table { TablePasses table.now }
    requires desc { DescPasses table.now resolved.now }
    ensures { Tells result (texts_told table.now texts.now (Some resolved.now)) }
{
    match resolved {
        Desc::List { item, min, max } => {
            decode_items(alloc, table, item.get(), *min, *max, texts)
        }
        _ => Err(Stop::refused(alloc, FaultKind::WrongKind)),
    }
}

// Each text in order, where there are as many as the bounds allow.
fn decode_items(
    alloc: Global,
    table: &DescTable,
    item: &Desc,
    min: Option<u32>,
    max: Option<u32>,
    texts: &[Text],
) -> Result<Tree, Stop>
    requires table { TablePasses table.now }
    requires item { DescPasses table.now item.now }
    ensures { Tells result (items_told (told_item table.now item.now) min max texts.now) }
{
    if !is_length_within(min, max, texts.len()) {
        return Err(Stop::refused(alloc, FaultKind::BadLength));
    }
    let mut trees = List::new(alloc);
    for (i, text) in texts.iter().enumerate() {
        let tree = decode_item(alloc, table, item, i, text)?;
        trees.push(tree)?;
    }
    Ok(Tree::List(trees))
}

// A text as an item, whose fault stands below its place.
fn decode_item(
    alloc: Global,
    table: &DescTable,
    item: &Desc,
    place: usize,
    text: &Text,
) -> Result<Tree, Stop>
    requires table { TablePasses table.now }
    requires item { DescPasses table.now item.now }
    ensures { Tells result (told_item table.now item.now place text.now) }
{
    match tree_of_text(alloc, table, item, text.as_str()) {
        Ok(tree) => Ok(tree),
        Err(stop) => Err(stop.below(Place::Item(place))),
    }
}
