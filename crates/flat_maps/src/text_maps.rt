//! The map of texts that a struct of texts is written as.
ghost use Rattle.std.specs.Prelude.{◌≡◌, IfErr, IfOk, List, Ok, map};
ghost use Rattle.schema_values.specs.Order.{sorted_by};
ghost use Rattle.schema_values.specs.Sound.{AreDistinct};
ghost use Rattle.schema_values.specs.declared.variables.VariableValue.TheVariants.{String};
ghost use Rattle.descriptors.specs.declared.desc.Desc.{out-Desc};
ghost use Rattle.descriptors.specs.declared.tree.Tree.{out-Tree};
ghost use Rattle.typed_values.specs.Checks.{TablePasses, DescPasses};
ghost use Rattle.typed_values.specs.Fits.{Fits};
ghost use Rattle.flat_maps.specs.FieldTexts.{HoldsTexts};
ghost use Rattle.flat_maps.specs.Flat.{FlatDenotes};
ghost use Rattle.flat_maps.specs.MapErrors.{AnswersAs, IfRefused};
ghost use Rattle.flat_maps.specs.Maps.{map_values};
ghost use Rattle.flat_maps.specs.TextMaps as texts;
ghost use Rattle.flat_maps.specs.TextMaps.{TextEntry, entry_name, map_written};
ghost use Rattle.flat_maps.specs.TextStructs.{IsTextStruct};

use crate::field_texts::field_texts;
use crate::map_error::MapError;
use crate::refusals::refusal;
use crate::resolve::resolve;
use descriptors::{Desc, DescTable, Tree};
use schema_values::Text;
use std::alloc::{AllocError, Global};
use std::collections::BTreeMap;

/// The map of texts that a struct of texts and optional texts is written as, or a reference to one:
/// each text that is there stands under the name of its field, and an option that is none leaves no
/// key. Any other value is refused, by the first field that is no text.
pub fn to_map_tree(
    alloc: Global,
    table: &DescTable,
    desc: &Desc,
    tree: &Tree,
) -> Result<BTreeMap<Text, Text>, MapError>
    requires table { TablePasses table.now }
    requires desc { DescPasses table.now desc.now }
    ensures written { IfOk result
        (λ map. map_written table.now desc.now tree.now ≡ Ok map.entries) }
    ensures texts { IfOk result
        (λ map. HoldsTexts table.now desc.now tree.now (map_values String map)) }
    ensures told { IfErr result (λ error. IfRefused error
        (λ text. map_written table.now desc.now tree.now ≡ Err text)) }
    ensures refused { IfErr result (λ error. IfRefused error (λ text.
        (entries : List TextEntry) → map_written table.now desc.now tree.now ≡ Ok entries → ⊥)) }
    ensures read_back { IsTextStruct table.now desc.now → Fits table.now desc.now tree.now
        → IfOk result (λ map. FlatDenotes table.now desc.now (map_values String map) tree.now) }
{
    written_map(alloc, table, desc, tree)
}

fn written_map(
    alloc: Global,
    table: &DescTable,
    desc: &Desc,
    tree: &Tree,
) -> Result<BTreeMap<Text, Text>, MapError>
    requires table { TablePasses table.now }
    requires desc { DescPasses table.now desc.now }
    ensures { AnswersAs (λ map. map.entries) result (map_written table.now desc.now tree.now) }
{
    match resolve(table, desc) {
        Some(resolved) => map_of(alloc, table, resolved, tree),
        None => Err(MapError::invalid_type(alloc, "unit")),
    }
}

fn map_of(
    alloc: Global,
    table: &DescTable,
    desc: &Desc,
    tree: &Tree,
) -> Result<BTreeMap<Text, Text>, MapError>
    requires table { TablePasses table.now }
    requires desc { DescPasses table.now desc.now }
    ensures { AnswersAs (λ map. map.entries) result
        (texts.map_by table.now (out-Desc desc.now) (out-Tree tree.now)) }
{
    match (desc, tree) {
        (Desc::Struct { fields, .. }, Tree::Fields(trees)) => {
            let entries = field_texts(alloc, table, fields.as_slice(), trees.as_slice())?;
            Ok(collected(alloc, entries.as_slice())?)
        }
        _ => Err(refusal(alloc, table, desc, tree)),
    }
}

// The map of some entries of distinct names.
fn collected(alloc: Global, entries: &[(&Text, &Text)]) -> Result<BTreeMap<Text, Text>, AllocError>
    requires { AreDistinct (map entry_name
        (map (λ entry. (entry.0.now, entry.1.now)) entries.now)) }
    ensures { IfOk result (λ made. made.entries
        ≡ sorted_by entry_name (map (λ entry. (entry.0.now, entry.1.now)) entries.now)) }
{
    let mut map = BTreeMap::new(alloc);
    for (name, text) in entries {
        map.insert(name.copy(alloc)?, text.copy(alloc)?)?;
    }
    Ok(map)
}
