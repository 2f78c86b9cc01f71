//! The struct that pairs denote.

ghost use Rattle.std.specs.Prelude.{◌≡◌, Contains, IfErr, IfOk, option_map};
ghost use Rattle.descriptors.specs.declared.desc.Field.{Field};
ghost use Rattle.descriptors.specs.declared.tree.Tree.{Tree};
ghost use Rattle.typed_values.specs.Answer.{Tells, IfFault, IsFaultOf};
ghost use Rattle.typed_values.specs.Checks.{TablePasses, DescPasses};
ghost use Rattle.typed_values.specs.Fits.{Fits};
ghost use Rattle.flat_maps.specs.Flat.{FlatDenotes};
ghost use Rattle.flat_maps.specs.Pairs.{PairsDenote, StandOnce, pairs_fields, pairs_told};
ghost use Rattle.flat_maps.specs.Pairs.{first_doubled, last_values};

use crate::fields::decode_fields;
use crate::given::{Given, LookUp};
use crate::repeats::Repeats;
use crate::resolve::fields_of;
use descriptors::{Desc, DescTable, Field, Tree};
use request_words::{NamedText, SortedPairs};
use schema_values::{List, Text};
use std::alloc::{AllocError, Global};
use typed_values::{DecodeError, FaultKind, Stop};

impl LookUp for SortedPairs<'_> {
    ghost use Rattle.flat_maps.specs.Pairs.{last_values};

    ghost names = { λ sorted. last_values sorted.pairs.now };

    fn look_up(&self, _alloc: Global, name: &Text) -> Result<Option<Given<'_>>, AllocError> {
        match self.last_value(name) {
            Some(text) => Ok(Some(Given::One(text.as_str()))),
            None => Ok(None),
        }
    }
}

/// Decodes the pairs of a query (OpenAPI 3.0.3, Parameter Object) or of a form (Request Body Object)
/// under a struct that takes unknown names, or a reference to one: the tree that they denote, or the
/// fault that is told first. Names that are no field's have no effect. It compares names some
/// (p + f) log p times for p pairs and f fields, beside decoding what the fields are given.
pub fn decode_pairs(
    alloc: Global,
    table: &DescTable,
    desc: &Desc,
    pairs: &List<NamedText>,
    repeats: Repeats,
) -> Result<Tree, DecodeError>
    requires table { TablePasses table.now }
    requires desc { DescPasses table.now desc.now }
    ensures denotes { IfOk result (PairsDenote table.now desc.now repeats pairs.now) }
    ensures last { IfOk result (FlatDenotes table.now desc.now (last_values pairs.now)) }
    ensures once { repeats ≡ Repeats.Refuse
        → IfOk result (λ _. StandOnce table.now desc.now pairs.now) }
    ensures fits { IfOk result (Fits table.now desc.now) }
    ensures fault { IfErr result (λ error. IfFault error
        (IsFaultOf (pairs_told table.now repeats pairs.now desc.now))) }
    ensures refused { IfErr result (λ error. IfFault error
        (λ fault. (tree : Tree) → PairsDenote table.now desc.now repeats pairs.now tree → ⊥)) }
{
    match tree_of_pairs(alloc, table, desc, pairs.as_slice(), repeats) {
        Ok(tree) => Ok(tree),
        Err(stop) => Err(stop.into_error(alloc)),
    }
}

fn tree_of_pairs(
    alloc: Global,
    table: &DescTable,
    desc: &Desc,
    pairs: &[NamedText],
    repeats: Repeats,
) -> Result<Tree, Stop>
    requires table { TablePasses table.now }
    requires desc { DescPasses table.now desc.now }
    ensures { Tells result (pairs_told table.now repeats pairs.now desc.now) }
{
    match fields_of(table, desc) {
        Some(fields) => decode_sorted(alloc, table, fields, pairs, repeats),
        None => Err(Stop::refused(alloc, FaultKind::WrongKind)),
    }
}

fn decode_sorted(
    alloc: Global,
    table: &DescTable,
    fields: &[Field],
    pairs: &[NamedText],
    repeats: Repeats,
) -> Result<Tree, Stop>
    requires table { TablePasses table.now }
    requires fields { (f : Field) → Contains fields.now f → DescPasses table.now f.desc }
    ensures { Tells result (pairs_fields table.now repeats pairs.now fields.now) }
{
    let sorted = SortedPairs::new(alloc, pairs)?;
    match repeats {
        Repeats::Refuse => match find_doubled(&sorted, fields) {
            Some(name) => Err(Stop::doubled(alloc, name).below_name(alloc, name)),
            None => decode_fields(alloc, table, fields, &sorted),
        },
        Repeats::Last => decode_fields(alloc, table, fields, &sorted),
    }
}

// The first field whose name stands more than once.
fn find_doubled<'f>(sorted: &SortedPairs<'_>, fields: &'f [Field]) -> Option<&'f Text>
    ensures { option_map (λ name. name.now) result ≡ first_doubled sorted.now.pairs.now fields.now }
{
    for field in fields {
        if sorted.is_doubled(&field.name) {
            return Some(&field.name);
        }
    }
    None
}
