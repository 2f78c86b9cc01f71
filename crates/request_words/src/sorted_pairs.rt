//! Pairs, looked up by their names.

ghost use Rattle.std.specs.Prelude.{◌≡◌, map, filter, bytes_eq, option_map, IfOk};
ghost use Rattle.std.specs.Cmp.Lexicographic.{slice_cmp};
ghost use Rattle.std.specs.List.Sorted.{IsSortedByKey};
ghost use Rattle.std.specs.Ordering.{nat_cmp};
ghost use Rattle.std.proofs.Props.{props};
ghost use Rattle.schema_values.specs.Order.{sorted_by};
ghost use Rattle.request_words.specs.NameOrder.{is_not_after};
ghost use Rattle.request_words.specs.Pairs.{pair_name, values_of, last_value, has_pair, is_doubled};

use crate::pairs::NamedText;
use schema_values::{HasName, Text, in_order};
use std::alloc::{AllocError, Global};

// Whether an item's name is not behind a name.
fn is_not_after<T: HasName>(item: &T, name: &Text) -> bool
    ensures { result ≡ is_not_after T.name_of name.now item.now }
{
    !(name < item.name())
}

/// All items of a name, by halves among items in the order of their names.
pub fn items_named<'s, 'a, T: HasName>(ordered: &'s [&'a T], name: &Text) -> &'s [&'a T]
    requires { IsSortedByKey T.name_of (slice_cmp nat_cmp) (map (λ item. item.now) ordered.now) }
    ensures { map (λ item. item.now) result.now
        ≡ filter (λ item. bytes_eq (T.name_of item) name.now) (map (λ item. item.now) ordered.now) }
{
    let from = ordered.partition_point(|item| item.name() < name);
    let behind = &ordered[from..];
    let count = behind.partition_point(|item| is_not_after(*item, name));
    &behind[..count]
}

/// Pairs of a query or of a form. A name is looked up by halves, among the pairs in the order of their names.
#[derive(Drop)]
pub struct SortedPairs<'a> {
    /// The pairs, in their own order.
    pub pairs: &'a [NamedText],
    sorted: Vec<&'a NamedText>,
    ghost ordered: { map (λ pair. pair.now) sorted.items
        ≡ sorted_by pair_name pairs.now } by { Prim.hlevel props },
}

impl<'a> SortedPairs<'a> {
    /// The pairs, put in order. Fails only for want of memory.
    pub fn new(alloc: Global, pairs: &'a [NamedText]) -> Result<SortedPairs<'a>, AllocError>
        ensures { IfOk result (λ sorted. sorted.pairs.now ≡ pairs.now) }
    {
        let sorted = in_order(alloc, pairs)?;
        Ok(SortedPairs { pairs, sorted })
    }

    /// The pairs of a name, in order.
    pub fn named(&self, name: &Text) -> &[&'a NamedText]
        ensures { map (λ pair. pair.now.value) result.now ≡ values_of name.now self.now.pairs.now }
    {
        items_named(self.sorted.as_slice(), name)
    }

    /// The last value of a name.
    pub fn last_value(&self, name: &Text) -> Option<&'a Text>
        ensures { option_map (λ value. value.now) result ≡ last_value name.now self.now.pairs.now }
    {
        match self.named(name).last() {
            Some(pair) => Some(&pair.value),
            None => None,
        }
    }

    /// Whether a pair has a name.
    pub fn has_pair(&self, name: &Text) -> bool
        ensures { result ≡ has_pair self.now.pairs.now name.now }
    {
        !self.named(name).is_empty()
    }

    /// Whether a name stands more than once.
    pub fn is_doubled(&self, name: &Text) -> bool
        ensures { result ≡ is_doubled self.now.pairs.now name.now }
    {
        self.named(name).len() > 1
    }
}
