// A table: trees by key, in ascending order of the keys' bytes.
ghost use Rattle.std.specs.Prelude.{◌≡◌, ◌∷◌, [], IfOk, IsOk, None, OnErr, OnOk, bytes_eq, length, map};
ghost use Rattle.std.specs.Prelude.{option_map, take};
ghost use Rattle.tree_store.specs.Tables.{Ascend, pair_of, pairs_above, pairs_with, pairs_without, tree_at};
ghost use Rattle.tree_store.specs.TableView.{pairs_of_entries};

use descriptors::{Pair, Tree};
use schema_values::{List, Text};
use std::alloc::{AllocError, Global};
use std::collections::BTreeMap;
use std::collections::btree_map::Range;
use std::marker::Model;
use std::ops::Bound;

/// A table. Contracts see the bytes of its name, and the pairs of a key's bytes and a tree.
#[derive(Drop)]
pub(crate) struct Table {
    name: String,
    trees: BTreeMap<String, Tree>,
}

impl Model for Table {
    ghost use Rattle.std.specs.Prelude.{ℕ, List, string_bytes};
    ghost use Rattle.std.specs.Coded.{coded_list, coded×, coded_ℕ};
    ghost use Rattle.descriptors.specs.contracts.tree.Tree as tree;
    ghost use Rattle.tree_store.specs.Tables.{Pairs};
    ghost use Rattle.tree_store.specs.TableView.{pairs_of_entries};

    ghost Value = { List ℕ × Pairs };

    ghost coded = { coded× (coded_list coded_ℕ)
        (coded_list (coded× (coded_list coded_ℕ) tree.the_row.coded)) };

    ghost view = { λ table. (string_bytes table.name, pairs_of_entries table.trees.entries) };
}

impl Table {
    /// A table with one pair.
    pub(crate) fn with_pair(
        alloc: Global,
        name: &str,
        key: &str,
        tree: Tree,
    ) -> Result<Table, AllocError>
        ensures { IfOk result (λ table. table ≡ (name.now, (key.now, tree) ∷ [])) }
    {
        let name = String::from_str(alloc, name)?;
        let mut trees = BTreeMap::new(alloc);
        trees.insert(String::from_str(alloc, key)?, tree)?;
        Ok(Table { name, trees })
    }

    /// A table equal to this one.
    pub(crate) fn copy(&self, alloc: Global) -> Result<Table, AllocError>
        ensures { IfOk result (λ copy. copy ≡ self.now) }
    {
        let mut copy = Table {
            name: String::from_str(alloc, self.name.as_str())?,
            trees: BTreeMap::new(alloc),
        };
        for (key, tree) in &self.trees {
            copy.put(alloc, key.as_str(), tree.copy(alloc)?)?;
        }
        Ok(copy)
    }

    // Puts a tree at a key.
    fn put(&mut self, alloc: Global, key: &str, tree: Tree) -> Result<(), AllocError>
        ensures { OnOk result (self.new ≡ (self.old.0, pairs_with key.now tree self.old.1)) }
    {
        self.insert(alloc, key, tree)?;
        Ok(())
    }

    pub(crate) fn is_named(&self, name: &str) -> bool
        ensures { result ≡ bytes_eq name.now self.now.0 }
    {
        name == self.name.as_str()
    }

    /// The tree of a key.
    pub(crate) fn get(&self, key: &str) -> Option<&Tree>
        ensures { option_map (λ tree. tree.now) result ≡ tree_at key.now self.now.1 }
    {
        self.trees.get(key)
    }

    /// The number of its keys, which ascend.
    pub(crate) fn count(&self) -> usize
        ensures number { result ≡ length self.now.1 }
        ensures ascends { Ascend self.now.1 }
    {
        self.trees.len()
    }

    /// Puts a tree at a key, and returns the tree that was there.
    pub(crate) fn insert(
        &mut self,
        alloc: Global,
        key: &str,
        tree: Tree,
    ) -> Result<Option<Tree>, AllocError>
        ensures ok { OnOk result (self.new ≡ (self.old.0, pairs_with key.now tree self.old.1)) }
        ensures replaced { IfOk result (λ old. old ≡ tree_at key.now self.old.1) }
        ensures err { OnErr result (self.new ≡ self.old) }
    {
        let key = String::from_str(alloc, key)?;
        Ok(self.trees.insert(key, tree)?)
    }

    /// Takes out the pair of a key, and returns its tree.
    pub(crate) fn remove(&mut self, key: &str) -> Option<Tree>
        ensures removed { result ≡ tree_at key.now self.old.1 }
        ensures left { self.new ≡ (self.old.0, pairs_without key.now self.old.1) }
        ensures absent { result ≡ None → self.new ≡ self.old }
    {
        self.trees.remove(key)
    }

    /// The first pairs, so many at most.
    pub(crate) fn first(&self, alloc: Global, count: usize) -> Result<List<Pair>, AllocError>
        ensures ascends { Ascend self.now.1 }
        ensures pairs { IfOk result (λ pairs. pairs ≡ map pair_of (take count self.now.1)) }
        ensures none { take count self.now.1 ≡ [] → IsOk result }
    {
        copy_pairs(alloc, self.trees.range(..), count)
    }

    /// The first pairs whose key is greater, so many at most.
    pub(crate) fn after(
        &self,
        alloc: Global,
        key: &str,
        count: usize,
    ) -> Result<List<Pair>, AllocError>
        ensures ascends { OnOk result (Ascend self.now.1) }
        ensures pairs { IfOk result (λ pairs. pairs
            ≡ map pair_of (take count (pairs_above key.now self.now.1))) }
    {
        let key = String::from_str(alloc, key)?;
        copy_pairs(
            alloc,
            self.trees.range((Bound::Excluded(key), Bound::Unbounded)),
            count,
        )
    }
}

// Copies of the first entries, so many at most.
fn copy_pairs(
    alloc: Global,
    entries: Range<'_, String, Tree>,
    count: usize,
) -> Result<List<Pair>, AllocError>
    ensures pairs { IfOk result (λ pairs. pairs ≡ map pair_of (take count (pairs_of_entries entries.entry))) }
    ensures none { take count (pairs_of_entries entries.entry) ≡ [] → IsOk result }
{
    let mut pairs = List::new(alloc);
    for (key, value) in entries.take(count) {
        let key = Text::from_str(alloc, key.as_str())?;
        let value = value.copy(alloc)?;
        pairs.push(Pair { key, value })?;
    }
    Ok(pairs)
}
