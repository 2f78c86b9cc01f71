//! Ordered tables of trees, by name.
ghost use Rattle.std.specs.Prelude.{◌≡◌, [], IfOk, IsOk, IsSome, None, OnErr, OnOk, bytes_eq, length, map};
ghost use Rattle.std.specs.Prelude.{option_map, take};
ghost use Rattle.std.specs.List.{position};
ghost use Rattle.tree_store.specs.Tables.{Ascend, IsAbsent, changed, pair_of, pairs_above};
ghost use Rattle.tree_store.specs.Tables.{pairs_of, pairs_with, pairs_without, stored};

use crate::table::Table;
use descriptors::{Pair, Tree};
use schema_values::List;
use std::alloc::{AllocError, Global};
use std::marker::Model;

/// Tables by name, each with trees by key in ascending order of the keys' bytes. A table that is absent is an
/// empty one.
///
/// Contracts see a name and a key as their bytes in UTF-8. A table is found by a walk over the tables, and a
/// key in time logarithmic in the number of the table's keys.
#[derive(Drop)]
pub struct Store {
    alloc: Global,
    tables: Vec<Table>,
}

impl Model for Store {
    ghost use Rattle.std.specs.Coded.{coded_list, coded×, coded_ℕ};
    ghost use Rattle.descriptors.specs.contracts.tree.Tree as tree;
    ghost use Rattle.tree_store.specs.Tables.{Tables};

    ghost Value = { Tables };

    ghost coded = { coded_list (coded× (coded_list coded_ℕ)
        (coded_list (coded× (coded_list coded_ℕ) tree.the_row.coded))) };

    ghost view = { λ store. store.tables.items };
}

impl Store {
    /// A store without tables.
    pub fn new(alloc: Global) -> Store
        ensures { result ≡ [] }
    {
        Store {
            alloc,
            tables: Vec::new(alloc),
        }
    }

    /// A store equal to this one. Fails only for want of memory.
    pub fn copy(&self, alloc: Global) -> Result<Store, AllocError>
        ensures { IfOk result (λ copy. copy ≡ self.now) }
    {
        let mut tables = Vec::new(alloc);
        for table in &self.tables {
            tables.push(table.copy(alloc)?)?;
        }
        Ok(Store { alloc, tables })
    }

    /// The tree of a key of a table. It takes no memory.
    pub fn get(&self, table: &str, key: &str) -> Option<&Tree>
        ensures { option_map (λ tree. tree.now) result ≡ stored table.now key.now self.now }
    {
        match place_of(self.tables.as_slice(), table) {
            Some(place) => self.tables[place].get(key),
            None => None,
        }
    }

    /// The number of keys of a table, which ascend, no two the same. It takes no memory.
    pub fn count(&self, table: &str) -> usize
        ensures number { result ≡ length (pairs_of table.now self.now) }
        ensures ascends { Ascend (pairs_of table.now self.now) }
    {
        match place_of(self.tables.as_slice(), table) {
            Some(place) => self.tables[place].count(),
            None => 0,
        }
    }

    /// Puts a tree at a key of a table, which is made where it is absent, and returns the tree that was
    /// there. Fails only for want of memory, and drops the tree then.
    pub fn insert(&mut self, table: &str, key: &str, tree: Tree) -> Result<Option<Tree>, AllocError>
        ensures ok { OnOk result (self.new ≡ changed table.now (pairs_with key.now tree) self.old) }
        ensures replaced { IfOk result (λ old. old ≡ stored table.now key.now self.old) }
        ensures err { OnErr result (self.new ≡ self.old) }
    {
        let alloc = self.alloc;
        match place_of(self.tables.as_slice(), table) {
            Some(place) => self.tables[place].insert(alloc, key, tree),
            None => {
                self.tables
                    .push(Table::with_pair(alloc, table, key, tree)?)?;
                Ok(None)
            }
        }
    }

    /// Takes out the pair of a key of a table, and returns its tree. It takes no memory.
    pub fn remove(&mut self, table: &str, key: &str) -> Option<Tree>
        ensures removed { result ≡ stored table.now key.now self.old }
        ensures left { IsSome result → self.new ≡ changed table.now (pairs_without key.now) self.old }
        ensures absent { result ≡ None → self.new ≡ self.old }
    {
        match place_of(self.tables.as_slice(), table) {
            Some(place) => self.tables[place].remove(key),
            None => None,
        }
    }

    /// The pairs of the `count` least keys of a table, fewer where it has fewer, with copies of their trees.
    /// Fails only for want of memory, and never where there are none.
    pub fn first(&self, alloc: Global, table: &str, count: u32) -> Result<List<Pair>, AllocError>
        ensures ascends { Ascend (pairs_of table.now self.now) }
        ensures pairs { IfOk result (λ pairs. pairs
            ≡ map pair_of (take count (pairs_of table.now self.now))) }
        ensures none { take count (pairs_of table.now self.now) ≡ [] → IsOk result }
    {
        match place_of(self.tables.as_slice(), table) {
            Some(place) => self.tables[place].first(alloc, count as usize),
            None => Ok(List::new(alloc)),
        }
    }

    /// The pairs of the `count` least keys of a table that are greater than this key, by their bytes, fewer
    /// where it has fewer, with copies of their trees. Fails only for want of memory, and never where the
    /// table is absent.
    pub fn after(
        &self,
        alloc: Global,
        table: &str,
        key: &str,
        count: u32,
    ) -> Result<List<Pair>, AllocError>
        ensures ascends { OnOk result (Ascend (pairs_of table.now self.now)) }
        ensures pairs { IfOk result (λ pairs. pairs
            ≡ map pair_of (take count (pairs_above key.now (pairs_of table.now self.now)))) }
        ensures absent { IsAbsent table.now self.now → IsOk result }
    {
        match place_of(self.tables.as_slice(), table) {
            Some(place) => self.tables[place].after(alloc, key, count as usize),
            None => Ok(List::new(alloc)),
        }
    }
}

// The place of the table of this name.
fn place_of(tables: &[Table], name: &str) -> Option<usize>
    ensures { result ≡ position (λ table. bytes_eq name.now table.0) tables.now }
{
    tables.iter().position(|table| table.is_named(name))
}
