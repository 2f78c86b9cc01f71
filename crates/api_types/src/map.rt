ghost use Rattle.std.specs.Prelude.{◌≡◌, ◌++◌, codes, map, IfOk, IsTrue};
ghost use Rattle.std.specs.List.{AllByRecursion};
ghost use Rattle.descriptors.specs.declared.desc.Desc.TheVariants as descs;
ghost use Rattle.descriptors.specs.declared.tree.Tree.TheVariants as trees;
ghost use Rattle.typed_values.specs.Fits.{are_ascending, key_of};
ghost use Rattle.api_types.specs.Maps.{pair_of, value_of};
ghost use Rattle.api_types.specs.Types.{FitsEach, FitsOne};

use crate::api_type::ApiType;
use schema_values::{Boxed, List, Text};
use std::alloc::{AllocError, Global};
use std::collections::BTreeMap;
use typed_values::{AddError, Desc, DescTable, Pair, Tree};

impl<T: ApiType> ApiType for BTreeMap<Text, T> {
    ghost name_of = { codes "Map_of_" ++ T.name_of };

    ghost desc_of = { descs.Map T.desc_of };

    ghost definitions_of = { T.definitions_of };

    ghost tree_of = { λ values. trees.Map (map (pair_of T.tree_of) values.entries) };

    fn type_name(alloc: Global) -> Result<Text, AllocError> {
        let mut name = Text::from_ascii(alloc, "Map_of_")?;
        name.push_text(&T::type_name(alloc)?)?;
        Ok(name)
    }

    fn descriptor(alloc: Global) -> Result<Desc, AllocError> {
        Ok(Desc::Map(Boxed::new(alloc, T::descriptor(alloc)?)?))
    }

    fn reach() {
        T::reach();
    }

    fn add_definitions(alloc: Global, table: &mut DescTable) -> Result<(), AddError> {
        T::add_definitions(alloc, table)
    }

    fn to_tree(&self, alloc: Global) -> Result<Tree, AllocError> {
        Ok(Tree::Map(pairs_of(alloc, self)?))
    }

    fn fits(&self) {
        all_fit(self);
    }

    fn from_tree(alloc: Global, tree: &Tree) -> Result<BTreeMap<Text, T>, AllocError> {
        match tree {
            Tree::Map(pairs) => map_of(alloc, pairs.as_slice()),
            _ => unreachable!(),
        }
    }
}

fn pairs_of<T: ApiType>(alloc: Global, values: &BTreeMap<Text, T>) -> Result<List<Pair>, AllocError>
    ensures { IfOk result (λ pairs. pairs ≡ map (pair_of T.tree_of) values.now.entries) }
{
    let mut pairs = List::new(alloc);
    for (key, value) in values.iter() {
        let key = key.copy(alloc)?;
        let value = value.to_tree(alloc)?;
        pairs.push(Pair { key, value })?;
    }
    Ok(pairs)
}

fn all_fit<T: ApiType>(values: &BTreeMap<Text, T>)
    ensures ascending { IsTrue (are_ascending (map key_of (map (pair_of T.tree_of) values.now.entries))) }
    ensures fit { AllByRecursion (λ pair. FitsEach T.definitions_of T.desc_of (value_of pair))
        (map (pair_of T.tree_of) values.now.entries) }
{
    for (key, value) in values.iter() {
        let _ = key;
        value.fits();
    }
}

fn map_of<T: ApiType>(alloc: Global, pairs: &[Pair]) -> Result<BTreeMap<Text, T>, AllocError>
    requires ascending { IsTrue (are_ascending (map key_of pairs.now)) }
    requires fit { AllByRecursion (λ pair. FitsOne T.definitions_of T.desc_of (value_of pair)) pairs.now }
    ensures { IfOk result (λ values. map (pair_of T.tree_of) values.entries ≡ pairs.now) }
{
    let mut values = BTreeMap::new(alloc);
    for pair in pairs {
        let value = T::from_tree(alloc, &pair.value)?;
        values.insert(pair.key.copy(alloc)?, value)?;
    }
    Ok(values)
}
