ghost use Rattle.std.specs.Prelude.{◌≡◌, ◌++◌, codes, map, None, IfOk};
ghost use Rattle.std.specs.List.{AllByRecursion};
ghost use Rattle.descriptors.specs.declared.desc.Desc.TheVariants as descs;
ghost use Rattle.descriptors.specs.declared.tree.Tree.TheVariants as trees;
ghost use Rattle.api_types.specs.Types.{FitsEach, FitsOne};

use crate::api_type::ApiType;
use schema_values::{Boxed, List, Text};
use std::alloc::{AllocError, Global};
use typed_values::{AddError, Desc, DescTable, Tree};

impl<T: ApiType> ApiType for List<T> {
    ghost name_of = { codes "Array_of_" ++ T.name_of };

    ghost desc_of = { descs.List T.desc_of None None };

    ghost definitions_of = { T.definitions_of };

    ghost tree_of = { λ items. trees.List (map T.tree_of items) };

    fn type_name(alloc: Global) -> Result<Text, AllocError> {
        let mut name = Text::from_ascii(alloc, "Array_of_")?;
        name.push_text(&T::type_name(alloc)?)?;
        Ok(name)
    }

    fn descriptor(alloc: Global) -> Result<Desc, AllocError> {
        Ok(Desc::List {
            item: Boxed::new(alloc, T::descriptor(alloc)?)?,
            min: None,
            max: None,
        })
    }

    fn reach() {
        T::reach();
    }

    fn add_definitions(alloc: Global, table: &mut DescTable) -> Result<(), AddError> {
        T::add_definitions(alloc, table)
    }

    fn to_tree(&self, alloc: Global) -> Result<Tree, AllocError> {
        Ok(Tree::List(trees_of(alloc, self.as_slice())?))
    }

    fn fits(&self) {
        all_fit(self.as_slice());
    }

    fn from_tree(alloc: Global, tree: &Tree) -> Result<List<T>, AllocError> {
        match tree {
            Tree::List(trees) => values_of(alloc, trees.as_slice()),
            _ => unreachable!(),
        }
    }
}

fn trees_of<T: ApiType>(alloc: Global, values: &[T]) -> Result<List<Tree>, AllocError>
    ensures { IfOk result (λ trees. trees ≡ map T.tree_of values.now) }
{
    let mut trees = List::new(alloc);
    for value in values {
        trees.push(value.to_tree(alloc)?)?;
    }
    Ok(trees)
}

fn all_fit<T: ApiType>(values: &[T])
    ensures { AllByRecursion (FitsEach T.definitions_of T.desc_of) (map T.tree_of values.now) }
{
    for value in values {
        value.fits();
    }
}

fn values_of<T: ApiType>(alloc: Global, trees: &[Tree]) -> Result<List<T>, AllocError>
    requires { AllByRecursion (FitsOne T.definitions_of T.desc_of) trees.now }
    ensures { IfOk result (λ values. map T.tree_of values ≡ trees.now) }
{
    let mut values = List::new(alloc);
    for tree in trees {
        values.push(T::from_tree(alloc, tree)?)?;
    }
    Ok(values)
}
