ghost use Rattle.std.specs.Prelude.{◌≡◌, []};
ghost use Rattle.descriptors.specs.declared.desc.Desc.TheVariants as descs;
ghost use Rattle.descriptors.specs.declared.tree.Tree.TheVariants as trees;
ghost use Rattle.api_types.specs.Types.{FitsOne};

use crate::api_type::ApiType;
use schema_values::Text;
use std::alloc::{AllocError, Global};
use typed_values::{AddError, Desc, DescTable, Tree};

impl ApiType for bool {
    ghost use Rattle.std.specs.Prelude.{[], codes};
    ghost use Rattle.descriptors.specs.declared.desc.Desc.TheVariants as descs;
    ghost use Rattle.descriptors.specs.declared.tree.Tree.TheVariants as trees;

    ghost name_of = { codes "Boolean" };

    ghost desc_of = { descs.Bool };

    ghost definitions_of = { [] };

    ghost tree_of = { λ truth. trees.Bool truth };

    fn type_name(alloc: Global) -> Result<Text, AllocError> {
        Text::from_ascii(alloc, "Boolean")
    }

    fn descriptor(_alloc: Global) -> Result<Desc, AllocError> {
        Ok(Desc::Bool)
    }

    fn reach() {}

    fn add_definitions(_alloc: Global, _table: &mut DescTable) -> Result<(), AddError> {
        Ok(())
    }

    fn to_tree(&self, _alloc: Global) -> Result<Tree, AllocError> {
        Ok(Tree::Bool(*self))
    }

    fn fits(&self) {}

    fn from_tree(_alloc: Global, tree: &Tree) -> Result<bool, AllocError> {
        Ok(truth_in(tree))
    }
}

fn truth_in(tree: &Tree) -> bool
    requires { FitsOne [] descs.Bool tree.now }
    ensures { tree.now ≡ trees.Bool result }
{
    match tree {
        Tree::Bool(truth) => *truth,
        _ => unreachable!(),
    }
}
