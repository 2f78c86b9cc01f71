ghost use Rattle.std.specs.Prelude.{[], codes, None};
ghost use Rattle.descriptors.specs.declared.desc.Desc.TheVariants as descs;
ghost use Rattle.descriptors.specs.declared.desc.IntKind.TheVariants as kinds;
ghost use Rattle.descriptors.specs.declared.tree.Tree.TheVariants as trees;

use crate::api_type::ApiType;
use crate::number::{number_desc, number_fits, number_in, number_reach};
use schema_values::Text;
use std::alloc::{AllocError, Global};
use typed_values::{AddError, Desc, DescTable, IntKind, Tree};

impl ApiType for i8 {
    ghost name_of = { codes "int8" };

    ghost desc_of = { descs.Int kinds.I8 None None };

    ghost definitions_of = { [] };

    ghost tree_of = { λ number. trees.Int number };

    fn type_name(alloc: Global) -> Result<Text, AllocError> {
        Text::from_ascii(alloc, "int8")
    }

    fn descriptor(_alloc: Global) -> Result<Desc, AllocError> {
        Ok(number_desc(IntKind::I8))
    }

    fn reach() {
        number_reach(IntKind::I8);
    }

    fn add_definitions(_alloc: Global, _table: &mut DescTable) -> Result<(), AddError> {
        Ok(())
    }

    fn to_tree(&self, _alloc: Global) -> Result<Tree, AllocError> {
        Ok(Tree::Int(i128::from(*self)))
    }

    fn fits(&self) {
        number_fits(IntKind::I8, i128::from(*self));
    }

    fn from_tree(_alloc: Global, tree: &Tree) -> Result<i8, AllocError> {
        Ok(number_in(IntKind::I8, tree) as i8)
    }
}

impl ApiType for i16 {
    ghost name_of = { codes "int16" };

    ghost desc_of = { descs.Int kinds.I16 None None };

    ghost definitions_of = { [] };

    ghost tree_of = { λ number. trees.Int number };

    fn type_name(alloc: Global) -> Result<Text, AllocError> {
        Text::from_ascii(alloc, "int16")
    }

    fn descriptor(_alloc: Global) -> Result<Desc, AllocError> {
        Ok(number_desc(IntKind::I16))
    }

    fn reach() {
        number_reach(IntKind::I16);
    }

    fn add_definitions(_alloc: Global, _table: &mut DescTable) -> Result<(), AddError> {
        Ok(())
    }

    fn to_tree(&self, _alloc: Global) -> Result<Tree, AllocError> {
        Ok(Tree::Int(i128::from(*self)))
    }

    fn fits(&self) {
        number_fits(IntKind::I16, i128::from(*self));
    }

    fn from_tree(_alloc: Global, tree: &Tree) -> Result<i16, AllocError> {
        Ok(number_in(IntKind::I16, tree) as i16)
    }
}

impl ApiType for i32 {
    ghost name_of = { codes "int32" };

    ghost desc_of = { descs.Int kinds.I32 None None };

    ghost definitions_of = { [] };

    ghost tree_of = { λ number. trees.Int number };

    fn type_name(alloc: Global) -> Result<Text, AllocError> {
        Text::from_ascii(alloc, "int32")
    }

    fn descriptor(_alloc: Global) -> Result<Desc, AllocError> {
        Ok(number_desc(IntKind::I32))
    }

    fn reach() {
        number_reach(IntKind::I32);
    }

    fn add_definitions(_alloc: Global, _table: &mut DescTable) -> Result<(), AddError> {
        Ok(())
    }

    fn to_tree(&self, _alloc: Global) -> Result<Tree, AllocError> {
        Ok(Tree::Int(i128::from(*self)))
    }

    fn fits(&self) {
        number_fits(IntKind::I32, i128::from(*self));
    }

    fn from_tree(_alloc: Global, tree: &Tree) -> Result<i32, AllocError> {
        Ok(number_in(IntKind::I32, tree) as i32)
    }
}

impl ApiType for i64 {
    ghost name_of = { codes "int64" };

    ghost desc_of = { descs.Int kinds.I64 None None };

    ghost definitions_of = { [] };

    ghost tree_of = { λ number. trees.Int number };

    fn type_name(alloc: Global) -> Result<Text, AllocError> {
        Text::from_ascii(alloc, "int64")
    }

    fn descriptor(_alloc: Global) -> Result<Desc, AllocError> {
        Ok(number_desc(IntKind::I64))
    }

    fn reach() {
        number_reach(IntKind::I64);
    }

    fn add_definitions(_alloc: Global, _table: &mut DescTable) -> Result<(), AddError> {
        Ok(())
    }

    fn to_tree(&self, _alloc: Global) -> Result<Tree, AllocError> {
        Ok(Tree::Int(i128::from(*self)))
    }

    fn fits(&self) {
        number_fits(IntKind::I64, i128::from(*self));
    }

    fn from_tree(_alloc: Global, tree: &Tree) -> Result<i64, AllocError> {
        Ok(number_in(IntKind::I64, tree) as i64)
    }
}
