ghost use Rattle.std.specs.Prelude.{pos, [], codes, None};
ghost use Rattle.descriptors.specs.declared.desc.Desc.TheVariants as descs;
ghost use Rattle.descriptors.specs.declared.desc.IntKind.TheVariants as kinds;
ghost use Rattle.descriptors.specs.declared.tree.Tree.TheVariants as trees;

use crate::api_type::ApiType;
use crate::number::{number_desc, number_fits, number_in, number_reach};
use schema_values::Text;
use std::alloc::{AllocError, Global};
use typed_values::{AddError, Desc, DescTable, IntKind, Tree};

impl ApiType for u8 {
    ghost name_of = { codes "uint8" };

    ghost desc_of = { descs.Int kinds.U8 None None };

    ghost definitions_of = { [] };

    ghost tree_of = { λ number. trees.Int (pos number) };

    fn type_name(alloc: Global) -> Result<Text, AllocError> {
        Text::from_ascii(alloc, "uint8")
    }

    fn descriptor(_alloc: Global) -> Result<Desc, AllocError> {
        Ok(number_desc(IntKind::U8))
    }

    fn reach() {
        number_reach(IntKind::U8);
    }

    fn add_definitions(_alloc: Global, _table: &mut DescTable) -> Result<(), AddError> {
        Ok(())
    }

    fn to_tree(&self, _alloc: Global) -> Result<Tree, AllocError> {
        Ok(Tree::Int(i128::from(*self)))
    }

    fn fits(&self) {
        number_fits(IntKind::U8, i128::from(*self));
    }

    fn from_tree(_alloc: Global, tree: &Tree) -> Result<u8, AllocError> {
        Ok(number_in(IntKind::U8, tree) as u8)
    }
}

impl ApiType for u16 {
    ghost name_of = { codes "uint16" };

    ghost desc_of = { descs.Int kinds.U16 None None };

    ghost definitions_of = { [] };

    ghost tree_of = { λ number. trees.Int (pos number) };

    fn type_name(alloc: Global) -> Result<Text, AllocError> {
        Text::from_ascii(alloc, "uint16")
    }

    fn descriptor(_alloc: Global) -> Result<Desc, AllocError> {
        Ok(number_desc(IntKind::U16))
    }

    fn reach() {
        number_reach(IntKind::U16);
    }

    fn add_definitions(_alloc: Global, _table: &mut DescTable) -> Result<(), AddError> {
        Ok(())
    }

    fn to_tree(&self, _alloc: Global) -> Result<Tree, AllocError> {
        Ok(Tree::Int(i128::from(*self)))
    }

    fn fits(&self) {
        number_fits(IntKind::U16, i128::from(*self));
    }

    fn from_tree(_alloc: Global, tree: &Tree) -> Result<u16, AllocError> {
        Ok(number_in(IntKind::U16, tree) as u16)
    }
}

impl ApiType for u32 {
    ghost name_of = { codes "uint32" };

    ghost desc_of = { descs.Int kinds.U32 None None };

    ghost definitions_of = { [] };

    ghost tree_of = { λ number. trees.Int (pos number) };

    fn type_name(alloc: Global) -> Result<Text, AllocError> {
        Text::from_ascii(alloc, "uint32")
    }

    fn descriptor(_alloc: Global) -> Result<Desc, AllocError> {
        Ok(number_desc(IntKind::U32))
    }

    fn reach() {
        number_reach(IntKind::U32);
    }

    fn add_definitions(_alloc: Global, _table: &mut DescTable) -> Result<(), AddError> {
        Ok(())
    }

    fn to_tree(&self, _alloc: Global) -> Result<Tree, AllocError> {
        Ok(Tree::Int(i128::from(*self)))
    }

    fn fits(&self) {
        number_fits(IntKind::U32, i128::from(*self));
    }

    fn from_tree(_alloc: Global, tree: &Tree) -> Result<u32, AllocError> {
        Ok(number_in(IntKind::U32, tree) as u32)
    }
}

impl ApiType for u64 {
    ghost name_of = { codes "uint64" };

    ghost desc_of = { descs.Int kinds.U64 None None };

    ghost definitions_of = { [] };

    ghost tree_of = { λ number. trees.Int (pos number) };

    fn type_name(alloc: Global) -> Result<Text, AllocError> {
        Text::from_ascii(alloc, "uint64")
    }

    fn descriptor(_alloc: Global) -> Result<Desc, AllocError> {
        Ok(number_desc(IntKind::U64))
    }

    fn reach() {
        number_reach(IntKind::U64);
    }

    fn add_definitions(_alloc: Global, _table: &mut DescTable) -> Result<(), AddError> {
        Ok(())
    }

    fn to_tree(&self, _alloc: Global) -> Result<Tree, AllocError> {
        Ok(Tree::Int(i128::from(*self)))
    }

    fn fits(&self) {
        number_fits(IntKind::U64, i128::from(*self));
    }

    fn from_tree(_alloc: Global, tree: &Tree) -> Result<u64, AllocError> {
        Ok(number_in(IntKind::U64, tree) as u64)
    }
}
