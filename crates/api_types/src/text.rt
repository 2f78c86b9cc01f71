ghost use Rattle.std.specs.Prelude.{◌≡◌, [], ◌∷◌, codes, None, length};
ghost use Rattle.descriptors.specs.declared.desc.Desc.TheVariants as descs;
ghost use Rattle.descriptors.specs.declared.tree.Tree.TheVariants as trees;
ghost use Rattle.api_types.specs.Types.{FitsOne};

use crate::api_type::ApiType;
use schema_values::Text;
use std::alloc::{AllocError, Global};
use typed_values::{AddError, Desc, DescTable, Tree};

impl ApiType for Text {
    ghost name_of = { codes "String" };

    ghost desc_of = { descs.Text None None None };

    ghost definitions_of = { [] };

    ghost tree_of = { λ text. trees.Text text };

    fn type_name(alloc: Global) -> Result<Text, AllocError> {
        Text::from_ascii(alloc, "String")
    }

    fn descriptor(_alloc: Global) -> Result<Desc, AllocError> {
        Ok(Desc::Text {
            min: None,
            max: None,
            format: None,
        })
    }

    fn reach() {}

    fn add_definitions(_alloc: Global, _table: &mut DescTable) -> Result<(), AddError> {
        Ok(())
    }

    fn to_tree(&self, alloc: Global) -> Result<Tree, AllocError> {
        Ok(Tree::Text(self.copy(alloc)?))
    }

    fn fits(&self) {}

    fn from_tree(alloc: Global, tree: &Tree) -> Result<Text, AllocError> {
        text_in(tree).copy(alloc)
    }
}

fn text_in(tree: &Tree) -> &Text
    requires { FitsOne [] (descs.Text None None None) tree.now }
    ensures { tree.now ≡ trees.Text result.now }
{
    match tree {
        Tree::Text(text) => text,
        _ => unreachable!(),
    }
}

impl ApiType for char {
    ghost name_of = { codes "Character" };

    ghost desc_of = { descs.Char };

    ghost definitions_of = { [] };

    ghost tree_of = { λ character. trees.Text (character ∷ []) };

    fn type_name(alloc: Global) -> Result<Text, AllocError> {
        Text::from_ascii(alloc, "Character")
    }

    fn descriptor(_alloc: Global) -> Result<Desc, AllocError> {
        Ok(Desc::Char)
    }

    fn reach() {}

    fn add_definitions(_alloc: Global, _table: &mut DescTable) -> Result<(), AddError> {
        Ok(())
    }

    fn to_tree(&self, alloc: Global) -> Result<Tree, AllocError> {
        let mut text = Text::new(alloc);
        text.push(*self)?;
        Ok(Tree::Text(text))
    }

    fn fits(&self) {}

    fn from_tree(_alloc: Global, tree: &Tree) -> Result<char, AllocError> {
        Ok(character_in(tree))
    }
}

fn character_in(tree: &Tree) -> char
    requires { FitsOne [] descs.Char tree.now }
    ensures { tree.now ≡ trees.Text (result ∷ []) }
{
    match tree {
        Tree::Text(text) => only_character(text),
        _ => unreachable!(),
    }
}

fn only_character(text: &Text) -> char
    requires { length text.now ≡ 1 }
    ensures { text.now ≡ result ∷ [] }
{
    match text.as_str().chars().next() {
        Some(character) => character,
        None => unreachable!(),
    }
}
