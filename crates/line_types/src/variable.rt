//! What the variables of a path stand for in a line.
ghost use Rattle.std.specs.Prelude.{◌≡◌, [], codes, IfOk};
ghost use Rattle.descriptors.specs.declared.tree.Tree.TheVariants as trees;
ghost use Rattle.api_types.specs.Types.{FitsOne};
ghost use Rattle.request_lines.specs.RequestLines.{variable_desc, variable_tree};
ghost use Rattle.line_types.specs.LineTypes.{line_variable};

use crate::choice::{chosen, untagged};
use api_types::ApiType;
use schema_values::{List, Text};
use std::alloc::{AllocError, Global};
use typed_values::{AddError, Desc, DescTable, Tree};

/// What a variable of a path stands for, as it stands in a line: a text, or a list of texts.
#[derive(Drop)]
pub enum LineVariable {
    /// One component of the path.
    Text(Text),
    /// The components that are left of the path, in their order.
    Components(List<Text>),
}

impl ApiType for LineVariable {
    ghost name_of = { codes "LineVariable" };

    ghost desc_of = { variable_desc };

    ghost definitions_of = { [] };

    ghost tree_of = { λ variable. variable_tree (line_variable variable) };

    fn type_name(alloc: Global) -> Result<Text, AllocError> {
        Text::from_ascii(alloc, "LineVariable")
    }

    fn descriptor(alloc: Global) -> Result<Desc, AllocError> {
        untagged::<Text, List<Text>>(alloc)
    }

    fn reach() {}

    fn add_definitions(_alloc: Global, _table: &mut DescTable) -> Result<(), AddError> {
        Ok(())
    }

    fn to_tree(&self, alloc: Global) -> Result<Tree, AllocError> {
        match self {
            LineVariable::Text(text) => chosen(alloc, 0, text),
            LineVariable::Components(texts) => chosen(alloc, 1, texts),
        }
    }

    fn fits(&self) {
        match self {
            LineVariable::Text(text) => text.fits(),
            LineVariable::Components(texts) => texts.fits(),
        }
    }

    fn from_tree(alloc: Global, tree: &Tree) -> Result<LineVariable, AllocError> {
        match tree {
            Tree::Variant(place, value) => variable_at(alloc, *place, value.get()),
            _ => unreachable!(),
        }
    }
}

// The variable of a value whose alternative stands at a place.
fn variable_at(alloc: Global, place: u32, value: &Tree) -> Result<LineVariable, AllocError>
    requires { FitsOne [] variable_desc (trees.Variant place value.now) }
    ensures { IfOk result (λ variable. variable_tree (line_variable variable) ≡ trees.Variant place value.now) }
{
    if place == 0 {
        Ok(LineVariable::Text(Text::from_tree(alloc, value)?))
    } else {
        Ok(LineVariable::Components(<List<Text>>::from_tree(alloc, value)?))
    }
}
