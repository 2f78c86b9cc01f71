//! Header lines of a request line.
ghost use Rattle.std.specs.Prelude.{◌≡◌, [], codes, length};
ghost use Rattle.std.specs.List.{AllByRecursion};
ghost use Rattle.descriptors.specs.declared.tree.Tree.TheVariants as trees;
ghost use Rattle.api_types.specs.Types.{FitsOne};
ghost use Rattle.request_lines.specs.RequestLines.{any_text, line_desc, line_tree};
ghost use Rattle.line_types.specs.LineTypes.{line_header};

use api_types::ApiType;
use schema_values::{Boxed, List, Text};
use std::alloc::{AllocError, Global};
use typed_values::{AddError, Desc, DescTable, Tree};

/// A header line, which stands in a line as a list of two texts.
#[derive(Drop)]
pub struct LineHeader {
    /// The name.
    pub name: Text,
    /// The value.
    pub value: Text,
}

impl ApiType for LineHeader {
    ghost name_of = { codes "LineHeader" };

    ghost desc_of = { line_desc };

    ghost definitions_of = { [] };

    ghost tree_of = { λ header. line_tree (line_header header) };

    fn type_name(alloc: Global) -> Result<Text, AllocError> {
        Text::from_ascii(alloc, "LineHeader")
    }

    fn descriptor(alloc: Global) -> Result<Desc, AllocError> {
        Ok(Desc::List {
            item: Boxed::new(alloc, Text::descriptor(alloc)?)?,
            min: Some(2),
            max: Some(2),
        })
    }

    fn reach() {}

    fn add_definitions(_alloc: Global, _table: &mut DescTable) -> Result<(), AddError> {
        Ok(())
    }

    fn to_tree(&self, alloc: Global) -> Result<Tree, AllocError> {
        let mut texts = List::new(alloc);
        texts.push(self.name.to_tree(alloc)?)?;
        texts.push(self.value.to_tree(alloc)?)?;
        Ok(Tree::List(texts))
    }

    fn fits(&self) {
        self.name.fits();
        self.value.fits();
    }

    fn from_tree(alloc: Global, tree: &Tree) -> Result<LineHeader, AllocError> {
        match texts_in(tree) {
            [name, value] => Ok(LineHeader {
                name: Text::from_tree(alloc, name)?,
                value: Text::from_tree(alloc, value)?,
            }),
            _ => unreachable!(),
        }
    }
}

fn texts_in(tree: &Tree) -> &[Tree]
    requires { FitsOne [] line_desc tree.now }
    ensures is { tree.now ≡ trees.List result.now }
    ensures two { length result.now ≡ 2 }
    ensures fit { AllByRecursion (FitsOne [] any_text) result.now }
{
    match tree {
        Tree::List(texts) => texts.as_slice(),
        _ => unreachable!(),
    }
}
