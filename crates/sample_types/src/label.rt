//! Labels of points.
ghost use Rattle.std.specs.Prelude.{◌≡◌, [], codes, if◌then◌else◌, Err, IsTrue, Ok};
ghost use Rattle.descriptors.specs.declared.tree.Tree.TheVariants as trees;
ghost use Rattle.api_types.specs.Types.{FitsOne};
ghost use Rattle.sample_types.specs.Labels.{is_label, label_desc};

use api_types::ApiType;
use schema_values::Text;
use std::alloc::{AllocError, Global};
use std::marker::Model;
use typed_values::{AddError, Desc, DescTable, Tree};

/// A text of at least one character.
#[derive(Drop)]
pub struct PointLabel {
    text: Text,
}

impl Model for PointLabel {
    ghost use Rattle.std.specs.Prelude.{List, ℕ, IsTrue};
    ghost use Rattle.sample_types.specs.Labels.{is_label};

    ghost Value = { List ℕ };

    ghost view = { λ label. label.text };

    ghost invariant = { λ label. IsTrue (is_label label.text) };
}

impl PointLabel {
    /// The label of a text. An empty one is handed back. It takes no memory.
    pub fn new(text: Text) -> Result<PointLabel, Text>
        ensures { result ≡ (if is_label text then Ok text else Err text) }
    {
        if text.is_empty() {
            Err(text)
        } else {
            Ok(PointLabel { text })
        }
    }

    /// The text of the label.
    pub fn text(&self) -> &Text
        ensures is { result.now ≡ self.now }
        ensures right { IsTrue (is_label self.now) }
    {
        &self.text
    }
}

impl ApiType for PointLabel {
    ghost name_of = { codes "PointLabel" };

    ghost desc_of = { label_desc };

    ghost definitions_of = { [] };

    ghost tree_of = { λ text. trees.Text text };

    fn type_name(alloc: Global) -> Result<Text, AllocError> {
        Text::from_ascii(alloc, "PointLabel")
    }

    fn descriptor(_alloc: Global) -> Result<Desc, AllocError> {
        Ok(Desc::Text {
            min: Some(1),
            max: None,
            format: None,
        })
    }

    fn reach() {}

    fn add_definitions(_alloc: Global, _table: &mut DescTable) -> Result<(), AddError> {
        Ok(())
    }

    fn to_tree(&self, alloc: Global) -> Result<Tree, AllocError> {
        Ok(Tree::Text(self.text().copy(alloc)?))
    }

    fn fits(&self) {
        let _ = self.text();
    }

    fn from_tree(alloc: Global, tree: &Tree) -> Result<PointLabel, AllocError> {
        Ok(PointLabel {
            text: label_in(tree).copy(alloc)?,
        })
    }
}

/// The text in the tree of a label. It takes no memory.
pub(crate) fn label_in(tree: &Tree) -> &Text
    requires { FitsOne [] label_desc tree.now }
    ensures is { tree.now ≡ trees.Text result.now }
    ensures right { IsTrue (is_label result.now) }
{
    match tree {
        Tree::Text(text) => text,
        // Another tree does not fit.
        _ => unreachable!(),
    }
}
