ghost use Rattle.std.specs.Prelude.{◌≡◌, ◌<◌, [], ◌∷◌, codes, IfOk};
ghost use Rattle.descriptors.specs.declared.tree.Tree.TheVariants as trees;
ghost use Rattle.api_types.specs.Types.{FitsOne};
ghost use Rattle.own_types.specs.Colors.{color_desc, color_definition, color_place, color_tree};

use api_types::{ApiType, add_all};
use schema_values::{Boxed, List, Text};
use std::alloc::{AllocError, Global};
use typed_values::{AddError, Definition, Desc, DescTable, Named, Tree};

/// One of three colors.
#[derive(Clone, Copy, Debug, PartialEq, Eq, Drop)]
pub enum Color {
    /// The name `red`.
    Red,
    /// The name `green`.
    Green,
    /// The name `blue`.
    Blue,
}

impl Color {
    fn place(&self) -> u32
        ensures is { result ≡ color_place self.now }
        ensures below { result < 3 }
    {
        match self {
            Color::Red => 0,
            Color::Green => 1,
            Color::Blue => 2,
        }
    }
}

impl ApiType for Color {
    ghost name_of = { codes "Color" };

    ghost desc_of = { color_desc };

    ghost definitions_of = { color_definition ∷ [] };

    ghost tree_of = { color_tree };

    fn type_name(alloc: Global) -> Result<Text, AllocError> {
        Text::from_ascii(alloc, "Color")
    }

    fn descriptor(alloc: Global) -> Result<Desc, AllocError> {
        Ok(Desc::Ref(Text::from_ascii(alloc, "Color")?))
    }

    fn reach() {}

    fn add_definitions(alloc: Global, table: &mut DescTable) -> Result<(), AddError> {
        add_all(alloc, table, &[definition(alloc)?])
    }

    fn to_tree(&self, alloc: Global) -> Result<Tree, AllocError> {
        Ok(Tree::Variant(self.place(), Boxed::new(alloc, Tree::Unit)?))
    }

    fn fits(&self) {
        let _ = self.place();
    }

    fn from_tree(_alloc: Global, tree: &Tree) -> Result<Color, AllocError> {
        Ok(match place_in(tree) {
            0 => Color::Red,
            1 => Color::Green,
            _ => Color::Blue,
        })
    }
}

fn place_in(tree: &Tree) -> u32
    requires { FitsOne (color_definition ∷ []) color_desc tree.now }
    ensures is { tree.now ≡ trees.Variant result trees.Unit }
    ensures below { result < 3 }
{
    match tree {
        Tree::Variant(place, _) => *place,
        _ => unreachable!(),
    }
}

fn definition(alloc: Global) -> Result<Definition, AllocError>
    ensures { IfOk result (λ made. made ≡ color_definition) }
{
    let mut names = List::new(alloc);
    names.push(Named {
        name: Text::from_ascii(alloc, "red")?,
        description: None,
    })?;
    names.push(Named {
        name: Text::from_ascii(alloc, "green")?,
        description: Some(Text::from_ascii(alloc, "as grass")?),
    })?;
    names.push(Named {
        name: Text::from_ascii(alloc, "blue")?,
        description: None,
    })?;
    Ok(Definition {
        name: Text::from_ascii(alloc, "Color")?,
        description: None,
        desc: Desc::Enumeration { names },
    })
}
