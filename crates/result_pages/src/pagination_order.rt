ghost use Rattle.std.specs.Prelude.{◌≡◌, ◌<◌, [], ◌∷◌, codes, IfOk};
ghost use Rattle.descriptors.specs.declared.tree.Tree.TheVariants as trees;
ghost use Rattle.api_types.specs.Types.{FitsOne};
ghost use Rattle.result_pages.specs.Orders.{order_definition, order_desc, order_place, order_tree};

use api_types::{ApiType, add_all};
use schema_values::{Boxed, List, Text};
use std::alloc::{AllocError, Global};
use typed_values::{AddError, Definition, Desc, DescTable, Named, Tree};

/// The order in which a client pages through a collection. Its JSON is its name in lower case.
#[derive(Clone, Copy, Debug, PartialEq, Eq, Drop)]
pub enum PaginationOrder {
    /// The name `ascending`: the least first.
    Ascending,
    /// The name `descending`: the greatest first.
    Descending,
}

impl PaginationOrder {
    fn place(&self) -> u32
        ensures is { result ≡ order_place self.now }
        ensures below { result < 2 }
    {
        match self {
            PaginationOrder::Ascending => 0,
            PaginationOrder::Descending => 1,
        }
    }
}

impl ApiType for PaginationOrder {
    ghost name_of = { codes "PaginationOrder" };

    ghost desc_of = { order_desc };

    ghost definitions_of = { order_definition ∷ [] };

    ghost tree_of = { order_tree };

    fn type_name(alloc: Global) -> Result<Text, AllocError> {
        Text::from_ascii(alloc, "PaginationOrder")
    }

    fn descriptor(alloc: Global) -> Result<Desc, AllocError> {
        Ok(Desc::Ref(Text::from_ascii(alloc, "PaginationOrder")?))
    }

    fn reach() {}

    fn add_definitions(alloc: Global, table: &mut DescTable) -> Result<(), AddError> {
        add_all(alloc, table, &[definition(alloc)?])
    }

    fn to_tree(&self, alloc: Global) -> Result<Tree, AllocError> {
        Ok(Tree::Variant(self.place(), Boxed::new(alloc, Tree::Unit)?))
    }

    fn fits(&self) {
        let _ = self.place();
    }

    fn from_tree(_alloc: Global, tree: &Tree) -> Result<PaginationOrder, AllocError> {
        Ok(match place_in(tree) {
            0 => PaginationOrder::Ascending,
            _ => PaginationOrder::Descending,
        })
    }
}

fn place_in(tree: &Tree) -> u32
    requires { FitsOne (order_definition ∷ []) order_desc tree.now }
    ensures is { tree.now ≡ trees.Variant result trees.Unit }
    ensures below { result < 2 }
{
    match tree {
        Tree::Variant(place, _) => *place,
        _ => unreachable!(),
    }
}

fn definition(alloc: Global) -> Result<Definition, AllocError>
    ensures { IfOk result (λ made. made ≡ order_definition) }
{
    let mut names = List::new(alloc);
    names.push(Named {
        name: Text::from_ascii(alloc, "ascending")?,
        description: None,
    })?;
    names.push(Named {
        name: Text::from_ascii(alloc, "descending")?,
        description: None,
    })?;
    let description =
        "The order in which the client wants to page through the requested collection";
    Ok(Definition {
        name: Text::from_ascii(alloc, "PaginationOrder")?,
        description: Some(Text::from_ascii(alloc, description)?),
        desc: Desc::Enumeration { names },
    })
}
