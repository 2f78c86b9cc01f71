//! Trees of fields, one behind another.
ghost use Rattle.std.specs.Prelude.{◌≡◌, ◌++◌, ◌∷◌, [], OnOk};

use api_types::ApiType;
use schema_values::List;
use std::alloc::{AllocError, Global};
use typed_values::Tree;

/// Puts the tree of a value behind others.
pub fn push_tree<T: ApiType>(
    alloc: Global,
    trees: &mut List<Tree>,
    value: &T,
) -> Result<(), AllocError>
    ensures { OnOk result (trees.new ≡ trees.old ++ T.tree_of value.now ∷ []) }
{
    trees.push(value.to_tree(alloc)?)
}
