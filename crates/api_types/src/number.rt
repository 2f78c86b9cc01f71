ghost use Rattle.std.specs.Prelude.{◌≡◌, ◌≤ℤ◌, [], None};
ghost use Rattle.descriptors.specs.declared.desc.Desc.TheVariants as descs;
ghost use Rattle.descriptors.specs.declared.tree.Tree.TheVariants as trees;
ghost use Rattle.typed_values.specs.Bounds.{least_of, greatest_of};
ghost use Rattle.api_types.specs.Types.{FitsEach, FitsOne, ReachesExactly};

use typed_values::{Desc, IntKind, Tree};

/// The descriptor of all numbers of a kind.
pub(crate) fn number_desc(kind: IntKind) -> Desc
    ensures { result ≡ descs.Int kind None None }
{
    Desc::Int {
        kind,
        min: None,
        max: None,
    }
}

/// Does nothing. It shows that the numbers of a kind reach no definition.
pub(crate) fn number_reach(kind: IntKind)
    ensures { ReachesExactly [] (descs.Int kind None None) }
{
    let _ = kind;
}

/// Does nothing. It shows that the tree of a number of a kind fits.
pub(crate) fn number_fits(kind: IntKind, number: i128)
    requires least { least_of kind ≤ℤ number }
    requires greatest { number ≤ℤ greatest_of kind }
    ensures { FitsEach [] (descs.Int kind None None) (trees.Int number) }
{
    let _ = kind;
    let _ = number;
}

/// The number of a tree that fits a kind.
pub(crate) fn number_in(kind: IntKind, tree: &Tree) -> i128
    requires { FitsOne [] (descs.Int kind None None) tree.now }
    ensures tree { tree.now ≡ trees.Int result }
    ensures least { least_of kind ≤ℤ result }
    ensures greatest { result ≤ℤ greatest_of kind }
{
    let _ = kind;
    match tree {
        Tree::Int(number) => *number,
        _ => unreachable!(),
    }
}
