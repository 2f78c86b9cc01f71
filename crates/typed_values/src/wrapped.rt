// Trees that hold one tree.
ghost use Rattle.std.specs.Prelude.{◌<◌, ◌^◌, Ok};
ghost use Rattle.typed_values.specs.Answer.{Tells};
ghost use Rattle.typed_values.specs.Denotes.{Told, chosen, just};

use crate::fault::Stop;
use descriptors::Tree;
use schema_values::Boxed;
use std::alloc::Global;

/// The value of an option, or of a field that may be absent.
pub(crate) fn some(alloc: Global, tree: Tree) -> Result<Tree, Stop>
    ensures { Tells result (Ok (Tree.Some tree)) }
{
    Ok(Tree::Some(Boxed::new(alloc, tree)?))
}

/// The same of an answer: a fault stays as it is.
pub(crate) fn in_some(alloc: Global, answer: Result<Tree, Stop>) -> Result<Tree, Stop>
    ensures { (told : Told) → Tells answer told → Tells result (just told) }
{
    some(alloc, answer?)
}

/// The value of an alternative, a name or a variant.
pub(crate) fn variant(alloc: Global, place: usize, tree: Tree) -> Result<Tree, Stop>
    requires { place < 2 ^ 32 }
    ensures { Tells result (Ok (Tree.Variant place tree)) }
{
    Ok(Tree::Variant(place as u32, Boxed::new(alloc, tree)?))
}

/// The same of an answer: a fault stays as it is.
pub(crate) fn in_variant(
    alloc: Global,
    place: usize,
    answer: Result<Tree, Stop>,
) -> Result<Tree, Stop>
    requires { place < 2 ^ 32 }
    ensures { (told : Told) → Tells answer told → Tells result (chosen place told) }
{
    variant(alloc, place, answer?)
}
