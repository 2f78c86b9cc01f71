//! Choices of two types, which no tag tells apart.
ghost use Rattle.std.specs.Prelude.{◌≡◌, ◌∷◌, [], IfOk};
ghost use Rattle.descriptors.specs.declared.desc.Desc.TheVariants as descs;
ghost use Rattle.descriptors.specs.declared.tree.Tree.TheVariants as trees;

use api_types::ApiType;
use schema_values::{Boxed, List};
use std::alloc::{AllocError, Global};
use typed_values::{Desc, Tree};

/// The descriptor of a value of the first type or, where a JSON value is none, of the second.
pub(crate) fn untagged<A: ApiType, B: ApiType>(alloc: Global) -> Result<Desc, AllocError>
    ensures { IfOk result (λ desc. desc ≡ descs.Untagged (A.desc_of ∷ B.desc_of ∷ [])) }
{
    let mut alternatives = List::new(alloc);
    alternatives.push(A::descriptor(alloc)?)?;
    alternatives.push(B::descriptor(alloc)?)?;
    Ok(Desc::Untagged { alternatives })
}

/// The tree of a value whose type stands at this place of a choice.
pub(crate) fn chosen<T: ApiType>(alloc: Global, place: u32, value: &T) -> Result<Tree, AllocError>
    ensures { IfOk result (λ tree. tree ≡ trees.Variant place (T.tree_of value.now)) }
{
    Ok(Tree::Variant(place, Boxed::new(alloc, value.to_tree(alloc)?)?))
}
