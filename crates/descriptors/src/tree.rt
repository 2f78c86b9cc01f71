ghost use Rattle.std.specs.Prelude.{◌≡◌, IfOk};

use schema_values::{Boxed, Json, List, Text};
use std::alloc::{AllocError, Global};

/// A value of a descriptor.
#[derive(Drop, PartialEq, Eq)]
#[cycle(tree)]
pub enum Tree {
    /// The value of null, and beside its place that of a name or of a variant without payload.
    Unit,
    /// A truth value.
    Bool(bool),
    /// A whole number.
    Int(i128),
    /// A text, or one character.
    Text(Text),
    /// No value: of an option, or of a field that is absent.
    None,
    /// The value of an option, or of a field that may be absent.
    Some(Boxed<Tree>),
    /// The items in their order.
    List(List<Tree>),
    /// Keys and values. The keys of a value that fits ascend.
    Map(List<Pair>),
    /// One tree for each field, in the order in which the fields are declared.
    Fields(List<Tree>),
    /// The place of an alternative, a name or a variant, counted from 0, and its value.
    Variant(u32, Boxed<Tree>),
    /// Any JSON value. That of a value that fits is sound.
    Any(Json),
}

/// A key of a map, and its value.
#[derive(Drop, PartialEq, Eq)]
#[cycle(tree)]
pub struct Pair {
    /// The key.
    pub key: Text,
    /// Its value.
    pub value: Tree,
}

impl Tree {
    /// A tree equal to this one.
    #[cycle(copy)]
    pub fn copy(&self, alloc: Global) -> Result<Tree, AllocError>
        ensures { IfOk result (λ copy. copy ≡ self.now) }
    {
        match self {
            Tree::Unit => Ok(Tree::Unit),
            Tree::Bool(truth) => Ok(Tree::Bool(*truth)),
            Tree::Int(number) => Ok(Tree::Int(*number)),
            Tree::Text(text) => Ok(Tree::Text(text.copy(alloc)?)),
            Tree::None => Ok(Tree::None),
            Tree::Some(tree) => Ok(Tree::Some(Boxed::new(alloc, tree.get().copy(alloc)?)?)),
            Tree::List(trees) => Ok(Tree::List(copy_trees(alloc, trees.as_slice())?)),
            Tree::Map(pairs) => Ok(Tree::Map(copy_pairs(alloc, pairs.as_slice())?)),
            Tree::Fields(trees) => Ok(Tree::Fields(copy_trees(alloc, trees.as_slice())?)),
            Tree::Variant(place, tree) => Ok(Tree::Variant(
                *place,
                Boxed::new(alloc, tree.get().copy(alloc)?)?,
            )),
            Tree::Any(json) => Ok(Tree::Any(json.copy(alloc)?)),
        }
    }
}

impl Pair {
    /// A pair equal to this one.
    #[cycle(copy)]
    pub fn copy(&self, alloc: Global) -> Result<Pair, AllocError>
        ensures { IfOk result (λ copy. copy ≡ self.now) }
    {
        Ok(Pair {
            key: self.key.copy(alloc)?,
            value: self.value.copy(alloc)?,
        })
    }
}

#[cycle(copy)]
fn copy_pairs(alloc: Global, pairs: &[Pair]) -> Result<List<Pair>, AllocError>
    ensures { IfOk result (λ copies. copies ≡ pairs.now) }
{
    let mut copies = List::new(alloc);
    for pair in pairs {
        copies.push(pair.copy(alloc)?)?;
    }
    Ok(copies)
}

#[cycle(copy)]
fn copy_trees(alloc: Global, trees: &[Tree]) -> Result<List<Tree>, AllocError>
    ensures { IfOk result (λ copies. copies ≡ trees.now) }
{
    let mut copies = List::new(alloc);
    for tree in trees {
        copies.push(tree.copy(alloc)?)?;
    }
    Ok(copies)
}
