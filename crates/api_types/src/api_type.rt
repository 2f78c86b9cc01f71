ghost use Rattle.std.specs.Prelude.{◌≡◌, IfOk, IfErr, OnOk, OnErr};
ghost use Rattle.api_types.specs.Additions.{with_all, AreRefused};
ghost use Rattle.api_types.specs.Types.{HoldsAll, FitsEach, FitsOne, ReachesExactly};

use schema_values::Text;
use std::alloc::{AllocError, Global};
use typed_values::{AddError, Desc, DescTable, Tree};

/// A type that a document describes, and whose values are read from trees and written as trees.
pub trait ApiType: Sized + Drop {
    ghost use Rattle.std.specs.Prelude.{ℕ, List};
    ghost use Rattle.descriptors.specs.declared.desc.Desc.{Desc as Descriptor};
    ghost use Rattle.descriptors.specs.declared.table.Definition.{Definition as Entry};
    ghost use Rattle.descriptors.specs.declared.tree.Tree.{Tree as Value};

    /// The name of the type.
    ghost name_of: { List ℕ };

    /// The descriptor of its values.
    ghost desc_of: { Descriptor };

    /// The definitions that the descriptor reaches, in the order in which they are added.
    ghost definitions_of: { List Entry };

    /// The tree of a value.
    ghost tree_of: { Self → Value };

    /// The name of the type.
    fn type_name(alloc: Global) -> Result<Text, AllocError>
        ensures { IfOk result (λ name. name ≡ name_of) };

    /// The descriptor of the type's values.
    fn descriptor(alloc: Global) -> Result<Desc, AllocError>
        ensures { IfOk result (λ desc. desc ≡ desc_of) };

    /// Does nothing. It shows that the descriptor reaches these definitions and no other.
    fn reach()
        ensures { ReachesExactly definitions_of desc_of };

    /// Adds the definitions that the descriptor reaches: all of them, or none where one clashes. The first
    /// clash is told.
    fn add_definitions(alloc: Global, table: &mut DescTable) -> Result<(), AddError>
        ensures added { OnOk result (table.new ≡ with_all table.old definitions_of) }
        ensures held { OnOk result (HoldsAll table.new definitions_of) }
        ensures refused { IfErr result (AreRefused table.old definitions_of) }
        ensures err { OnErr result (table.new ≡ table.old) };

    /// The tree of a value.
    fn to_tree(&self, alloc: Global) -> Result<Tree, AllocError>
        ensures { IfOk result (λ tree. tree ≡ tree_of self.now) };

    /// Does nothing. It shows that the tree of this value fits, whether or not there is memory for it.
    fn fits(&self)
        ensures { FitsEach definitions_of desc_of (tree_of self.now) };

    /// The value of a tree that fits.
    fn from_tree(alloc: Global, tree: &Tree) -> Result<Self, AllocError>
        requires { FitsOne definitions_of desc_of tree.now }
        ensures { IfOk result (λ value. tree_of value ≡ tree.now) };
}
