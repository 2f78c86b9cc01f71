//! How many tags an endpoint has.
ghost use Rattle.std.specs.Prelude.{◌≡◌, ◌<◌, [], codes, IfOk, IsTrue};
ghost use Rattle.schema_values.specs.Ascii.{all_ascii};
ghost use Rattle.descriptors.specs.declared.tree.Tree.TheVariants as trees;
ghost use Rattle.api_types.specs.Types.{FitsOne};
ghost use Rattle.tag_config.specs.Policies.{named, policy_desc, policy_names, policy_place};
ghost use Rattle.tag_config.specs.Policies.{policy_tree};

use api_types::ApiType;
use schema_values::{Boxed, List, Text};
use std::alloc::{AllocError, Global};
use typed_values::{AddError, Desc, DescTable, Named, Tree};

/// How many tags an endpoint has.
#[derive(Clone, Copy, Debug, PartialEq, Eq, Drop)]
pub enum EndpointTagPolicy {
    /// Any number.
    Any,
    /// One or more.
    AtLeastOne,
    /// One.
    ExactlyOne,
}

impl EndpointTagPolicy {
    fn place(&self) -> u32
        ensures is { result ≡ policy_place self.now }
        ensures below { result < 3 }
    {
        match self {
            EndpointTagPolicy::Any => 0,
            EndpointTagPolicy::AtLeastOne => 1,
            EndpointTagPolicy::ExactlyOne => 2,
        }
    }
}

// A policy is written as the name of its variant, and stands in place, without a definition.
impl ApiType for EndpointTagPolicy {
    ghost name_of = { codes "EndpointTagPolicy" };

    ghost desc_of = { policy_desc };

    ghost definitions_of = { [] };

    ghost tree_of = { policy_tree };

    fn type_name(alloc: Global) -> Result<Text, AllocError> {
        Text::from_ascii(alloc, "EndpointTagPolicy")
    }

    fn descriptor(alloc: Global) -> Result<Desc, AllocError> {
        Ok(Desc::Enumeration {
            names: names(alloc)?,
        })
    }

    fn reach() {}

    fn add_definitions(_alloc: Global, _table: &mut DescTable) -> Result<(), AddError> {
        Ok(())
    }

    fn to_tree(&self, alloc: Global) -> Result<Tree, AllocError> {
        Ok(Tree::Variant(self.place(), Boxed::new(alloc, Tree::Unit)?))
    }

    fn fits(&self) {
        let _ = self.place();
    }

    fn from_tree(_alloc: Global, tree: &Tree) -> Result<EndpointTagPolicy, AllocError> {
        Ok(match place_in(tree) {
            0 => EndpointTagPolicy::Any,
            1 => EndpointTagPolicy::AtLeastOne,
            _ => EndpointTagPolicy::ExactlyOne,
        })
    }
}

fn place_in(tree: &Tree) -> u32
    requires { FitsOne [] policy_desc tree.now }
    ensures is { tree.now ≡ trees.Variant result trees.Unit }
    ensures below { result < 3 }
{
    match tree {
        Tree::Variant(place, _) => *place,
        _ => unreachable!(),
    }
}

// The names of the variants.
fn names(alloc: Global) -> Result<List<Named>, AllocError>
    ensures { IfOk result (λ names. names ≡ policy_names) }
{
    let mut names = List::new(alloc);
    names.push(named(alloc, "Any")?)?;
    names.push(named(alloc, "AtLeastOne")?)?;
    names.push(named(alloc, "ExactlyOne")?)?;
    Ok(names)
}

fn named(alloc: Global, name: &str) -> Result<Named, AllocError>
    requires { IsTrue (all_ascii name.now) }
    ensures { IfOk result (λ made. made ≡ named name.now) }
{
    Ok(Named {
        name: Text::from_ascii(alloc, name)?,
        description: None,
    })
}
