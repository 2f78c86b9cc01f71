ghost use Rattle.std.specs.Prelude.{◌++◌, codes};
ghost use Rattle.descriptors.specs.declared.desc.Desc.TheVariants as descs;
ghost use Rattle.api_types.specs.Options.{option_tree};

use crate::api_type::ApiType;
use schema_values::{Boxed, Text};
use std::alloc::{AllocError, Global};
use typed_values::{AddError, Desc, DescTable, Tree};

impl<T: ApiType> ApiType for Option<T> {
    ghost name_of = { codes "Nullable_" ++ T.name_of };

    ghost desc_of = { descs.Option T.desc_of };

    ghost definitions_of = { T.definitions_of };

    ghost tree_of = { option_tree T.tree_of };

    fn type_name(alloc: Global) -> Result<Text, AllocError> {
        let mut name = Text::from_ascii(alloc, "Nullable_")?;
        name.push_text(&T::type_name(alloc)?)?;
        Ok(name)
    }

    fn descriptor(alloc: Global) -> Result<Desc, AllocError> {
        Ok(Desc::Option(Boxed::new(alloc, T::descriptor(alloc)?)?))
    }

    fn reach() {
        T::reach();
    }

    fn add_definitions(alloc: Global, table: &mut DescTable) -> Result<(), AddError> {
        T::add_definitions(alloc, table)
    }

    fn to_tree(&self, alloc: Global) -> Result<Tree, AllocError> {
        match self {
            Some(value) => Ok(Tree::Some(Boxed::new(alloc, value.to_tree(alloc)?)?)),
            None => Ok(Tree::None),
        }
    }

    fn fits(&self) {
        match self {
            Some(value) => value.fits(),
            None => {}
        }
    }

    fn from_tree(alloc: Global, tree: &Tree) -> Result<Option<T>, AllocError> {
        match tree {
            Tree::Some(tree) => Ok(Some(T::from_tree(alloc, tree.get())?)),
            _ => Ok(None),
        }
    }
}
