//! Structs of one field.
ghost use Rattle.std.specs.Prelude.{◌≡◌, ◌∷◌, [], codes, IsTrue};
ghost use Rattle.schema_values.specs.Ascii.{all_ascii};
ghost use Rattle.api_types.specs.Heads.{required, struct_of};

use crate::trees::push_tree;
use api_types::{ApiStruct, ApiType, StructHead};
use schema_values::List;
use std::alloc::{AllocError, Global};
use std::marker::PhantomData;
use typed_values::Tree;

/// What a field is called.
pub trait FieldName {
    ghost use Rattle.std.specs.Prelude.{ℕ, List};

    /// The name.
    ghost name_of: { List ℕ };

    /// The name, in ASCII.
    fn name() -> &'static str
        ensures ascii { IsTrue (all_ascii result.now) }
        ensures is { result.now ≡ name_of };
}

/// A struct of one field of this name, which has to be there.
#[derive(Drop)]
pub struct Single<N, T> {
    /// The value of the field.
    pub value: T,
    name: PhantomData<N>,
}

impl<N: FieldName, T: ApiType> Single<N, T> {
    /// The struct of this value.
    pub fn new(value: T) -> Single<N, T> {
        Single {
            value,
            name: PhantomData,
        }
    }
}

impl<N: FieldName, T: ApiType> ApiStruct for Single<N, T> {
    type Fields = (T, ());

    ghost struct_name = { codes "Single" };

    ghost head_of = { struct_of (required N.name_of ∷ []) };

    ghost fields_of = { λ single. (single.value, tt) };

    fn name() -> &'static str {
        "Single"
    }

    fn in_place() -> bool {
        false
    }

    fn head(alloc: Global) -> Result<StructHead, AllocError> {
        StructHead::new(alloc).required(alloc, N::name())
    }

    fn trees(&self, alloc: Global) -> Result<List<Tree>, AllocError> {
        let mut trees = List::new(alloc);
        push_tree(alloc, &mut trees, &self.value)?;
        Ok(trees)
    }

    fn each_fits(&self) {
        self.value.fits();
    }

    fn from_fields((value, ()): Self::Fields) -> Single<N, T> {
        Single {
            value,
            name: PhantomData,
        }
    }
}
