//! Structs of texts.
ghost use Rattle.std.specs.Prelude.{◌∷◌, [], codes};
ghost use Rattle.api_types.specs.Heads.{nullable, required, struct_of};

use crate::trees::push_tree;
use api_types::{ApiStruct, ApiType, StructHead};
use schema_values::{List, Text};
use std::alloc::{AllocError, Global};
use typed_values::Tree;

/// Two texts, whose names do not ascend.
#[derive(Drop)]
pub struct Names {
    /// The first.
    pub sss: Text,
    /// The second.
    pub aaa: Text,
}

impl ApiStruct for Names {
    type Fields = (Text, (Text, ()));

    ghost struct_name = { codes "Names" };

    ghost head_of = { struct_of (required (codes "sss") ∷ required (codes "aaa") ∷ []) };

    ghost fields_of = { λ value. (value.sss, (value.aaa, tt)) };

    fn name() -> &'static str {
        "Names"
    }

    fn in_place() -> bool {
        false
    }

    fn head(alloc: Global) -> Result<StructHead, AllocError> {
        StructHead::new(alloc)
            .required(alloc, "sss")?
            .required(alloc, "aaa")
    }

    fn trees(&self, alloc: Global) -> Result<List<Tree>, AllocError> {
        let mut trees = List::new(alloc);
        push_tree(alloc, &mut trees, &self.sss)?;
        push_tree(alloc, &mut trees, &self.aaa)?;
        Ok(trees)
    }

    fn each_fits(&self) {
        self.sss.fits();
        self.aaa.fits();
    }

    fn from_fields((sss, (aaa, ())): Self::Fields) -> Names {
        Names { sss, aaa }
    }
}

/// Texts, of which one may be absent.
#[derive(Drop)]
pub struct Texts {
    /// A text.
    pub a: Text,
    /// Another.
    pub b: Text,
    /// A third, if there is one.
    pub c: Option<Text>,
}

impl ApiStruct for Texts {
    type Fields = (Text, (Text, (Option<Text>, ())));

    ghost struct_name = { codes "Texts" };

    ghost head_of = { struct_of
        (required (codes "a") ∷ required (codes "b") ∷ nullable (codes "c") ∷ []) };

    ghost fields_of = { λ value. (value.a, (value.b, (value.c, tt))) };

    fn name() -> &'static str {
        "Texts"
    }

    fn in_place() -> bool {
        false
    }

    fn head(alloc: Global) -> Result<StructHead, AllocError> {
        StructHead::new(alloc)
            .required(alloc, "a")?
            .required(alloc, "b")?
            .nullable(alloc, "c")
    }

    fn trees(&self, alloc: Global) -> Result<List<Tree>, AllocError> {
        let mut trees = List::new(alloc);
        push_tree(alloc, &mut trees, &self.a)?;
        push_tree(alloc, &mut trees, &self.b)?;
        push_tree(alloc, &mut trees, &self.c)?;
        Ok(trees)
    }

    fn each_fits(&self) {
        self.a.fits();
        self.b.fits();
        self.c.fits();
    }

    fn from_fields((a, (b, (c, ()))): Self::Fields) -> Texts {
        Texts { a, b, c }
    }
}
