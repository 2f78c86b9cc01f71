//! A type whose definition has the name of another's.
ghost use Rattle.std.specs.Prelude.{◌∷◌, [], codes};
ghost use Rattle.api_types.specs.Heads.{required, struct_of};

use api_types::{ApiStruct, ApiType, StructHead};
use schema_values::List;
use std::alloc::{AllocError, Global};
use typed_values::Tree;

/// A point of a line, defined as `Point` like one of the plane.
#[derive(Drop)]
pub struct LinePoint {
    /// Its place on the line.
    pub n: i32,
}

impl ApiStruct for LinePoint {
    type Fields = (i32, ());

    ghost struct_name = { codes "Point" };

    ghost head_of = { struct_of (required (codes "n") ∷ []) };

    ghost fields_of = { λ point. (point.n, tt) };

    fn name() -> &'static str {
        "Point"
    }

    fn in_place() -> bool {
        false
    }

    fn head(alloc: Global) -> Result<StructHead, AllocError> {
        StructHead::new(alloc).required(alloc, "n")
    }

    fn trees(&self, alloc: Global) -> Result<List<Tree>, AllocError> {
        let mut trees = List::new(alloc);
        trees.push(self.n.to_tree(alloc)?)?;
        Ok(trees)
    }

    fn each_fits(&self) {
        self.n.fits();
    }

    fn from_fields((n, ()): Self::Fields) -> LinePoint {
        LinePoint { n }
    }
}
