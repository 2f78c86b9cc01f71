ghost use Rattle.std.specs.Prelude.{◌∷◌, [], codes};
ghost use Rattle.api_types.specs.Heads.{described_struct, nullable, required, struct_of};

use crate::color::Color;
use crate::label::Label;
use api_types::{ApiStruct, ApiType, StructHead};
use schema_values::List;
use std::alloc::{AllocError, Global};
use typed_values::Tree;

/// A point on the map.
#[derive(Drop)]
pub struct Point {
    /// What it is called.
    pub label: Label,
    /// Its color, if it has one.
    pub color: Option<Color>,
    /// Its place on the map.
    pub n: i32,
}

impl ApiStruct for Point {
    type Fields = (Label, (Option<Color>, (i32, ())));

    ghost struct_name = { codes "Point" };

    ghost head_of = { described_struct (codes "a point on the map")
        (struct_of (required (codes "label") ∷ nullable (codes "color") ∷ required (codes "n") ∷ [])) };

    ghost fields_of = { λ point. (point.label, (point.color, (point.n, tt))) };

    fn name() -> &'static str {
        "Point"
    }

    fn in_place() -> bool {
        false
    }

    fn head(alloc: Global) -> Result<StructHead, AllocError> {
        StructHead::new(alloc)
            .described(alloc, "a point on the map")?
            .required(alloc, "label")?
            .nullable(alloc, "color")?
            .required(alloc, "n")
    }

    fn trees(&self, alloc: Global) -> Result<List<Tree>, AllocError> {
        let mut trees = List::new(alloc);
        trees.push(self.label.to_tree(alloc)?)?;
        trees.push(self.color.to_tree(alloc)?)?;
        trees.push(self.n.to_tree(alloc)?)?;
        Ok(trees)
    }

    fn each_fits(&self) {
        self.label.fits();
        self.color.fits();
        self.n.fits();
    }

    fn from_fields((label, (color, (n, ()))): Self::Fields) -> Point {
        Point { label, color, n }
    }
}
