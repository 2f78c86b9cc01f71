ghost use Rattle.std.specs.Prelude.{◌∷◌, [], codes, true};
ghost use Rattle.api_types.specs.Heads.{required, struct_of};

use api_types::{ApiStruct, ApiType, StructHead};
use schema_values::List;
use std::alloc::{AllocError, Global};
use typed_values::Tree;

/// The numbers from one to another. It stands in place, without a definition.
#[derive(Drop)]
pub struct Span {
    /// The least.
    pub from: u32,
    /// The greatest.
    pub to: u32,
}

impl ApiStruct for Span {
    type Fields = (u32, (u32, ()));

    ghost struct_name = { codes "Span" };

    ghost is_in_place = { true };

    ghost head_of = { struct_of (required (codes "from") ∷ required (codes "to") ∷ []) };

    ghost fields_of = { λ span. (span.from, (span.to, tt)) };

    fn name() -> &'static str {
        "Span"
    }

    fn in_place() -> bool {
        true
    }

    fn head(alloc: Global) -> Result<StructHead, AllocError> {
        StructHead::new(alloc)
            .required(alloc, "from")?
            .required(alloc, "to")
    }

    fn trees(&self, alloc: Global) -> Result<List<Tree>, AllocError> {
        let mut trees = List::new(alloc);
        trees.push(self.from.to_tree(alloc)?)?;
        trees.push(self.to.to_tree(alloc)?)?;
        Ok(trees)
    }

    fn each_fits(&self) {
        self.from.fits();
        self.to.fits();
    }

    fn from_fields((from, (to, ())): Self::Fields) -> Span {
        Span { from, to }
    }
}
