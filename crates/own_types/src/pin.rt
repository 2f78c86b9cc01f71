ghost use Rattle.std.specs.Prelude.{◌∷◌, [], codes, pos};
ghost use Rattle.descriptors.specs.declared.tree.Tree.TheVariants as trees;
ghost use Rattle.api_types.specs.Heads.{closed, described, required, skipped, struct_of, with_default};

use crate::label::Label;
use crate::point::Point;
use crate::span::Span;
use api_types::{ApiStruct, ApiType, FieldHead, Skipped, StructHead};
use schema_values::List;
use std::alloc::{AllocError, Global};
use typed_values::Tree;

/// A pin on the map. Its JSON has no other names.
#[derive(Drop)]
pub struct Pin {
    /// Where it is.
    pub point: Point,
    /// What is written beside it, if anything is.
    pub note: Option<Label>,
    /// The scales at which it is shown.
    pub scales: Span,
    /// Its size, 1 where none is given.
    pub size: u8,
}

impl ApiStruct for Pin {
    type Fields = (Point, (Skipped<Label>, (Span, (u8, ()))));

    ghost struct_name = { codes "Pin" };

    ghost head_of = { closed (struct_of (required (codes "point") ∷ skipped (codes "note")
        ∷ required (codes "scales")
        ∷ described (codes "the size") (with_default (codes "size") (trees.Int (pos 1))) ∷ [])) };

    ghost fields_of = { λ pin. (pin.point, (record { value = pin.note }, (pin.scales, (pin.size, tt)))) };

    fn name() -> &'static str {
        "Pin"
    }

    fn in_place() -> bool {
        false
    }

    fn head(alloc: Global) -> Result<StructHead, AllocError> {
        let head = StructHead::new(alloc)
            .required(alloc, "point")?
            .skipped(alloc, "note")?
            .required(alloc, "scales")?;
        let size = FieldHead::with_default(alloc, "size", Tree::Int(1))?;
        Ok(head.with(size.described(alloc, "the size")?)?.closed())
    }

    fn trees(&self, alloc: Global) -> Result<List<Tree>, AllocError> {
        let mut trees = List::new(alloc);
        trees.push(self.point.to_tree(alloc)?)?;
        trees.push(self.note.to_tree(alloc)?)?;
        trees.push(self.scales.to_tree(alloc)?)?;
        trees.push(self.size.to_tree(alloc)?)?;
        Ok(trees)
    }

    fn each_fits(&self) {
        self.point.fits();
        self.note.fits();
        self.scales.fits();
        self.size.fits();
    }

    fn from_fields((point, (note, (scales, (size, ())))): Self::Fields) -> Pin {
        Pin {
            point,
            note: note.value,
            scales,
            size,
        }
    }
}
