//! Frames of a body in a request line.
ghost use Rattle.std.specs.Prelude.{◌≡◌, ◌∷◌, [], codes, true, IfOk};
ghost use Rattle.descriptors.specs.declared.tree.Tree.TheVariants as trees;
ghost use Rattle.api_types.specs.Heads.{required, struct_of};
ghost use Rattle.api_types.specs.Types.{FitsOne};
ghost use Rattle.request_lines.specs.RequestLines.{frame_desc, frame_tree};
ghost use Rattle.line_types.specs.LineTypes.{line_frame};

use crate::choice::{chosen, untagged};
use api_types::{ApiStruct, ApiType, StructHead};
use schema_values::{List, Text};
use std::alloc::{AllocError, Global};
use typed_values::{AddError, Desc, DescTable, Tree};

/// A frame, as it stands in a line: a text, or digits.
#[derive(Drop)]
pub enum LineFrame {
    /// The bytes of a text in UTF-8.
    Text(Text),
    /// The bytes that digits tell.
    Digits(LineDigits),
}

/// Bytes by their hexadecimal digits, which stand under `hex`.
#[derive(Drop)]
pub struct LineDigits {
    /// The digits, two for each byte.
    pub hex: Text,
}

impl ApiStruct for LineDigits {
    type Fields = (Text, ());

    ghost struct_name = { codes "LineDigits" };

    ghost is_in_place = { true };

    ghost head_of = { struct_of (required (codes "hex") ∷ []) };

    ghost fields_of = { λ digits. (digits.hex, tt) };

    fn name() -> &'static str {
        "LineDigits"
    }

    fn in_place() -> bool {
        true
    }

    fn head(alloc: Global) -> Result<StructHead, AllocError> {
        StructHead::new(alloc).required(alloc, "hex")
    }

    fn trees(&self, alloc: Global) -> Result<List<Tree>, AllocError> {
        let mut trees = List::new(alloc);
        trees.push(self.hex.to_tree(alloc)?)?;
        Ok(trees)
    }

    fn each_fits(&self) {
        self.hex.fits();
    }

    fn from_fields((hex, ()): Self::Fields) -> LineDigits {
        LineDigits { hex }
    }
}

impl ApiType for LineFrame {
    ghost name_of = { codes "LineFrame" };

    ghost desc_of = { frame_desc };

    ghost definitions_of = { [] };

    ghost tree_of = { λ frame. frame_tree (line_frame frame) };

    fn type_name(alloc: Global) -> Result<Text, AllocError> {
        Text::from_ascii(alloc, "LineFrame")
    }

    fn descriptor(alloc: Global) -> Result<Desc, AllocError> {
        untagged::<Text, LineDigits>(alloc)
    }

    fn reach() {
        LineDigits::reach();
    }

    fn add_definitions(_alloc: Global, _table: &mut DescTable) -> Result<(), AddError> {
        Ok(())
    }

    fn to_tree(&self, alloc: Global) -> Result<Tree, AllocError> {
        match self {
            LineFrame::Text(text) => chosen(alloc, 0, text),
            LineFrame::Digits(digits) => chosen(alloc, 1, digits),
        }
    }

    fn fits(&self) {
        match self {
            LineFrame::Text(text) => text.fits(),
            LineFrame::Digits(digits) => digits.fits(),
        }
    }

    fn from_tree(alloc: Global, tree: &Tree) -> Result<LineFrame, AllocError> {
        match tree {
            Tree::Variant(place, value) => frame_at(alloc, *place, value.get()),
            _ => unreachable!(),
        }
    }
}

// The frame of a value whose alternative stands at a place.
fn frame_at(alloc: Global, place: u32, value: &Tree) -> Result<LineFrame, AllocError>
    requires { FitsOne [] frame_desc (trees.Variant place value.now) }
    ensures { IfOk result (λ frame. frame_tree (line_frame frame) ≡ trees.Variant place value.now) }
{
    if place == 0 {
        Ok(LineFrame::Text(Text::from_tree(alloc, value)?))
    } else {
        Ok(LineFrame::Digits(LineDigits::from_tree(alloc, value)?))
    }
}
