//! Points, and the label in a path.
ghost use Rattle.std.specs.Prelude.{◌≡◌, ◌∷◌, [], codes, true};
ghost use Rattle.descriptors.specs.declared.tree.Tree.TheVariants as trees;
ghost use Rattle.api_types.specs.Heads.{required, struct_of};
ghost use Rattle.api_types.specs.Structs.{FieldsFitOne};
ghost use Rattle.api_types.specs.Types.{FitsOne};
ghost use Rattle.sample_types.specs.Types.{IsPointOf, point_definition, point_desc, point_parts};

use crate::label::{PointLabel, label_in};
use crate::trees::push_tree;
use api_types::{ApiStruct, ApiType, StructHead};
use schema_values::{List, Text};
use std::alloc::{AllocError, Global};
use typed_values::Tree;

/// A point.
#[derive(Drop)]
pub struct Point {
    /// What it is called, and stored under.
    pub label: PointLabel,
    /// Its number.
    pub n: i32,
    /// Whether it is on.
    pub on: bool,
}

impl Point {
    /// The label in the tree of a point. It takes no memory.
    pub fn label_in(tree: &Tree) -> &Text
        requires { FitsOne (point_definition ∷ []) point_desc tree.now }
        ensures { IsPointOf result.now tree.now }
    {
        match trees_in(tree) {
            [label, _, _] => label_in(label),
            // A point has three fields.
            _ => unreachable!(),
        }
    }
}

fn trees_in(tree: &Tree) -> &[Tree]
    requires { FitsOne (point_definition ∷ []) point_desc tree.now }
    ensures is { tree.now ≡ trees.Fields result.now }
    ensures fit { FieldsFitOne point_parts result.now }
{
    match tree {
        Tree::Fields(trees) => trees.as_slice(),
        // Another tree does not fit.
        _ => unreachable!(),
    }
}

impl ApiStruct for Point {
    type Fields = (PointLabel, (i32, (bool, ())));

    ghost struct_name = { codes "Point" };

    ghost head_of = { struct_of (required (codes "label") ∷ required (codes "n") ∷ required (codes "on") ∷ []) };

    ghost fields_of = { λ point. (point.label, (point.n, (point.on, tt))) };

    fn name() -> &'static str {
        "Point"
    }

    fn in_place() -> bool {
        false
    }

    fn head(alloc: Global) -> Result<StructHead, AllocError> {
        StructHead::new(alloc)
            .required(alloc, "label")?
            .required(alloc, "n")?
            .required(alloc, "on")
    }

    fn trees(&self, alloc: Global) -> Result<List<Tree>, AllocError> {
        let mut trees = List::new(alloc);
        push_tree(alloc, &mut trees, &self.label)?;
        push_tree(alloc, &mut trees, &self.n)?;
        push_tree(alloc, &mut trees, &self.on)?;
        Ok(trees)
    }

    fn each_fits(&self) {
        self.label.fits();
        self.n.fits();
        self.on.fits();
    }

    fn from_fields((label, (n, (on, ()))): Self::Fields) -> Point {
        Point { label, n, on }
    }
}

/// The label in a path.
#[derive(Drop)]
pub struct LabelPath {
    /// The label.
    pub label: Text,
}

impl ApiStruct for LabelPath {
    type Fields = (Text, ());

    ghost struct_name = { codes "LabelPath" };

    ghost is_in_place = { true };

    ghost head_of = { struct_of (required (codes "label") ∷ []) };

    ghost fields_of = { λ path. (path.label, tt) };

    fn name() -> &'static str {
        "LabelPath"
    }

    fn in_place() -> bool {
        true
    }

    fn head(alloc: Global) -> Result<StructHead, AllocError> {
        StructHead::new(alloc).required(alloc, "label")
    }

    fn trees(&self, alloc: Global) -> Result<List<Tree>, AllocError> {
        let mut trees = List::new(alloc);
        push_tree(alloc, &mut trees, &self.label)?;
        Ok(trees)
    }

    fn each_fits(&self) {
        self.label.fits();
    }

    fn from_fields((label, ()): Self::Fields) -> LabelPath {
        LabelPath { label }
    }
}
