//! What a probe is asked with beside its path, and what it tells.
ghost use Rattle.std.specs.Prelude.{◌∷◌, [], codes, true};
ghost use Rattle.api_types.specs.Heads.{nullable, required, struct_of};

use crate::trees::push_tree;
use api_types::{ApiStruct, ApiType, StructHead};
use schema_values::{List, Text};
use std::alloc::{AllocError, Global};
use typed_values::Tree;

/// The query of a probe.
#[derive(Drop)]
pub struct ProbeQuery {
    /// A number without a sign.
    pub n: Option<u32>,
    /// A number.
    pub i: Option<i32>,
}

impl ApiStruct for ProbeQuery {
    type Fields = (Option<u32>, (Option<i32>, ()));

    ghost struct_name = { codes "ProbeQuery" };

    ghost is_in_place = { true };

    ghost head_of = { struct_of (nullable (codes "n") ∷ nullable (codes "i") ∷ []) };

    ghost fields_of = { λ query. (query.n, (query.i, tt)) };

    fn name() -> &'static str {
        "ProbeQuery"
    }

    fn in_place() -> bool {
        true
    }

    fn head(alloc: Global) -> Result<StructHead, AllocError> {
        StructHead::new(alloc)
            .nullable(alloc, "n")?
            .nullable(alloc, "i")
    }

    fn trees(&self, alloc: Global) -> Result<List<Tree>, AllocError> {
        let mut trees = List::new(alloc);
        push_tree(alloc, &mut trees, &self.n)?;
        push_tree(alloc, &mut trees, &self.i)?;
        Ok(trees)
    }

    fn each_fits(&self) {
        self.n.fits();
        self.i.fits();
    }

    fn from_fields((n, (i, ())): Self::Fields) -> ProbeQuery {
        ProbeQuery { n, i }
    }
}

/// The header of a probe.
#[derive(Drop)]
pub struct ProbeHeader {
    /// A small number, under `x-a`.
    pub a: Option<u8>,
}

impl ApiStruct for ProbeHeader {
    type Fields = (Option<u8>, ());

    ghost struct_name = { codes "ProbeHeader" };

    ghost is_in_place = { true };

    ghost head_of = { struct_of (nullable (codes "x-a") ∷ []) };

    ghost fields_of = { λ header. (header.a, tt) };

    fn name() -> &'static str {
        "ProbeHeader"
    }

    fn in_place() -> bool {
        true
    }

    fn head(alloc: Global) -> Result<StructHead, AllocError> {
        StructHead::new(alloc).nullable(alloc, "x-a")
    }

    fn trees(&self, alloc: Global) -> Result<List<Tree>, AllocError> {
        let mut trees = List::new(alloc);
        push_tree(alloc, &mut trees, &self.a)?;
        Ok(trees)
    }

    fn each_fits(&self) {
        self.a.fits();
    }

    fn from_fields((a, ()): Self::Fields) -> ProbeHeader {
        ProbeHeader { a }
    }
}

/// What a probe tells: what it was asked with.
#[derive(Drop)]
pub struct Probe {
    /// The label of the path.
    pub label: Text,
    /// The number without a sign, of the query.
    pub n: Option<u32>,
    /// The number of the query.
    pub i: Option<i32>,
    /// The number of the header.
    pub a: Option<u8>,
}

impl ApiStruct for Probe {
    type Fields = (Text, (Option<u32>, (Option<i32>, (Option<u8>, ()))));

    ghost struct_name = { codes "Probe" };

    ghost is_in_place = { true };

    ghost head_of = { struct_of (required (codes "label") ∷ nullable (codes "n")
        ∷ nullable (codes "i") ∷ nullable (codes "a") ∷ []) };

    ghost fields_of = { λ probe. (probe.label, (probe.n, (probe.i, (probe.a, tt)))) };

    fn name() -> &'static str {
        "Probe"
    }

    fn in_place() -> bool {
        true
    }

    fn head(alloc: Global) -> Result<StructHead, AllocError> {
        StructHead::new(alloc)
            .required(alloc, "label")?
            .nullable(alloc, "n")?
            .nullable(alloc, "i")?
            .nullable(alloc, "a")
    }

    fn trees(&self, alloc: Global) -> Result<List<Tree>, AllocError> {
        let mut trees = List::new(alloc);
        push_tree(alloc, &mut trees, &self.label)?;
        push_tree(alloc, &mut trees, &self.n)?;
        push_tree(alloc, &mut trees, &self.i)?;
        push_tree(alloc, &mut trees, &self.a)?;
        Ok(trees)
    }

    fn each_fits(&self) {
        self.label.fits();
        self.n.fits();
        self.i.fits();
        self.a.fits();
    }

    fn from_fields((label, (n, (i, (a, ())))): Self::Fields) -> Probe {
        Probe { label, n, i, a }
    }
}
