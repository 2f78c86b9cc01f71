//! A struct of fields of several kinds, all of which have texts.
ghost use Rattle.std.specs.Prelude.{◌∷◌, [], codes};
ghost use Rattle.api_types.specs.Heads.{nullable, required, struct_of};

use crate::trees::push_tree;
use api_types::{ApiStruct, ApiType, StructHead};
use schema_values::{List, Text};
use std::alloc::{AllocError, Global};
use typed_values::Tree;

/// A struct of fields of several kinds.
#[derive(Drop)]
pub struct Sample {
    /// A text.
    pub astring: Text,
    /// A number without a sign.
    pub au32: u32,
    /// A number with a sign.
    pub ai16: i16,
    /// A truth value.
    pub abool: bool,
    /// A number, if there is one.
    pub aoption: Option<i8>,
    /// Another text.
    pub anew: Text,
    /// A further text.
    pub bstring: Text,
    /// Another number, if there is one.
    pub boption: Option<i8>,
}

impl ApiStruct for Sample {
    type Fields = (
        Text,
        (
            u32,
            (i16, (bool, (Option<i8>, (Text, (Text, (Option<i8>, ())))))),
        ),
    );

    ghost struct_name = { codes "Sample" };

    ghost head_of = { struct_of (
        required (codes "astring")
        ∷ required (codes "au32")
        ∷ required (codes "ai16")
        ∷ required (codes "abool")
        ∷ nullable (codes "aoption")
        ∷ required (codes "anew")
        ∷ required (codes "bstring")
        ∷ nullable (codes "boption")
        ∷ []) };

    ghost fields_of = { λ value. (
      value.astring,
      (
        value.au32,
        (
          value.ai16,
          (
            value.abool,
            (value.aoption, (value.anew, (value.bstring, (value.boption, tt)))),
          ),
        ),
      ),
    ) };

    fn name() -> &'static str {
        "Sample"
    }

    fn in_place() -> bool {
        false
    }

    fn head(alloc: Global) -> Result<StructHead, AllocError> {
        StructHead::new(alloc)
            .required(alloc, "astring")?
            .required(alloc, "au32")?
            .required(alloc, "ai16")?
            .required(alloc, "abool")?
            .nullable(alloc, "aoption")?
            .required(alloc, "anew")?
            .required(alloc, "bstring")?
            .nullable(alloc, "boption")
    }

    fn trees(&self, alloc: Global) -> Result<List<Tree>, AllocError> {
        let mut trees = List::new(alloc);
        push_tree(alloc, &mut trees, &self.astring)?;
        push_tree(alloc, &mut trees, &self.au32)?;
        push_tree(alloc, &mut trees, &self.ai16)?;
        push_tree(alloc, &mut trees, &self.abool)?;
        push_tree(alloc, &mut trees, &self.aoption)?;
        push_tree(alloc, &mut trees, &self.anew)?;
        push_tree(alloc, &mut trees, &self.bstring)?;
        push_tree(alloc, &mut trees, &self.boption)?;
        Ok(trees)
    }

    fn each_fits(&self) {
        self.astring.fits();
        self.au32.fits();
        self.ai16.fits();
        self.abool.fits();
        self.aoption.fits();
        self.anew.fits();
        self.bstring.fits();
        self.boption.fits();
    }

    fn from_fields(
        (
            astring,
            (au32, (ai16, (abool, (aoption, (anew, (bstring, (boption, ()))))))),
        ): Self::Fields,
    ) -> Sample {
        Sample {
            astring,
            au32,
            ai16,
            abool,
            aoption,
            anew,
            bstring,
            boption,
        }
    }
}
