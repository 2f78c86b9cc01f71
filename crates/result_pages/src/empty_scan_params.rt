ghost use Rattle.std.specs.Prelude.{◌≡◌, [], codes, true, Ok};
ghost use Rattle.api_types.specs.Heads.{struct_of};

use api_types::{ApiStruct, StructHead};
use schema_values::List;
use std::alloc::{AllocError, Global};
use typed_values::Tree;

/// No parameters of a scan: a struct without fields, which stands in place and allows other names.
#[derive(Debug, PartialEq, Eq, Drop)]
pub struct EmptyScanParams {}

impl EmptyScanParams {
    /// A value equal to this one. Takes no memory, and always succeeds.
    pub fn copy(&self, _alloc: Global) -> Result<EmptyScanParams, AllocError>
        ensures { result ≡ Ok self.now }
    {
        Ok(EmptyScanParams {})
    }
}

impl ApiStruct for EmptyScanParams {
    type Fields = ();

    ghost struct_name = { codes "EmptyScanParams" };

    ghost is_in_place = { true };

    ghost head_of = { struct_of [] };

    ghost fields_of = { λ params. tt };

    fn name() -> &'static str {
        "EmptyScanParams"
    }

    fn in_place() -> bool {
        true
    }

    fn head(alloc: Global) -> Result<StructHead, AllocError> {
        Ok(StructHead::new(alloc))
    }

    fn trees(&self, alloc: Global) -> Result<List<Tree>, AllocError> {
        Ok(List::new(alloc))
    }

    fn each_fits(&self) {}

    fn from_fields(_fields: Self::Fields) -> EmptyScanParams {
        EmptyScanParams {}
    }
}
