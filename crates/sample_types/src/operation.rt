//! The operations of the sample.
ghost use Rattle.std.specs.Prelude.{◌≡◌, IfOk, IsTrue};
ghost use Rattle.schema_values.specs.Ascii.{all_ascii};
ghost use Rattle.sample_types.specs.Operations.{name_of, shape_of};

use crate::shapes::{
    folder_count_shape, inner_shape, point_create_shape, point_drop_shape, point_probe_shape,
    raw_size_shape,
};
use handler_shapes::HandlerShape;
use std::alloc::{AllocError, Global};

/// An operation of the sample.
#[derive(Clone, Copy, Debug, PartialEq, Eq)]
pub enum Operation {
    /// Stores a point.
    PointCreate,
    /// Tells what it is asked with.
    PointProbe,
    /// Drops a point.
    PointDrop,
    /// Tells the size of a body.
    RawSize,
    /// Tells how many folders there are.
    FolderCount,
    /// Tells `true`.
    Inner,
}

impl Operation {
    /// Its name, in ASCII.
    pub fn name(self) -> &'static str
        ensures ascii { IsTrue (all_ascii result.now) }
        ensures name { result.now ≡ name_of self }
    {
        match self {
            Operation::PointCreate => "point_create",
            Operation::PointProbe => "point_probe",
            Operation::PointDrop => "point_drop",
            Operation::RawSize => "raw_size",
            Operation::FolderCount => "folder_count",
            Operation::Inner => "inner",
        }
    }

    /// What its handler takes and gives. Fails only for want of memory.
    pub fn shape(self, alloc: Global) -> Result<HandlerShape, AllocError>
        ensures { IfOk result (λ shape. shape ≡ shape_of self) }
    {
        match self {
            Operation::PointCreate => point_create_shape(alloc),
            Operation::PointProbe => point_probe_shape(alloc),
            Operation::PointDrop => point_drop_shape(alloc),
            Operation::RawSize => raw_size_shape(alloc),
            Operation::FolderCount => folder_count_shape(alloc),
            Operation::Inner => inner_shape(alloc),
        }
    }
}
