//! The types of the sample API, and its operations with their shapes.
#![tactic(auto)]

mod folders;
mod label;
mod operation;
mod point;
mod probe;
mod shape_parts;
mod shapes;
mod trees;

pub use folders::{folder_count, trees_tell_counts};
pub use label::PointLabel;
pub use operation::Operation;
pub use point::{LabelPath, Point};
pub use probe::{Probe, ProbeHeader, ProbeQuery};
