//! Templates of paths, and places of things by texts.
#![tactic(auto)]

mod characters;
mod laws;
mod parsed_path;
mod place_index;
mod segment;
mod segments;
mod template;
mod variables;

pub use laws::templates_are_spelled;
pub use parsed_path::ParsedPath;
pub use place_index::PlaceIndex;
pub use segment::PathSegment;
pub use template::{Template, same_template, without_trailing_slash};
