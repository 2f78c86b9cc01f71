//! Descriptors of types, the trees that are their values, and tables of definitions by name.
#![tactic(auto)]

mod desc;
mod equal;
mod index;
mod names;
mod table;
mod tree;

pub use desc::{Desc, Field, IntKind, Named, Presence, TaggedVariant, Variant};
pub use table::{AddError, Added, Definition, DescTable};
pub use tree::{Pair, Tree};
