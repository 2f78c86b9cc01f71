//! What of JSON denotes which tree under a descriptor. The types of `descriptors` are passed on.
#![tactic(auto)]

mod bounds;
mod check;
mod decode;
mod decode_variants;
mod encode;
mod encode_variants;
mod fault;
mod fault_text;
mod fitting;
mod flaws;
mod lists;
mod members;
mod misfit;
mod order;
mod parts;
mod path;
mod ranges;
mod scalars;
mod schema_names;
mod schema_parts;
mod schema_rows;
mod schema_variants;
mod schemas;
mod scope;
mod search;
mod wrapped;

pub use bounds::{character_count, is_length_within, is_number_of};
pub use check::{TableError, check_desc, check_table};
pub use decode::decode_json;
pub use descriptors::{
    AddError, Added, Definition, Desc, DescTable, Field, IntKind, Named, Pair, Presence,
    TaggedVariant, Tree, Variant,
};
pub use encode::encode_json;
pub use fault::{DecodeError, Fault, FaultKind, Misfit, Place, Stop};
pub use fitting::fits;
pub use schemas::{SchemaPlace, schema_of, schema_of_definition};
