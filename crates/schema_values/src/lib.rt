//! The values that the other crates speak of: lists, texts and JSON.
#![tactic(auto)]

mod boxed;
mod copy;
mod equal;
mod get;
mod json_value;
mod laws;
mod leaf_copy;
mod list;
mod member_text;
mod one_pass;
mod order;
mod pretty;
mod print;
mod quoting;
mod read;
mod schema;
mod schema_copy;
mod text;
mod value;
mod variables;

pub use boxed::Boxed;
pub use json::Scratch;
pub use json_value::{Json, Member, names_ascend};
pub use laws::{
    bytes_in_order, compact_by_members, compact_reads_back, in_order_stays, one_more_member,
    pretty_reads_back, reads_ascending, reads_nested, reads_sound, same_decides, sorted_ascends,
    sound_decides,
};
pub use leaf_copy::copy_text;
pub use list::List;
pub use member_text::{write_member, write_name, write_number_member, write_text_member};
pub use order::{HasName, in_order, sort_by_name};
pub use print::write_comma;
pub use quoting::{write_quoted, write_quoted_str};
pub use read::ReadError;
pub use schema::{
    ArrayParts, Definitions, InstanceType, InstanceTypes, Items, LengthBounds, NumberBounds,
    ObjectParts, Property, Schema, SchemaObject, Subschemas,
};
pub use text::Text;
pub use value::ValueError;
pub use variables::{VariableSet, VariableValue, copy_variables};
