//! What a Rust type is: its name, its descriptor, the definitions behind it, and the trees of its values.
#![tactic(auto)]

mod additions;
mod any_value;
mod api_struct;
mod api_type;
mod fields;
mod list;
mod map;
mod number;
mod option;
mod signed;
mod struct_head;
mod text;
mod truth;
mod type_table;
mod unsigned;

pub use additions::add_all;
pub use any_value::AnyValue;
pub use api_struct::{ApiStruct, definition_of};
pub use api_type::ApiType;
pub use fields::{FieldTypes, Skipped};
pub use struct_head::{FieldHead, StructHead};
pub use type_table::{Flaw, TypeError, table_of};
