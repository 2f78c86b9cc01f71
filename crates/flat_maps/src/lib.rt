//! Which structs pairs and maps of texts denote; the maps of texts that structs of texts are written
//! as; and the same of Rust types. What one text denotes is what `scalar_texts` says.
#![tactic(auto)]

mod fault_words;
mod field_texts;
mod fields;
mod given;
mod lowered;
mod map_error;
mod maps;
mod pairs;
mod refusals;
mod repeats;
mod resolve;
mod text_maps;
mod typed_maps;

pub use fields::{absent_field, present_field};
pub use map_error::MapError;
pub use maps::{MapValue, decode_map};
pub use pairs::decode_pairs;
pub use repeats::Repeats;
pub use resolve::fields_of;
pub use scalar_texts::{decode_text, number_of_text, tree_of_text};
pub use text_maps::to_map_tree;
pub use typed_maps::{from_map, from_map_insensitive, own_table, to_map};
