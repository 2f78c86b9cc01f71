//! How the case programs note descriptors, trees and values, and how they answer lines.
#![tactic(auto)]

mod descs;
mod error;
mod flaws;
mod lines;
mod made;
mod maps;
mod parts;
mod reader;
mod scope;
mod tables;
mod told;
mod trees;
mod written_trees;

pub use descs::{desc_of, read_desc};
pub use error::CaseError;
pub use flaws::flaw;
pub use lines::{AnswersCases, run};
pub use made::made_of;
pub use maps::{map_of, read_variable, texts_of};
pub use parts::{
    check_names, count_of, given, given_items, given_number, given_text, items_of, maybe_text,
    number_of, text_of, truth_of,
};
pub use reader::Reader;
pub use scope::{Scope, checked_table, noted_desc, scope_of};
pub use tables::{define, definition_of, table_of};
pub use told::{Record, Row, both, labelled, say, string_told, text_or_null, text_told};
pub use trees::{read_tree, tree_of};
pub use written_trees::tree_noted;
