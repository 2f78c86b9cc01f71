//! What a text denotes under a scalar descriptor.
#![tactic(auto)]

mod kinds;
mod numbers;
mod scalars;
mod texts;

pub use kinds::kind_name;
pub use numbers::number_of_text;
pub use scalars::in_some;
pub use texts::{decode_text, tree_of_text};
