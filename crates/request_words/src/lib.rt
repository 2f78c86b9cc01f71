//! The words that the meaning of a request and the meaning of a document share: a request as it comes in, the
//! pairs of its query or of a form, its header lines and media type, and the numbers that texts write.
#![tactic(auto)]

mod headers;
mod media;
mod numbers;
mod pairs;
mod request;
mod sorted_pairs;
mod words;

pub use headers::{all_shown, first_line, last_line, shown_text};
pub use media::{is_form_type, is_json_type, media_type};
pub use numbers::{cut_number, has_minus};
pub use pairs::{NamedText, form_pairs, has_pair, query_pairs};
pub use request::{HeaderLine, WireRequest};
pub use sorted_pairs::{SortedPairs, items_named};
pub use words::{is_str_word, is_word, str_after, text_after};
