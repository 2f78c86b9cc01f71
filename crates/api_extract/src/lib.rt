//! The arguments that a request gives the slots of a handler.
#![tactic(auto)]

mod arguments;
mod bodies;
mod extract_error;
mod laws;
mod media;
mod pages;
mod path_params;
mod queries;
mod refusals;
mod shared;
mod slots;
mod sources;
mod typed_body;

pub use arguments::extract;
pub use extract_error::ExtractError;
pub use laws::{
    answers_have_causes, cuts_give_the_same, denoted_arguments_fit, refused_tokens_are_told,
    requests_within_limits_are_read, sizes_have_causes, tokens_are_read, values_are_read,
};
pub use path_params::http_extract_path_params;
pub use sources::extract_from;
