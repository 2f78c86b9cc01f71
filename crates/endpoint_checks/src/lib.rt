//! What stands against an endpoint, each cause by itself, and the index of the endpoints before it.
#![tactic(auto)]

mod clashes;
mod codes;
mod definition_clashes;
mod index;
mod names;
mod paths;
mod slots;
mod tags;
mod types;

pub use clashes::path_clash_told;
pub use codes::{bad_success_code_told, no_error_schema_told};
pub use definition_clashes::definition_clash_told;
pub use index::EndpointIndex;
pub use paths::{
    bad_method_told, bad_template_told, mismatch_told, visible_wildcard_told, wildcard,
};
pub use slots::{bad_form_told, bad_pagination_told, two_bodies_told};
pub use tags::{at_least_one_told, exactly_one_told, invalid_tag_told};
pub use types::unsupported_schema_told;
