//! What a schema means, which schemas keep their meaning where they are written, and that they keep it.
#![tactic(auto)]

mod laws;

pub use laws::{resolved_means_the_same, schemas_agree, steps_suffice};
