//! The schemas of descriptors in documents: how they are written, and what they admit.
#![tactic(auto)]

mod laws;
mod writing;

pub use laws::{
    bodies_agree, encodings_agree, schemas_agree, schemas_sound, schemas_written, steps_suffice,
};
pub use writing::{definition_schema, titled_schema};
