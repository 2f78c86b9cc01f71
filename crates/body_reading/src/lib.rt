//! Bodies that are read under a limit on their content and a budget of frames: whole, gathered, or
//! content by content.
#![tactic(auto)]

mod flaw;
mod gather;
mod laws;
mod refusal;
mod rest;
mod streaming;
mod whole;

pub use flaw::BodyFlaw;
pub use gather::gather_frames;
pub use laws::{
    bodies_within_limits_are_read, cuts_are_read_alike, first_frames_are_enough,
    outcomes_have_causes,
};
pub use refusal::StreamRefusal;
pub use streaming::StreamingBody;
pub use whole::{BodyError, read_whole};
