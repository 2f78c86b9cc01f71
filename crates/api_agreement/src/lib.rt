//! What the document of endpoints says of requests: exactly those are admitted that denote arguments.
#![tactic(auto)]

mod laws;

pub use laws::{
    accepted_agree, accepted_are_listed, accepted_are_shown, accepted_are_told,
    accepted_may_be_listed, registered_fields_are_listed, requests_agree,
};
