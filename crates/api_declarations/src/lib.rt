//! What is said of endpoints without their handlers, and which of them serves a request.
#![tactic(auto)]

mod declaration;
mod declared;
mod laws;
mod lookup;
mod serving;

pub use declaration::Declaration;
pub use declared::Declared;
pub use laws::{holds_decides, serves_decides};
pub use lookup::{endpoint_at, endpoint_for};
pub use serving::holds;
