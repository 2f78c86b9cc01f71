//! What handlers take and give, as data: slots and arguments, and the shapes of responses and
//! errors.
#![tactic(auto)]

mod arguments;
mod body_slots;
mod checks;
mod shape;
mod slot;

pub use arguments::{Arg, ArgList};
pub use body_slots::body_comes_last;
pub use checks::{shape_passes, slot_passes};
pub use shape::{ApiEndpointErrorResponse, ApiEndpointResponse, ContentShape, HandlerShape};
pub use slot::Slot;
