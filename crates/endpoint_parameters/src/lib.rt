//! The parameters of endpoints, and how the first of which something holds is found and told.
#![tactic(auto)]

mod first;
mod parameter;
mod parameter_causes;
mod resolved;
mod told;

pub use first::{Condition, first_of, first_place, is_any};
pub use parameter::{Parameter, Place, names_in, parameters};
pub use parameter_causes::{BadHeaderName, Doubled, InBoth, MayBeAbsent, NotScalar, NotStringList};
pub use resolved::{fields_of_struct, is_scalar, open_fields};
pub use told::{ParameterCause, quoted, tell_first};
