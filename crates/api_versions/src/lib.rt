//! Versions of an API: the ranges of versions that endpoints serve, and the version that a request
//! asks for.
#![tactic(auto)]

mod in_header;
mod laws;
mod pair;
mod policy;
mod range;
mod versions;

pub use in_header::ClientSpecifiesVersionInHeader;
pub use laws::{one_answer, one_version_held, order_is_total, precedence_first, ties_are_the_same};
pub use pair::OrderedVersionPair;
pub use policy::{DynamicVersionPolicy, VersionPolicy};
pub use range::ApiEndpointVersions;
