//! The arguments of a handler as values of Rust types: of a path, a query, headers, a page and a
//! body.
#![tactic(auto)]

mod body;
mod common;
mod header;
mod paged_query;
mod path;
mod query;
mod tuples;

pub use body::{TypedBody, UntypedBody};
pub use common::{ExclusiveExtractor, RequestExtractor, SharedExtractor};
pub use header::Header;
pub use paged_query::PagedQuery;
pub use path::Path;
pub use query::Query;
