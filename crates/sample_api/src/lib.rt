//! The sample API: points, folders, and bodies of any kind. Its types and operations are those of `sample_types`.
#![tactic(auto)]

mod endpoint;
mod first_store;
mod folder_count;
mod inner;
mod limits;
mod point_create;
mod point_drop;
mod point_probe;
mod raw_size;
mod replies;
mod sample_handler;

pub use endpoint::{SampleEndpoint, endpoints};
pub use first_store::points_store;
pub use limits::{FRAME_BUDGET, LONGEST_LINE, MOST_INPUT, TITLE, limits_are, server_config};
pub use sample_handler::SampleHandler;
pub use sample_types::Operation;
