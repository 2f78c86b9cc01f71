//! How the programs of cases note endpoints, the shapes of their handlers, requests, bodies and settings of tags, and
//! whether replies are of such a shape.
#![tactic(auto)]

mod arguments;
mod endpoint;
mod fitting;
mod indexed;
mod media;
mod members;
mod reading;
mod refusals;
mod requests;
mod settings;
mod shapes;
mod streams;

pub use arguments::{arg_told, args_told};
pub use endpoint::{PlainEndpoint, endpoint_of, endpoints_at};
pub use fitting::{is_codeless_right, own_fits, success_fits};
pub use indexed::add_endpoint;
pub use media::kind_at;
pub use members::{items_at, number_or, read_text_or, text_or, u64_of};
pub use reading::{Reading, are_served, reading_of};
pub use refusals::error_told;
pub use requests::{
    body_of, content_of, info_of, lines_of, method_at, parts_of, request_at, request_id_of,
    variables_at, version_at,
};
pub use settings::settings_at;
pub use shapes::{shape_of, slots_at, table_at};
pub use streams::{bytes_noted, data_told};
