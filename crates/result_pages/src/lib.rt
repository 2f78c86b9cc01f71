//! Pages of results, and what is asked of one.
#![tactic(auto)]

mod empty_scan_params;
mod next_page;
mod pagination_order;
mod pagination_params;
mod results_page;

pub use empty_scan_params::EmptyScanParams;
pub use pagination_order::PaginationOrder;
pub use pagination_params::{PaginationParams, WhichPage};
pub use results_page::ResultsPage;
