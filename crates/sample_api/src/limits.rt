//! The title and the limits that the sample is served with.
ghost use Rattle.std.specs.Prelude.{◌≡◌, ◌^◌, codes};

use request_parts::ServerConfig;
use std::num::NonZeroU32;

/// The title of its documents.
pub const TITLE: &str = "sample";

/// The most frames of a body.
pub const FRAME_BUDGET: u64 = 1_000;

/// The most bytes of a line, without its newline.
pub const LONGEST_LINE: u64 = 1_048_576;

/// The most bytes of the whole input.
pub const MOST_INPUT: u64 = 2_147_483_648;

/// What the constants of this crate are. It does nothing: its clauses are for proofs.
pub fn limits_are()
    ensures title { TITLE.now ≡ codes "sample" }
    ensures frames { FRAME_BUDGET ≡ 1000 }
    ensures line { LONGEST_LINE ≡ 2 ^ 20 }
    ensures input { MOST_INPUT ≡ 2 ^ 31 }
{}

/// Bodies of at most 1,024 bytes where an endpoint does not say, and pages of 100 items where a request does not say,
/// of at most 10,000.
pub fn server_config() -> ServerConfig
    ensures body { result.default_request_body_max_bytes ≡ 2 ^ 10 }
    ensures most { result.page_max_nitems.value ≡ 10000 }
    ensures default { result.page_default_nitems.value ≡ 100 }
{
    ServerConfig {
        default_request_body_max_bytes: 1_024,
        page_max_nitems: NonZeroU32::new(10_000).unwrap(),
        page_default_nitems: NonZeroU32::new(100).unwrap(),
    }
}
