//! Replies of the handlers.
ghost use Rattle.std.specs.Prelude.{◌≡◌};
ghost use Rattle.sample_api.specs.Handlers.{replied};

use api_respond::{Content, Reply, SuccessReply};
use header_lists::HeaderList;
use http::StatusCode;
use std::alloc::Global;

/// A success of a code, with this content and no other header lines.
pub(crate) fn replied(alloc: Global, status: StatusCode, content: Content) -> Reply
    ensures { result ≡ replied status content }
{
    Reply::Success(SuccessReply {
        status,
        content,
        named: None,
        others: HeaderList::new(alloc),
    })
}
