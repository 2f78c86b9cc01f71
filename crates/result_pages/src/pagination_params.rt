ghost use Rattle.std.specs.Prelude.{◌≡◌};

use std::num::NonZeroU32;

/// What a client asks of a collection page by page: where the page starts, and how many items it
/// has at most.
#[derive(Drop)]
pub struct PaginationParams<S, P> {
    /// The first page of a scan, or the next one of a scan that began.
    pub page: WhichPage<S, P>,
    /// The most items that the client asks for, if it asks.
    pub limit: Option<NonZeroU32>,
}

/// Which page a client asks for.
#[derive(Drop)]
pub enum WhichPage<S, P> {
    /// The first page, by the parameters of the scan.
    First(S),
    /// The page that a token's selector starts.
    Next(P),
}

impl<S, P> PaginationParams<S, P> {
    /// The first page of a scan. Takes no memory.
    pub fn new_first_page(p: S, limit: Option<NonZeroU32>) -> PaginationParams<S, P>
        ensures page { result.page ≡ WhichPage.First p }
        ensures limit { result.limit ≡ limit }
    {
        PaginationParams {
            page: WhichPage::First(p),
            limit,
        }
    }
}
