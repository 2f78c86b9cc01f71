//! What handlers are given of a request.

use body_reading::StreamingBody;
use schema_values::List;
use typed_values::Tree;

/// What a slot is given.
#[derive(Drop)]
pub enum Arg {
    /// What the request denotes under the slot's descriptor; for a page `Fields` of two:
    /// `Variant` 0 of a scan or `Variant` 1 of a selector, and the limit, which is `None` or
    /// `Some` of a number.
    Tree(Tree),
    /// The bytes of the body.
    Raw(List<u8>),
    /// The body itself.
    Stream(StreamingBody),
}

/// One argument for each slot, in order.
pub type ArgList = List<Arg>;
