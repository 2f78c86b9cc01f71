//! Which slots take the body of a request.
ghost use Rattle.std.specs.Prelude.{◌≡◌, ◌↔◌, IsTrue};
ghost use Rattle.handler_shapes.specs.BodySlots.{BodyComesLast, takes_body};

use crate::slot::Slot;

impl Slot {
    /// Whether the slot takes the body: decoded, as bytes or as a stream.
    pub fn takes_body(&self) -> bool
        ensures { result ≡ takes_body self.now }
    {
        matches!(
            self,
            Slot::TypedBody(_, _) | Slot::RawBody | Slot::StreamBody
        )
    }
}

/// Whether at most one slot takes the body, and it is the last one.
pub fn body_comes_last(slots: &[Slot]) -> bool
    ensures { IsTrue result ↔ BodyComesLast slots.now }
{
    match slots {
        [] => true,
        [_] => true,
        [slot, rest @ ..] => !slot.takes_body() && body_comes_last(rest),
    }
}
