//! A source of frames of the program's own: a body of which it does not tell what is left.
use http_bodies::{Body, Frame, FrameError, FrameSource};
use std::alloc::Global;

/// Gives the frames of a body.
#[derive(Drop)]
pub struct OwnSource {
    /// The body.
    pub body: Body,
}

impl FrameSource for OwnSource {
    ghost use Rattle.std.specs.Prelude.{None};
    ghost use Rattle.http_bodies.specs.Bodies.{state_of};

    ghost state = { λ source. record (state_of source.body) { left = None } };

    fn next_frame(&mut self, alloc: Global) -> Result<Option<Frame>, FrameError> {
        self.body.next_frame(alloc)
    }
}
