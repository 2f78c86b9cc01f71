//! What is true of reading the body of a response.
ghost use Rattle.std.specs.Prelude.{ℕ};
ghost use Rattle.http_bodies.specs.Bodies.{BodyState};
ghost use Rattle.reply_lines.specs.ResponseBodies.{FailsWithin, HasMoreFrames, IsReadWhole};

/// No two of these are true of one body under one budget: it is read whole; a call fails; it has more frames than
/// the budget. So each is told exactly where it has its cause.
pub fn one_reading_alone()
    ensures whole { (budget : ℕ) (body : BodyState) → IsReadWhole budget body
        → ¬ FailsWithin budget body × ¬ HasMoreFrames budget body }
    ensures fails { (budget : ℕ) (body : BodyState) → FailsWithin budget body
        → ¬ IsReadWhole budget body × ¬ HasMoreFrames budget body }
    ensures many { (budget : ℕ) (body : BodyState) → HasMoreFrames budget body
        → ¬ IsReadWhole budget body × ¬ FailsWithin budget body }
{}
