//! What follows from the definitions.
ghost use Rattle.std.specs.Prelude.{◌≡◌, ◌+◌, ◌≤◌, ◌↔◌, ℕ, List, length, take, Result, Ok};
ghost use Rattle.http_bodies.specs.Frames.{all_data};
ghost use Rattle.http_bodies.specs.declared.frame.Frame.{Frame};
ghost use Rattle.body_reading.specs.Streams.{next_in};
ghost use Rattle.body_reading.specs.Whole.{HasCause, whole};
ghost use Rattle.body_reading.specs.declared.whole.BodyError.{BodyError};

/// What a whole body gives is the one answer that has its cause in the frames: the content of all;
/// the size of the least number of first frames whose content passes the limit; or one more than
/// the budget. It does nothing: its clause is for proofs, as those below.
pub fn outcomes_have_causes()
    ensures { (limit budget : ℕ) (frames : List Frame) (result : Result (List ℕ) BodyError)
        → (result ≡ whole limit budget frames) ↔ HasCause limit budget frames result }
{}

/// A body whose frames are within the budget and whose content is within the limit gives its
/// content.
pub fn bodies_within_limits_are_read()
    ensures { (limit budget : ℕ) (frames : List Frame)
        → length frames ≤ budget → length (all_data frames) ≤ limit
        → whole limit budget frames ≡ Ok (all_data frames) }
{}

/// Two bodies within budget and limit that have the same content are read alike, however they are
/// cut into frames.
pub fn cuts_are_read_alike()
    ensures { (limit budget : ℕ) (frames others : List Frame) → all_data frames ≡ all_data others
        → length frames ≤ budget → length others ≤ budget → length (all_data frames) ≤ limit
        → whole limit budget frames ≡ whole limit budget others }
{}

/// What comes next to a reader is told by as many frames as may yet come, and one more.
pub fn first_frames_are_enough()
    ensures { (cap sum room : ℕ) (frames : List Frame)
        → next_in cap sum room (take (room + 1) frames) ≡ next_in cap sum room frames }
{}
