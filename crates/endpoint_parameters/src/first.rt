//! The first of several things of which something holds.
ghost use Rattle.std.specs.Prelude.{◌≡◌, ◌↔◌, ⊤, false, All, IfNone, IsTrue, MatchOption};
ghost use Rattle.endpoint_parameters.specs.Firsts.{IsFirstOf, IsFirstPlace, IsSuchAt, IsSuchAtOneOf};
ghost use Rattle.endpoint_parameters.specs.Firsts.{NoneOf};

/// What may hold of a thing.
pub trait Condition<T> {
    /// It holds of the thing.
    ghost Holds: { Self → T → Type 0 };

    /// What is known of a thing of which it does not hold; nothing, where it is left out.
    ghost Clear: { Self → T → Type 0 } = { λ _ _. ⊤ };

    /// Whether it holds of the thing.
    fn holds(&self, thing: &T) -> bool
        ensures holds { IsTrue result ↔ Holds self.now thing.now }
        ensures clear { result ≡ false → Clear self.now thing.now };
}

/// The first thing of which a condition holds.
pub fn first_of<'a, T, C: Condition<T>>(condition: &C, things: &'a [T]) -> Option<&'a T>
    ensures first { MatchOption result (NoneOf (C.Holds condition.now) things.now)
        (λ thing. IsFirstOf (C.Holds condition.now) things.now thing.now) }
    ensures clear { IfNone result (All (C.Clear condition.now) things.now) }
{
    for thing in things {
        if condition.holds(thing) {
            return Some(thing);
        }
    }
    None
}

/// The first of some places before an end at which a condition holds of a thing, or the end.
pub fn first_place<T, C: Condition<T>>(
    condition: &C,
    things: &[T],
    places: &[usize],
    end: usize,
) -> usize
    ensures { IsFirstPlace (C.Holds condition.now) things.now places.now end result }
{
    let mut first = end;
    for place in places {
        if *place < first && holds_at(condition, things, *place) {
            first = *place;
        }
    }
    first
}

/// Whether there is a thing at one of some places of which a condition holds.
pub fn is_any<T, C: Condition<T>>(condition: &C, things: &[T], places: &[usize]) -> bool
    ensures { IsTrue result ↔ IsSuchAtOneOf (C.Holds condition.now) things.now places.now }
{
    for place in places {
        if holds_at(condition, things, *place) {
            return true;
        }
    }
    false
}

// Whether there is a thing at a place of which a condition holds.
fn holds_at<T, C: Condition<T>>(condition: &C, things: &[T], place: usize) -> bool
    ensures { IsTrue result ↔ IsSuchAt (C.Holds condition.now) things.now place }
{
    match things.get(place) {
        Some(thing) => condition.holds(thing),
        None => false,
    }
}
