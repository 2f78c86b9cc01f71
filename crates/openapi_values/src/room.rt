// The steps left at one value: one for each JSON value still to be passed. These values stand for them, so no
// count can overflow, and they are listed in the frames of the recursion, which takes no memory.
ghost use Rattle.std.specs.Prelude.{◌≡◌, ◌+◌, suc, sum, map};
ghost use Rattle.openapi_values.specs.Room.{values};
ghost use Rattle.openapi_values.specs.Steps.{left};
ghost use Rattle.openapi_values.specs.ValuesOfMembers.{member_values};

use schema_values::{Json, Member};

/// The steps that are left.
#[derive(Clone, Copy)]
pub(crate) enum Steps<'a> {
    /// None.
    End,
    /// Those of a first item and of the later ones, and those after them.
    Items {
        first: &'a Json,
        later: &'a [Json],
        after: &'a Steps<'a>,
    },
    /// Those of a first member and of the later ones, and those after them.
    Members {
        first: &'a Member,
        later: &'a [Member],
        after: &'a Steps<'a>,
    },
}

/// A step for each value in items, and those after.
pub(crate) fn of_items<'a>(items: &'a [Json], after: &'a Steps<'a>) -> Steps<'a>
    ensures { left result ≡ sum (map values items.now) + left after.now }
{
    match items.split_first() {
        Some((first, later)) => Steps::Items {
            first,
            later,
            after,
        },
        None => *after,
    }
}

/// A step for each value in members, and those after.
pub(crate) fn of_members<'a>(members: &'a [Member], after: &'a Steps<'a>) -> Steps<'a>
    ensures { left result ≡ sum (map member_values members.now) + left after.now }
{
    match members.split_first() {
        Some((first, later)) => Steps::Members {
            first,
            later,
            after,
        },
        None => *after,
    }
}

/// What is left once a value is passed: a step for each value inside it, and those after.
pub(crate) fn inside<'a>(value: &'a Json, after: &'a Steps<'a>) -> Steps<'a>
    ensures { suc (left result) ≡ values value.now + left after.now }
{
    match value {
        Json::List(items) => of_items(items.as_slice(), after),
        Json::Object(members) => of_members(members.as_slice(), after),
        _ => *after,
    }
}
