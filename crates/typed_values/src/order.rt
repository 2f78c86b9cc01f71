//! What is found by its name.

ghost use Rattle.std.specs.Prelude.{◌≡◌, map, option_map};
ghost use Rattle.std.specs.Cmp.Lexicographic.{slice_cmp};
ghost use Rattle.std.specs.List.Sorted.{IsSortedByKey};
ghost use Rattle.std.specs.Ordering.{nat_cmp};
ghost use Rattle.typed_values.specs.Denotes.{named_from};
ghost use Rattle.typed_values.specs.Order.{first_by};

use schema_values::{HasName, Text};

/// The first item of a name, and its place.
pub(crate) fn find_named<'a, T: HasName>(items: &'a [T], name: &Text) -> Option<(usize, &'a T)>
    ensures { option_map (λ found. (found.0, found.1.now)) result
        ≡ named_from T.name_of 0 items.now name.now }
{
    for (place, item) in items.iter().enumerate() {
        if item.name().equals(name) {
            return Some((place, item));
        }
    }
    None
}

/// The first item of a name, by halves among items in the order of their names.
pub(crate) fn first_named<'a, T: HasName>(ordered: &[&'a T], name: &Text) -> Option<&'a T>
    requires { IsSortedByKey T.name_of (slice_cmp nat_cmp) (map (λ item. item.now) ordered.now) }
    ensures { option_map (λ item. item.now) result
        ≡ first_by T.name_of (map (λ item. item.now) ordered.now) name.now }
{
    let place = ordered.partition_point(|item| item.name() < name);
    let Some(item) = ordered.get(place) else {
        return None;
    };
    if item.name().equals(name) {
        Some(*item)
    } else {
        None
    }
}
