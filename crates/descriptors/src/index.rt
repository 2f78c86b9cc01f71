ghost use Rattle.std.specs.Prelude.{◌≡◌, Some, None, IfOk, IfErr};
ghost use Rattle.std.specs.Cmp.Lexicographic.{slice_cmp};
ghost use Rattle.std.specs.Ordering.{nat_cmp};
ghost use Rattle.std.specs.Str.{chars};
ghost use Rattle.descriptors.specs.Definitions.{entry_of};
ghost use Rattle.descriptors.specs.Index.{IsGapFor, IsTable, name_at};

use crate::table::Definition;
use std::cmp::Ordering;

/// The definition of a name, looked up by halves, else where its place would go among the places.
pub(crate) fn search_places<'a>(
    definitions: &'a [Definition],
    places: &[usize],
    name: &str,
) -> Result<&'a Definition, usize>
    requires { IsTable definitions.now places.now }
    ensures found { IfOk result (λ entry. entry_of definitions.now (chars name.now) ≡ Some entry.now) }
    ensures absent { IfErr result (λ _. entry_of definitions.now (chars name.now) ≡ None) }
    ensures gap { IfErr result (IsGapFor definitions.now places.now (chars name.now)) }
{
    match places.binary_search_by(|place| compare_at(definitions, *place, name)) {
        Ok(at) => {
            let place = places[at];
            Ok(&definitions[place])
        }
        Err(gap) => Err(gap),
    }
}

// A place that has no definition, of which an index has none, counts as one with an empty name.
fn compare_at(definitions: &[Definition], place: usize, name: &str) -> Ordering
    ensures { result ≡ slice_cmp nat_cmp (name_at definitions.now place) (chars name.now) }
{
    match definitions.get(place) {
        Some(definition) => compare(definition.name.as_str(), name),
        None => compare("", name),
    }
}

fn compare(text: &str, other: &str) -> Ordering
    ensures { result ≡ slice_cmp nat_cmp (chars text.now) (chars other.now) }
{
    text.cmp(other)
}
