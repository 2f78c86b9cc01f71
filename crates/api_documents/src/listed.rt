// Which endpoints the document of a version lists, and where they stand.
ghost use Rattle.std.specs.Prelude.{◌≡◌, IfOk, None, map, option_map, slice_get};
ghost use Rattle.semver.specs.Identifiers.{parts_of};
ghost use Rattle.path_templates.specs.Places.{IsIndexOf, first_at, found_or};
ghost use Rattle.api_documents.specs.Listed.{listed, path_of, paths_in_order};
ghost use Rattle.api_documents.specs.Places.{has_method, path_keys};

use api_declarations::Declaration;
use path_templates::{PlaceIndex, without_trailing_slash};
use schema_values::{List, Text};
use semver::Version;
use std::alloc::{AllocError, Global};
use std::collections::BTreeSet;

/// The paths of the listed endpoints in order, and where the endpoints of each path stand.
#[derive(Drop)]
pub(crate) struct ListedPaths {
    /// The paths, in the order of their characters.
    pub paths: List<Text>,
    /// The places of the listed endpoints, by their paths.
    pub index: PlaceIndex,
}

/// The paths of the endpoints that are listed, and their places.
pub(crate) fn listed_paths(
    alloc: Global,
    declarations: &[Declaration<'_>],
    version: &Version,
) -> Result<ListedPaths, AllocError>
    ensures paths { IfOk result (λ listed_paths. listed_paths.paths
        ≡ paths_in_order (listed (parts_of version.now) declarations.now)) }
    ensures index { IfOk result (λ listed_paths.
        IsIndexOf (map (path_keys (parts_of version.now)) declarations.now) listed_paths.index) }
{
    let mut paths = BTreeSet::new(alloc);
    let mut index = PlaceIndex::new(alloc);
    for (place, declaration) in declarations.iter().enumerate() {
        if declaration.is_listed(version) {
            index.add(alloc, path_of(alloc, declaration)?, place)?;
            paths.insert(path_of(alloc, declaration)?)?;
        }
    }
    let paths = in_order(alloc, paths)?;
    Ok(ListedPaths { paths, index })
}

// The path of an endpoint in a document.
fn path_of(alloc: Global, declaration: &Declaration<'_>) -> Result<Text, AllocError>
    ensures { IfOk result (λ path. path ≡ path_of declaration.now) }
{
    Text::from_str(alloc, without_trailing_slash(declaration.path))
}

// The texts of a set, in order.
fn in_order(alloc: Global, set: BTreeSet<Text>) -> Result<List<Text>, AllocError>
    ensures { IfOk result (λ texts. texts ≡ set.keys) }
{
    let mut texts = List::new(alloc);
    for text in set {
        texts.push(text)?;
    }
    Ok(texts)
}

/// The endpoint of a method among those at some places.
pub(crate) fn at_method<'s, 'd>(
    declarations: &'s [Declaration<'d>],
    places: &[usize],
    method: &str,
) -> Option<&'s Declaration<'d>>
    ensures { option_map (λ d. d.now) result
        ≡ first_at (has_method method.now) declarations.now places.now }
{
    for place in places {
        match served_at(declarations, *place, method) {
            Some(declaration) => return Some(declaration),
            None => {}
        }
    }
    None
}

// The endpoint at a place, if there is one and it is served by a method.
fn served_at<'s, 'd>(
    declarations: &'s [Declaration<'d>],
    place: usize,
    method: &str,
) -> Option<&'s Declaration<'d>>
    ensures { option_map (λ d. d.now) result
        ≡ found_or (has_method method.now) (slice_get declarations.now place) None }
{
    match declarations.get(place) {
        Some(declaration) if declaration.method.as_str() == method => Some(declaration),
        _ => None,
    }
}
