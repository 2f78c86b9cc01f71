//! Look-up among declared endpoints.
ghost use Rattle.std.specs.Prelude.{◌≡◌, IfOk, IsOk, None, map, option_map, slice_get};
ghost use Rattle.semver.specs.Identifiers.{parts_of};
ghost use Rattle.api_declarations.specs.Keys.{template_keys};
ghost use Rattle.path_templates.specs.Places.{IsIndexOf, first_at, found_or};
ghost use Rattle.api_declarations.specs.Serving.{endpoint_for, serves};
ghost use Rattle.path_templates.specs.Templates.{trimmed};

use crate::declared::Declared;
use http::Method;
use path_templates::{PlaceIndex, without_trailing_slash};
use schema_values::Text;
use semver::Version;
use std::alloc::{AllocError, Global};

/// The first endpoint of a method and a template at a version, in time linear in their number.
pub fn endpoint_for<'s, E: Declared>(
    endpoints: &'s [E],
    version: &Version,
    method: &Method,
    template: &Text,
) -> Option<&'s E>
    ensures { option_map (λ e. e.now) result
        ≡ endpoint_for E.declared (parts_of version.now) method.now template.now endpoints.now }
{
    for endpoint in endpoints {
        if endpoint.declaration().serves(version, method, template) {
            return Some(endpoint);
        }
    }
    None
}

// The endpoint at a place, if there is one and it serves a method and a template at a version.
fn serving_at<'s, E: Declared>(
    endpoints: &'s [E],
    place: usize,
    version: &Version,
    method: &Method,
    template: &Text,
) -> Option<&'s E>
    ensures { option_map (λ e. e.now) result ≡ found_or
        (λ e. serves (parts_of version.now) method.now template.now (E.declared e))
        (slice_get endpoints.now place) None }
{
    match endpoints.get(place) {
        Some(endpoint) if endpoint.declaration().serves(version, method, template) => Some(
            endpoint,
        ),
        _ => None,
    }
}

// The first endpoint at some places that serves a method and a template at a version.
fn found_at<'s, E: Declared>(
    endpoints: &'s [E],
    places: &[usize],
    version: &Version,
    method: &Method,
    template: &Text,
) -> Option<&'s E>
    ensures { option_map (λ e. e.now) result ≡ first_at
        (λ e. serves (parts_of version.now) method.now template.now (E.declared e))
        endpoints.now places.now }
{
    for place in places {
        if let Some(endpoint) = serving_at(endpoints, *place, version, method, template) {
            return Some(endpoint);
        }
    }
    None
}

/// The first endpoint of a method and a template at a version, by the index of their templates, in
/// time linear in the number of those of one template. Memory is taken only where the template has
/// a slash at its end to be dropped.
pub fn endpoint_at<'s, E: Declared>(
    alloc: Global,
    endpoints: &'s [E],
    index: &PlaceIndex,
    version: &Version,
    method: &Method,
    template: &Text,
) -> Result<Option<&'s E>, AllocError>
    requires { IsIndexOf (map template_keys (map E.declared endpoints.now)) index.now }
    ensures found { IfOk result (λ found. option_map (λ e. e.now) found
        ≡ endpoint_for E.declared (parts_of version.now) method.now template.now endpoints.now) }
    ensures without_memory { trimmed template.now ≡ template.now → IsOk result }
{
    let trimmed = without_trailing_slash(template);
    if template.equals_str(trimmed) {
        let places = index.at(template);
        Ok(found_at(endpoints, places, version, method, template))
    } else {
        let key = Text::from_str(alloc, trimmed)?;
        let places = index.at(&key);
        Ok(found_at(endpoints, places, version, method, template))
    }
}
