//! The document of endpoints.
ghost use Rattle.std.specs.Prelude.{◌≡◌, [], All, IfOk, OnOk, fold};
ghost use Rattle.std.specs.List.{flat_map};
ghost use Rattle.semver.specs.Identifiers.{parts_of};
ghost use Rattle.handler_shapes.specs.ShapeChecks.{ShapePasses};
ghost use Rattle.path_templates.specs.Places.{places_at};
ghost use Rattle.api_documents.specs.Components.{components_of};
ghost use Rattle.api_documents.specs.Documents.{document_of, errors_of};
ghost use Rattle.api_documents.specs.ErrorNames.{listed_errors, with_error};
ghost use Rattle.api_documents.specs.Listed.{listed};
ghost use Rattle.api_documents.specs.Operations.{path_items};
ghost use Rattle.api_documents.specs.Places.{at_places};

use crate::components::components;
use crate::error_names::{NamedError, add_error};
use crate::listed::{ListedPaths, at_method, listed_paths};
use crate::operations::path_items;
use crate::tags::tags;
use api_declarations::Declaration;
use openapi_values::{Components, Info, OpenApi, Part, PathItem};
use schema_values::{List, Text};
use semver::Version;
use std::alloc::{AllocError, Global};
use tag_config::TagConfig;

/// The document of endpoints at a version, as a value of the document's types (OpenAPI 3.0.3, OpenAPI
/// Object). It lists the endpoints that are visible and whose ranges hold the version. Fails only for
/// want of memory.
///
/// Beside what grows with the endpoints, the error of each is compared with the errors that are named
/// before it, the endpoints of one path are looked through for each method, and the table of each is
/// gone through once more for each further step along its references.
pub fn document(
    alloc: Global,
    declarations: &[Declaration<'_>],
    tag_config: &TagConfig,
    info: &Info,
    version: &Version,
) -> Result<OpenApi, AllocError>
    requires { All (λ d. ShapePasses d.shape) declarations.now }
    ensures { IfOk result (λ document. document ≡ document_of declarations.now
        tag_config.now.tags info.now (parts_of version.now)) }
{
    let openapi = Text::from_ascii(alloc, "3.0.3")?;
    let info = info.copy(alloc)?;
    let tags = tags(alloc, &tag_config.tags, declarations, version)?;
    let (paths, components) = paths_and_components(alloc, declarations, version)?;
    Ok(OpenApi {
        openapi,
        info,
        paths,
        components,
        tags,
    })
}

// The operations of the listed endpoints, and what they refer to.
fn paths_and_components(
    alloc: Global,
    declarations: &[Declaration<'_>],
    version: &Version,
) -> Result<(List<(Text, PathItem)>, Components), AllocError>
    requires { All (λ d. ShapePasses d.shape) declarations.now }
    ensures paths { IfOk result (λ made. made.0
        ≡ path_items (errors_of (listed (parts_of version.now) declarations.now))
        (listed (parts_of version.now) declarations.now)) }
    ensures components { IfOk result (λ made. made.1
        ≡ components_of (errors_of (listed (parts_of version.now) declarations.now))
        (listed (parts_of version.now) declarations.now)) }
{
    let listed_paths = listed_paths(alloc, declarations, version)?;
    let named = named_errors(alloc, declarations, &listed_paths)?;
    let paths = path_items(alloc, named.as_slice(), declarations, &listed_paths)?;
    let components = components(alloc, named.as_slice(), declarations, version)?;
    Ok((paths, components))
}

// The errors of the listed endpoints under their names, which are given in the order of the operations.
fn named_errors<'a>(
    alloc: Global,
    declarations: &[Declaration<'a>],
    listed_paths: &ListedPaths,
) -> Result<List<NamedError<'a>>, AllocError>
    requires { All (λ d. ShapePasses d.shape) declarations.now }
    ensures { IfOk result (λ named. named ≡ fold with_error [] (listed_errors
        (flat_map (λ path. at_places declarations.now (places_at listed_paths.now.index path))
        listed_paths.now.paths))) }
{
    let mut named = List::new(alloc);
    for path in listed_paths.paths.as_slice() {
        let places = listed_paths.index.at(path);
        add_errors(alloc, &mut named, declarations, places)?;
    }
    Ok(named)
}

// Adds the errors of the endpoints at some places, in the order of their methods.
fn add_errors<'a>(
    alloc: Global,
    named: &mut List<NamedError<'a>>,
    declarations: &[Declaration<'a>],
    places: &[usize],
) -> Result<(), AllocError>
    requires { All (λ d. ShapePasses d.shape) declarations.now }
    ensures { OnOk result (named.new ≡ fold with_error named.old
        (listed_errors (at_places declarations.now places.now))) }
{
    for method in [
        "GET", "PUT", "POST", "DELETE", "OPTIONS", "HEAD", "PATCH", "TRACE",
    ] {
        if let Some(declaration) = at_method(declarations, places, method) {
            add_error(alloc, named, declaration)?;
        }
    }
    Ok(())
}
