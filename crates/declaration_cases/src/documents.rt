//! The document of the endpoints of a case. `"title"` and `"version"` name the API, and `"info"`
//! says more of it: `{"description", "terms_of_service", "contact":{"name", "url", "email"},
//! "license":{"name", "url"}}`.
ghost use Rattle.std.specs.Prelude.{All, IsTrue, map};
ghost use Rattle.handler_shapes.specs.ShapeChecks.{ShapePasses};
ghost use Rattle.endpoint_checks.specs.EndpointIndexes.{IsIndexed};

use crate::registered::register;
use api_declarations::{Declaration, Declared};
use api_documents::document;
use api_registration::{ApiDescriptionRegisterError, EndpointIndex};
use case_notation::{CaseError, Reader, labelled, string_told};
use endpoint_notation::{PlainEndpoint, items_at, read_text_or, settings_at, version_at};
use handler_shapes::shape_passes;
use openapi_values::{Contact, Info, License, Part};
use schema_values::{Json, List, Text};
use semver::Version;
use std::alloc::{AllocError, Global};
use tag_config::TagConfig;

/// The document of the endpoints of a case, or why one of them may not be registered.
pub fn document_told(alloc: Global, case: &Json) -> Result<Json, CaseError> {
    let endpoints = items_at(case, "endpoints")?;
    let settings = settings_at(alloc, case)?;
    told_under(alloc, case, &settings, endpoints)
}

fn told_under(
    alloc: Global,
    case: &Json,
    settings: &TagConfig,
    noted: &[Json],
) -> Result<Json, CaseError> {
    let mut registered = List::new(alloc);
    let mut index = EndpointIndex::new(alloc);
    match register_all(alloc, settings, &mut registered, &mut index, noted)? {
        Some(error) => refusal_told(alloc, &error),
        None => document_of(alloc, case, settings, registered.as_slice()),
    }
}

// Registers the endpoints that are noted, up to the first that may not be, of which the error is told.
fn register_all(
    alloc: Global,
    settings: &TagConfig,
    registered: &mut List<PlainEndpoint>,
    index: &mut EndpointIndex,
    noted: &[Json],
) -> Result<Option<ApiDescriptionRegisterError>, CaseError>
    requires { IsIndexed (map ⟦<PlainEndpoint as Declared>⟧.declared registered.old) index.old }
{
    for one in noted {
        if let Some(error) = register(alloc, settings, registered, index, one)? {
            return Ok(Some(error));
        }
    }
    Ok(None)
}

fn refusal_told(alloc: Global, error: &ApiDescriptionRegisterError) -> Result<Json, CaseError> {
    let (cause, id) = (error.cause(), error.operation_id());
    let told = format!(in alloc; "{error}, {cause:?} of {id}");
    labelled(alloc, "refused", string_told(told))
}

fn document_of(
    alloc: Global,
    case: &Json,
    settings: &TagConfig,
    endpoints: &[PlainEndpoint],
) -> Result<Json, CaseError> {
    let declarations = declarations_of(alloc, endpoints)?;
    if !all_pass(declarations.as_slice()) {
        return Err(CaseError::Expected("shapes that pass their checks"));
    }
    written(alloc, case, settings, declarations.as_slice())
}

fn declarations_of<'e>(
    alloc: Global,
    endpoints: &'e [PlainEndpoint],
) -> Result<Vec<Declaration<'e>>, AllocError> {
    let mut declarations = Vec::new(alloc);
    for endpoint in endpoints {
        declarations.push(endpoint.declaration())?;
    }
    Ok(declarations)
}

fn all_pass(declarations: &[Declaration<'_>]) -> bool
    ensures { IsTrue result → All (λ d. ShapePasses d.shape) declarations.now }
{
    for declaration in declarations {
        if !passes(declaration) {
            return false;
        }
    }
    true
}

fn passes(declaration: &Declaration<'_>) -> bool
    ensures { IsTrue result → ShapePasses declaration.now.shape }
{
    shape_passes(declaration.shape)
}

fn written(
    alloc: Global,
    case: &Json,
    settings: &TagConfig,
    declarations: &[Declaration<'_>],
) -> Result<Json, CaseError>
    requires { All (λ d. ShapePasses d.shape) declarations.now }
{
    let version = version_at(alloc, case)?;
    let info = info_of(alloc, case, &version)?;
    written_at(alloc, declarations, settings, &info, &version)
}

fn written_at(
    alloc: Global,
    declarations: &[Declaration<'_>],
    settings: &TagConfig,
    info: &Info,
    version: &Version,
) -> Result<Json, CaseError>
    requires { All (λ d. ShapePasses d.shape) declarations.now }
{
    let document = Box::new(
        alloc,
        document(alloc, declarations, settings, info, version)?,
    )?;
    Ok(document.to_json(alloc)?)
}

fn info_of(alloc: Global, case: &Json, version: &Version) -> Result<Info, CaseError> {
    let version = Text::from_string(format!(in alloc; "{version}")?);
    let mut reader = Reader::new(alloc);
    let info = match case.get("info") {
        Some(noted) => {
            let names = ["description", "terms_of_service", "contact", "license"];
            reader.check_names(noted, &names);
            read_info(&mut reader, case, version, noted)
        }
        None => read_info(&mut reader, case, version, &Json::Null),
    };
    reader.finish(info)
}

fn read_info(reader: &mut Reader, case: &Json, version: Text, noted: &Json) -> Info {
    Info {
        title: read_text_or(reader, case, "title", "sample"),
        version,
        description: reader.maybe_text(noted.get("description")),
        terms_of_service: reader.maybe_text(noted.get("terms_of_service")),
        contact: read_contact(reader, noted),
        license: read_license(reader, noted),
    }
}

fn read_contact(reader: &mut Reader, noted: &Json) -> Option<Contact> {
    let contact = noted.get("contact")?;
    reader.check_names(contact, &["name", "url", "email"]);
    Some(Contact {
        name: reader.maybe_text(contact.get("name")),
        url: reader.maybe_text(contact.get("url")),
        email: reader.maybe_text(contact.get("email")),
    })
}

fn read_license(reader: &mut Reader, noted: &Json) -> Option<License> {
    let license = noted.get("license")?;
    reader.check_names(license, &["name", "url"]);
    Some(License {
        name: reader.text_at(license, "name"),
        url: reader.maybe_text(license.get("url")),
    })
}
