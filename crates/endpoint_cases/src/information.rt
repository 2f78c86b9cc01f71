//! What a document says of an API as a whole. `"says"` is a list of the names of calls, each with what it says, in
//! turn: `["description",TEXT]`, `["terms_of_service",TEXT]`, `["contact_name",TEXT]`, `["contact_url",TEXT]`,
//! `["contact_email",TEXT]`, `["license_name",TEXT]` or `["license",TEXT,TEXT]`.
ghost use Rattle.api_endpoints.specs.Endpoints.{boxed};
ghost use Rattle.api_descriptions.specs.Ready.{IsReady};

use crate::documents::{Head, head_of};
use api_descriptions::{ApiDescription, OpenApiDefinition};
use api_respond::RouteHandler;
use case_notation::{CaseError, Reader};
use endpoint_notation::items_at;
use schema_values::Json;
use std::alloc::{AllocError, Global};

/// The document of an API of which this was said, as a copy of what says it has it.
pub fn document_said(alloc: Global, case: &Json, api: &ApiDescription) -> Result<Json, CaseError>
    requires { IsReady (boxed ⟦<dyn RouteHandler as RouteHandler>⟧) api.now }
{
    let says = items_at(case, "says")?;
    let Head { title, version } = head_of(alloc, case)?;
    let mut reader = Reader::new(alloc);
    let json = {
        let mut definition = api.openapi(alloc, title.as_str(), version)?;
        for noted in says {
            let (name, text, url) = read_said(&mut reader, noted);
            let outcome = match name {
                "description" => definition.description(text),
                "terms_of_service" => definition.terms_of_service(text),
                "contact_name" => definition.contact_name(text),
                "contact_url" => definition.contact_url(text),
                "contact_email" => definition.contact_email(text),
                "license_name" => definition.license_name(text),
                "license" => definition.license(text, url),
                _ => unread(&mut reader),
            };
            reader.or(outcome, ());
        }
        json_of_copy(alloc, &definition)
    };
    reader.finish(json?)
}

fn json_of_copy(alloc: Global, definition: &OpenApiDefinition<'_>) -> Result<Json, AllocError>
    requires { IsReady (boxed ⟦<dyn RouteHandler as RouteHandler>⟧) definition.now.api.now }
{
    let copy = definition.copy(alloc)?;
    copy.json(alloc)
}

// The name of a call, and what it says: a licence its name and where it is found, any other call one text.
fn read_said<'a>(reader: &mut Reader, noted: &'a Json) -> (&'a str, &'a str, &'a str) {
    match reader.items(noted) {
        [Json::Text(name), Json::Text(text)] if !name.equals_str("license") => {
            (name.as_str(), text.as_str(), "")
        }
        [Json::Text(name), Json::Text(text), Json::Text(url)] if name.equals_str("license") => {
            (name.as_str(), text.as_str(), url.as_str())
        }
        _ => ("", "", ""),
    }
}

fn unread(reader: &mut Reader) -> Result<(), AllocError> {
    reader.expected("the name of a call, and what it says");
    Ok(())
}
