//! Reads what a document says of its API.
use crate::part_notation::{Noted, maybe_at, part_at, text_at, written};
use case_notation::{CaseError, Reader};
use openapi_values::{Contact, ExternalDocs, Info, License, TagObject};
use schema_values::Json;
use std::alloc::Global;

/// What a copy of such a part is written as.
pub fn info_written(alloc: Global, kind: &str, noted: &Json) -> Result<Json, CaseError> {
    match kind {
        "Info" => written::<Info>(alloc, noted),
        "Contact" => written::<Contact>(alloc, noted),
        "License" => written::<License>(alloc, noted),
        "TagObject" => written::<TagObject>(alloc, noted),
        "ExternalDocs" => written::<ExternalDocs>(alloc, noted),
        _ => Err(CaseError::Expected("a kind of parts")),
    }
}

impl Noted for Info {
    fn read(reader: &mut Reader, noted: &Json) -> Info {
        reader.check_names(
            noted,
            &[
                "title",
                "description",
                "termsOfService",
                "contact",
                "license",
                "version",
            ],
        );
        Info {
            title: part_at(reader, noted, "title"),
            description: text_at(reader, noted, "description"),
            terms_of_service: text_at(reader, noted, "termsOfService"),
            version: part_at(reader, noted, "version"),
            license: maybe_at(reader, noted, "license"),
            contact: maybe_at(reader, noted, "contact"),
        }
    }
}

impl Noted for Contact {
    fn read(reader: &mut Reader, noted: &Json) -> Contact {
        reader.check_names(noted, &["name", "url", "email"]);
        Contact {
            name: text_at(reader, noted, "name"),
            url: text_at(reader, noted, "url"),
            email: text_at(reader, noted, "email"),
        }
    }
}

impl Noted for License {
    fn read(reader: &mut Reader, noted: &Json) -> License {
        reader.check_names(noted, &["name", "url"]);
        License {
            name: part_at(reader, noted, "name"),
            url: text_at(reader, noted, "url"),
        }
    }
}

impl Noted for TagObject {
    fn read(reader: &mut Reader, noted: &Json) -> TagObject {
        reader.check_names(noted, &["name", "description", "externalDocs"]);
        TagObject {
            name: part_at(reader, noted, "name"),
            description: text_at(reader, noted, "description"),
            external_docs: maybe_at(reader, noted, "externalDocs"),
        }
    }
}

impl Noted for ExternalDocs {
    fn read(reader: &mut Reader, noted: &Json) -> ExternalDocs {
        reader.check_names(noted, &["description", "url"]);
        ExternalDocs {
            url: part_at(reader, noted, "url"),
            description: text_at(reader, noted, "description"),
        }
    }
}
