use crate::objects::{add_option, add_part};
use crate::part::{Part, copy_option};
use schema_values::{Json, List, Text};
use std::alloc::{AllocError, Global};

/// What an API is called, its version, and who stands behind it (OpenAPI 3.0.3, Info Object).
#[derive(Drop)]
pub struct Info {
    /// The API's name.
    pub title: Text,
    /// What is said of it.
    pub description: Option<Text>,
    /// Where the terms of service are found.
    pub terms_of_service: Option<Text>,
    /// Whom to ask about it.
    pub contact: Option<Contact>,
    /// What it may be used under.
    pub license: Option<License>,
    /// The version of the API, not of OpenAPI.
    pub version: Text,
}

/// Whom to ask about an API (OpenAPI 3.0.3, Contact Object).
#[derive(Drop)]
pub struct Contact {
    /// Their name.
    pub name: Option<Text>,
    /// Where more is found.
    pub url: Option<Text>,
    /// Where to write to.
    pub email: Option<Text>,
}

/// What an API may be used under (OpenAPI 3.0.3, License Object).
#[derive(Drop)]
pub struct License {
    /// The licence's name.
    pub name: Text,
    /// Where its text is found.
    pub url: Option<Text>,
}

impl Part for Info {
    ghost use Rattle.openapi_values.specs.Info.{info_json};

    ghost json = { info_json };

    fn to_json(&self, alloc: Global) -> Result<Json, AllocError> {
        let mut members = List::new(alloc);
        add_part(alloc, &mut members, "title", &self.title)?;
        add_option(alloc, &mut members, "description", &self.description)?;
        add_option(
            alloc,
            &mut members,
            "termsOfService",
            &self.terms_of_service,
        )?;
        add_option(alloc, &mut members, "contact", &self.contact)?;
        add_option(alloc, &mut members, "license", &self.license)?;
        add_part(alloc, &mut members, "version", &self.version)?;
        Ok(Json::Object(members))
    }

    fn copy(&self, alloc: Global) -> Result<Info, AllocError> {
        let title = self.title.copy(alloc)?;
        let version = self.version.copy(alloc)?;
        let description = copy_option(alloc, &self.description)?;
        let terms_of_service = copy_option(alloc, &self.terms_of_service)?;
        let license = copy_option(alloc, &self.license)?;
        let contact = copy_option(alloc, &self.contact)?;
        Ok(Info {
            title,
            description,
            terms_of_service,
            contact,
            license,
            version,
        })
    }
}

impl Part for Contact {
    ghost use Rattle.openapi_values.specs.Info.{contact_json};

    ghost json = { contact_json };

    fn to_json(&self, alloc: Global) -> Result<Json, AllocError> {
        let mut members = List::new(alloc);
        add_option(alloc, &mut members, "name", &self.name)?;
        add_option(alloc, &mut members, "url", &self.url)?;
        add_option(alloc, &mut members, "email", &self.email)?;
        Ok(Json::Object(members))
    }

    fn copy(&self, alloc: Global) -> Result<Contact, AllocError> {
        Ok(Contact {
            name: copy_option(alloc, &self.name)?,
            url: copy_option(alloc, &self.url)?,
            email: copy_option(alloc, &self.email)?,
        })
    }
}

impl Part for License {
    ghost use Rattle.openapi_values.specs.Info.{license_json};

    ghost json = { license_json };

    fn to_json(&self, alloc: Global) -> Result<Json, AllocError> {
        let mut members = List::new(alloc);
        add_part(alloc, &mut members, "name", &self.name)?;
        add_option(alloc, &mut members, "url", &self.url)?;
        Ok(Json::Object(members))
    }

    fn copy(&self, alloc: Global) -> Result<License, AllocError> {
        Ok(License {
            name: self.name.copy(alloc)?,
            url: copy_option(alloc, &self.url)?,
        })
    }
}
