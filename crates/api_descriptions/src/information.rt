//! What a document says of an API as a whole.
ghost use Rattle.std.specs.Prelude.{◌≡◌, IsOk, IsSome, OnErr, OnOk};
ghost use Rattle.std.specs.Str.{chars};
ghost use Rattle.api_descriptions.specs.Information.{contact_of, license_or, with_contact_email};
ghost use Rattle.api_descriptions.specs.Information.{with_contact_name, with_contact_url};
ghost use Rattle.api_descriptions.specs.Information.{with_description, with_license};
ghost use Rattle.api_descriptions.specs.Information.{with_license_name, with_terms_of_service};

use crate::definition::OpenApiDefinition;
use openapi_values::{Contact, Info, License};
use schema_values::Text;
use std::alloc::AllocError;

impl OpenApiDefinition<'_> {
    /// Says this of the API. Fails only for want of memory, and changes nothing then, as the calls below.
    pub fn description(&mut self, description: &str) -> Result<(), AllocError>
        ensures ok { OnOk result (self.new
            ≡ record self.old { info = with_description (chars description.now) self.old.info }) }
        ensures err { OnErr result (self.new ≡ self.old) }
    {
        self.info.description = Some(Text::from_str(self.alloc, description)?);
        Ok(())
    }

    /// Says where the terms of service are found.
    pub fn terms_of_service(&mut self, terms: &str) -> Result<(), AllocError>
        ensures ok { OnOk result (self.new
            ≡ record self.old { info = with_terms_of_service (chars terms.now) self.old.info }) }
        ensures err { OnErr result (self.new ≡ self.old) }
    {
        self.info.terms_of_service = Some(Text::from_str(self.alloc, terms)?);
        Ok(())
    }

    /// Says whom to ask.
    pub fn contact_name(&mut self, name: &str) -> Result<(), AllocError>
        ensures ok { OnOk result (self.new
            ≡ record self.old { info = with_contact_name (chars name.now) self.old.info }) }
        ensures err { OnErr result (self.new ≡ self.old) }
    {
        let name = Text::from_str(self.alloc, name)?;
        let mut contact = taken_contact(&mut self.info);
        contact.name = Some(name);
        self.info.contact = Some(contact);
        Ok(())
    }

    /// Says where more is found of whom to ask.
    pub fn contact_url(&mut self, url: &str) -> Result<(), AllocError>
        ensures ok { OnOk result (self.new
            ≡ record self.old { info = with_contact_url (chars url.now) self.old.info }) }
        ensures err { OnErr result (self.new ≡ self.old) }
    {
        let url = Text::from_str(self.alloc, url)?;
        let mut contact = taken_contact(&mut self.info);
        contact.url = Some(url);
        self.info.contact = Some(contact);
        Ok(())
    }

    /// Says where to write to.
    pub fn contact_email(&mut self, email: &str) -> Result<(), AllocError>
        ensures ok { OnOk result (self.new
            ≡ record self.old { info = with_contact_email (chars email.now) self.old.info }) }
        ensures err { OnErr result (self.new ≡ self.old) }
    {
        let email = Text::from_str(self.alloc, email)?;
        let mut contact = taken_contact(&mut self.info);
        contact.email = Some(email);
        self.info.contact = Some(contact);
        Ok(())
    }

    /// Says under which licence the API may be used, and where its text is found. The first name that is given
    /// stays.
    pub fn license(&mut self, name: &str, url: &str) -> Result<(), AllocError>
        ensures ok { OnOk result (self.new
            ≡ record self.old { info = with_license (chars name.now) (chars url.now) self.old.info }) }
        ensures err { OnErr result (self.new ≡ self.old) }
    {
        let name = Text::from_str(self.alloc, name)?;
        let url = Text::from_str(self.alloc, url)?;
        let mut license = taken_license(&mut self.info, name);
        license.url = Some(url);
        self.info.license = Some(license);
        Ok(())
    }

    /// Says under which licence the API may be used, unless one is named already: then it asks for no memory.
    pub fn license_name(&mut self, name: &str) -> Result<(), AllocError>
        ensures ok { OnOk result (self.new
            ≡ record self.old { info = with_license_name (chars name.now) self.old.info }) }
        ensures err { OnErr result (self.new ≡ self.old) }
        ensures named { IsSome self.old.info.license → IsOk result }
    {
        if self.info.license.is_none() {
            let name = Text::from_str(self.alloc, name)?;
            self.info.license = Some(License { name, url: None });
        }
        Ok(())
    }
}

// Whom to ask so far, taken out.
fn taken_contact(info: &mut Info) -> Contact
    ensures contact { result ≡ contact_of info.old }
    ensures others { record info.old { contact = info.new.contact } ≡ info.new }
{
    info.contact.take().unwrap_or(Contact {
        name: None,
        url: None,
        email: None,
    })
}

// The licence so far, taken out, or one of this name.
fn taken_license(info: &mut Info, name: Text) -> License
    ensures license { result ≡ license_or name info.old }
    ensures others { record info.old { license = info.new.license } ≡ info.new }
{
    info.license.take().unwrap_or(License { name, url: None })
}
