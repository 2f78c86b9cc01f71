//! A version in a header of the request.
ghost use Rattle.std.specs.Prelude.{◌≡◌, ◌⊎◌, ◌↔◌, IfOk, IsOkAnd, IsTrue};
ghost use Rattle.std.specs.Prelude.{Err, None, Some, string_bytes};
ghost use Rattle.std.specs.Option.{option_copied};
ghost use Rattle.std.specs.Str.{chars};
ghost use Rattle.semver.specs.Identifiers.{parts_of};
ghost use Rattle.semver.specs.Parse.{Parts, memory_error};
ghost use Rattle.header_lists.specs.HeaderLists.{first_of};
ghost use Rattle.http_status.specs.Errors.{bad_request};
ghost use Rattle.http_status.specs.declared.error.HttpError.{HttpError as ErrorValue};
ghost use Rattle.api_versions.specs.Order.{IsAtLeast};
ghost use Rattle.api_versions.specs.HeaderVersions.{AnswersFault, Extracts, HasFault, HasVersion};
ghost use Rattle.api_versions.specs.HeaderVersions.{Refuses, VersionFault, bad_value_message};
ghost use Rattle.api_versions.specs.HeaderVersions.{fault_error, missing, not_served_message};

use crate::policy::DynamicVersionPolicy;
use crate::versions::copy_version;
use header_lists::HeaderList;
use http_header::{HeaderName, HeaderValue};
use http_status::{HttpError, HttpRefusal};
use schema_values::Text;
use semver::Version;
use std::alloc::{AllocError, Global};
use std::marker::Model;

/// Clients ask for a version in a header, by the value of its first line.
///
/// A request is answered by an error of status 400 where the header is missing and no version
/// counts then, where the value has a byte other than visible ASCII, a space or a tab, where it is
/// no version, and where that version is above the greatest that is served. Contracts see the
/// header's name by its bytes in lower case.
#[derive(Drop)]
pub struct ClientSpecifiesVersionInHeader {
    name: HeaderName,
    max_version: Version,
    on_missing: Option<Version>,
}

impl Model for ClientSpecifiesVersionInHeader {
    ghost use Rattle.std.specs.Prelude.{option_map};
    ghost use Rattle.semver.specs.Identifiers.{parts_of};
    ghost use Rattle.api_versions.specs.HeaderVersions.{HeaderPolicy};

    ghost Value = { HeaderPolicy };

    ghost view = { λ policy. record {
      name = policy.name;
      max_version = parts_of policy.max_version;
      on_missing = option_map parts_of policy.on_missing;
    } };
}

impl ClientSpecifiesVersionInHeader {
    /// A policy that reads the header of this name and refuses each version above the greatest. The
    /// header has to be there.
    pub fn new(name: HeaderName, max_version: Version) -> ClientSpecifiesVersionInHeader
        ensures { result ≡ record {
          name = name;
          max_version = parts_of max_version;
          on_missing = None;
        } }
    {
        ClientSpecifiesVersionInHeader {
            name,
            max_version,
            on_missing: None,
        }
    }

    /// The same policy, but that this version counts where the header is missing, whether or not
    /// it is above the greatest.
    pub fn on_missing(self, version: Version) -> Self
        ensures { result ≡ record self { on_missing = Some (parts_of version) } }
    {
        let mut policy = self;
        policy.on_missing = Some(version);
        policy
    }

    /// A policy equal to this one. Fails only for want of memory.
    pub fn copy(&self, _alloc: Global) -> Result<ClientSpecifiesVersionInHeader, AllocError>
        ensures { IfOk result (λ copy. copy ≡ self.now) }
    {
        let on_missing = match &self.on_missing {
            Some(version) => Some(copy_version(version)?),
            None => None,
        };
        Ok(ClientSpecifiesVersionInHeader {
            name: self.name.clone()?,
            max_version: copy_version(&self.max_version)?,
            on_missing,
        })
    }
}

impl DynamicVersionPolicy for ClientSpecifiesVersionInHeader {
    ghost use Rattle.api_versions.specs.HeaderVersions.{Extracts, Refuses};

    ghost extracts = { Extracts };

    ghost refuses = { Refuses };

    fn request_extract_version(
        &self,
        alloc: Global,
        headers: &HeaderList,
    ) -> Result<Version, HttpRefusal>
        ensures version { IfOk result (λ version.
            Extracts self.now headers.now (parts_of version)) }
        ensures refused { (error : ErrorValue) → result ≡ Err (HttpRefusal.Http error)
            → Refuses self.now headers.now error }
        // A version that is asked for is given, or memory runs out.
        ensures given { (version : Parts) → Extracts self.now headers.now version
            → IsOkAnd result (λ given. parts_of given ≡ version)
            ⊎ (result ≡ Err HttpRefusal.OutOfMemory) }
        // Each fault is told where it stands, or memory runs out.
        ensures told { (fault : VersionFault)
            → HasFault self.now (first_of self.now.name headers.now) fault
            → (result ≡ Err (HttpRefusal.Http (fault_error self.now.name fault)))
            ⊎ (result ≡ Err HttpRefusal.OutOfMemory) }
    {
        match self.first_value(headers) {
            Some(value) => self.version_in(alloc, value),
            None => self.version_without(alloc),
        }
    }
}

impl ClientSpecifiesVersionInHeader {
    // The value of the header's first line.
    fn first_value<'a>(&self, headers: &'a HeaderList) -> Option<&'a HeaderValue>
        ensures { option_copied result ≡ first_of self.now.name headers.now }
    {
        headers.first(self.name.as_str())
    }

    // The version of a value.
    fn version_in(&self, alloc: Global, value: &HeaderValue) -> Result<Version, HttpRefusal>
        ensures version { IfOk result (λ version.
            HasVersion self.now (Some value.now) (parts_of version)) }
        ensures refused { (error : ErrorValue) → result ≡ Err (HttpRefusal.Http error)
            → AnswersFault self.now (Some value.now) error }
    {
        let Ok(text) = value.to_str() else {
            return Err(self.bad_value(alloc, "not ASCII")?.into());
        };
        match Version::parse(alloc, text) {
            Ok(version) => {
                if self.serves(&version) {
                    Ok(version)
                } else {
                    Err(not_served(alloc, &version)?.into())
                }
            }
            Err(error) if is_out_of_memory(&error) => Err(HttpRefusal::OutOfMemory),
            Err(_) => Err(self.bad_value(alloc, "not a version")?.into()),
        }
    }

    // The version of a request without the header.
    fn version_without(&self, alloc: Global) -> Result<Version, HttpRefusal>
        ensures version { IfOk result (λ version. HasVersion self.now None (parts_of version)) }
        ensures refused { (error : ErrorValue) → result ≡ Err (HttpRefusal.Http error)
            → AnswersFault self.now None error }
    {
        match &self.on_missing {
            Some(version) => Ok(copy_version(version)?),
            None => Err(self.missing(alloc)?.into()),
        }
    }

    // Whether a version is at most the greatest.
    fn serves(&self, version: &Version) -> bool
        ensures { IsTrue result ↔ IsAtLeast self.now.max_version (parts_of version.now) }
    {
        version <= &self.max_version
    }

    fn missing(&self, alloc: Global) -> Result<HttpError, AllocError>
        ensures { IfOk result (λ error. error ≡ fault_error self.now.name missing) }
    {
        let name = &self.name;
        bad_request(
            alloc,
            format!(in alloc; "missing expected header \"{name}\"")?,
        )
    }

    fn bad_value(&self, alloc: Global, reason: &str) -> Result<HttpError, AllocError>
        ensures { IfOk result (λ error.
            error ≡ bad_request None (chars (bad_value_message self.now.name reason.now))) }
    {
        let name = &self.name;
        bad_request(
            alloc,
            format!(in alloc; "bad value for header \"{name}\": {reason}")?,
        )
    }
}

// Whether the text of a version was not read for want of memory.
fn is_out_of_memory(error: &semver::Error) -> bool
    ensures { IsTrue result ↔ (error.now ≡ memory_error) }
{
    *error == semver::Error::from(AllocError)
}

fn not_served(alloc: Global, version: &Version) -> Result<HttpError, AllocError>
    ensures { IfOk result (λ error.
        error ≡ bad_request None (chars (not_served_message (parts_of version.now)))) }
{
    bad_request(
        alloc,
        format!(in alloc; "server does not support this API version: {version}")?,
    )
}

fn bad_request(alloc: Global, message: String) -> Result<HttpError, AllocError>
    ensures { IfOk result (λ error. error ≡ bad_request None (chars (string_bytes message))) }
{
    HttpError::for_bad_request(alloc, None, Text::from_string(message))
}
