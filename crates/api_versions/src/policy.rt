//! Where the version of a request comes from.
ghost use Rattle.std.specs.Prelude.{◌≡◌, Err, IfOk, List, None, Ok, option_map};
ghost use Rattle.semver.specs.Identifiers.{parts_of};
ghost use Rattle.semver.specs.Parse.{Parts};
ghost use Rattle.header_lists.specs.HeaderLists.{Line};
ghost use Rattle.http_status.specs.declared.error.HttpError.{HttpError as ErrorValue};

use header_lists::HeaderList;
use http_status::HttpRefusal;
use semver::Version;
use std::alloc::Global;

/// What reads the version of an API out of the header lines of a request.
pub trait DynamicVersionPolicy: Drop {
    /// The versions that may be read out of header lines.
    ghost extracts: { Self → List Line → Parts → Type 0 };

    /// The errors that header lines may be refused with.
    ghost refuses: { Self → List Line → ErrorValue → Type 0 };

    /// The version that header lines ask for, or the error that they are answered with.
    fn request_extract_version(
        &self,
        alloc: Global,
        headers: &HeaderList,
    ) -> Result<Version, HttpRefusal>
        ensures version { IfOk result (λ version.
            extracts self.now headers.now (parts_of version)) }
        ensures refused { (error : ErrorValue) → result ≡ Err (HttpRefusal.Http error)
            → refuses self.now headers.now error };
}

/// Where the version of a request comes from.
#[derive(Drop)]
pub enum VersionPolicy {
    /// Requests ask for no version.
    Unversioned,
    /// A policy reads it out of the header lines.
    Dynamic(Box<dyn DynamicVersionPolicy>),
}

impl VersionPolicy {
    ghost use Rattle.api_versions.specs.Policies.{GivesVersion, RefusesLines};
    ghost use Rattle.api_versions.specs.declared.policy.VersionPolicy.TheVariants.{Unversioned};

    /// The version that a request of these header lines asks for, if requests ask for one; or the
    /// error that it is answered with.
    pub fn request_version(
        &self,
        alloc: Global,
        headers: &HeaderList,
    ) -> Result<Option<Version>, HttpRefusal>
        ensures version { IfOk result (λ version. GivesVersion
            ⟦<dyn DynamicVersionPolicy as DynamicVersionPolicy>⟧
            self.now headers.now (option_map parts_of version)) }
        ensures refused { (error : ErrorValue) → result ≡ Err (HttpRefusal.Http error)
            → RefusesLines
            ⟦<dyn DynamicVersionPolicy as DynamicVersionPolicy>⟧
            self.now headers.now error }
        ensures unversioned { self.now ≡ Unversioned → result ≡ Ok None }
    {
        match self {
            VersionPolicy::Unversioned => Ok(None),
            VersionPolicy::Dynamic(policy) => {
                Ok(Some(policy.request_extract_version(alloc, headers)?))
            }
        }
    }
}
