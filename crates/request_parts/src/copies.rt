//! Copies of values of other crates.
ghost use Rattle.std.specs.Prelude.{◌≡◌, IfOk};
ghost use Rattle.semver.specs.Identifiers.{parts_of};

use http_uri::Uri;
use semver::Version;
use std::alloc::AllocError;

/// A copy of a version, part by part. An error is want of memory.
pub fn copy_version(version: &Version) -> Result<Version, AllocError>
    ensures { IfOk result (λ copy. parts_of copy ≡ parts_of version.now) }
{
    version.clone()
}

// A target equal to this one.
pub(crate) fn copy_uri(uri: &Uri) -> Result<Uri, AllocError>
    ensures { IfOk result (λ copy. copy ≡ uri.now) }
{
    uri.clone()
}
