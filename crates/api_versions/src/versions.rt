//! Single versions.
ghost use Rattle.std.specs.Prelude.{◌≡◌, IfOk};
ghost use Rattle.semver.specs.Identifiers.{parts_of};

use semver::Version;
use std::alloc::AllocError;

/// A version of the same numbers and texts. Fails only for want of memory.
pub(crate) fn copy_version(version: &Version) -> Result<Version, AllocError>
    ensures { IfOk result (λ copy. parts_of copy ≡ parts_of version.now) }
{
    version.clone()
}
