//! Two versions in order.
ghost use Rattle.std.specs.Prelude.{◌≡◌, ◌↔◌, IfOk, IfSome, IsNone, IsTrue, false};
ghost use Rattle.semver.specs.Identifiers.{parts_of};
ghost use Rattle.api_versions.specs.Order.{IsBelow, is_below};
ghost use Rattle.api_versions.specs.Ranges.{Holds, from_until};

use crate::versions::copy_version;
use semver::Version;
use std::alloc::{AllocError, Global};
use std::cmp::Ordering;

/// Two versions, of which the second is not below the first.
#[derive(Debug, Drop, PartialEq, Eq)]
pub struct OrderedVersionPair {
    earliest: Version,
    until: Version,
    ghost ordered: { is_below (parts_of until) (parts_of earliest) ≡ false },
}

impl OrderedVersionPair {
    ghost use Rattle.api_versions.specs.Shown.{earliest_of, until_of};

    // The pair of two versions, or none exactly where the second is below the first.
    pub(crate) fn new(earliest: Version, until: Version) -> Option<OrderedVersionPair>
        ensures none { IsNone result ↔ IsBelow (parts_of until) (parts_of earliest) }
        ensures earliest { IfSome result (λ pair. earliest_of pair ≡ parts_of earliest) }
        ensures until { IfSome result (λ pair. until_of pair ≡ parts_of until) }
    {
        if until < earliest {
            None
        } else {
            Some(OrderedVersionPair { earliest, until })
        }
    }

    /// A pair of the same versions. Fails only for want of memory.
    pub fn copy(&self, _alloc: Global) -> Result<OrderedVersionPair, AllocError>
        ensures earliest { IfOk result (λ copy. earliest_of copy ≡ earliest_of self.now) }
        ensures until { IfOk result (λ copy. until_of copy ≡ until_of self.now) }
    {
        Ok(OrderedVersionPair {
            earliest: copy_version(&self.earliest)?,
            until: copy_version(&self.until)?,
        })
    }

    // The first version.
    pub(crate) fn earliest(&self) -> &Version
        ensures { parts_of result.now ≡ earliest_of self.now }
    {
        &self.earliest
    }

    // Whether a version lies from the first version on and below the second, or is both.
    pub(crate) fn holds(&self, version: &Version) -> bool
        ensures { IsTrue result ↔ Holds (from_until (earliest_of self.now) (until_of self.now))
            (parts_of version.now) }
    {
        match version.cmp(&self.until) {
            Ordering::Less => version >= &self.earliest,
            Ordering::Equal => version == &self.earliest,
            Ordering::Greater => false,
        }
    }
}
