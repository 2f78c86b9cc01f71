//! Ranges of versions.
ghost use Rattle.std.specs.Prelude.{◌≡◌, ◌↔◌, false, codes, option_map};
ghost use Rattle.std.specs.Prelude.{IfErr, IfOk, IfSome, IsErr, IsTrue};
ghost use Rattle.semver.specs.Identifiers.{parts_of};
ghost use Rattle.api_versions.specs.Order.{IsBelow};
ghost use Rattle.api_versions.specs.Overlaps.{Overlaps, ShareNoVersion};
ghost use Rattle.api_versions.specs.Ranges.{Holds, Matches, from_until, lower_bound};
ghost use Rattle.api_versions.specs.Shown.{range_of};

use crate::pair::OrderedVersionPair;
use crate::versions::copy_version;
use semver::Version;
use std::alloc::{AllocError, Global};

/// A range of versions.
#[derive(Debug, Drop, PartialEq, Eq)]
pub enum ApiEndpointVersions {
    /// Every version.
    All,
    /// This version and those above it.
    From(Version),
    /// The first of two versions and those above it that are below the second; where the two are
    /// the same, just that version.
    FromUntil(OrderedVersionPair),
    /// The versions below this one.
    Until(Version),
}

impl ApiEndpointVersions {
    /// Every version.
    pub fn all() -> ApiEndpointVersions
        ensures { result ≡ ApiEndpointVersions.All }
    {
        ApiEndpointVersions::All
    }

    /// The versions from this one on.
    pub fn from(version: Version) -> ApiEndpointVersions
        ensures { result ≡ ApiEndpointVersions.From version }
    {
        ApiEndpointVersions::From(version)
    }

    /// The versions below this one.
    pub fn until(version: Version) -> ApiEndpointVersions
        ensures { result ≡ ApiEndpointVersions.Until version }
    {
        ApiEndpointVersions::Until(version)
    }

    /// The versions from the first on that are below the second; where the two are the same, just
    /// that version. Refused exactly where the second is below the first.
    pub fn from_until(
        earliest: Version,
        until: Version,
    ) -> Result<ApiEndpointVersions, &'static str>
        ensures ok { IfOk result (λ range. range_of range
            ≡ from_until (parts_of earliest) (parts_of until)) }
        ensures refused { IsErr result ↔ IsBelow (parts_of until) (parts_of earliest) }
        ensures err { IfErr result (λ text. text.now
            ≡ codes "versions in a from-until version range must be provided in order") }
    {
        OrderedVersionPair::new(earliest, until)
            .map(ApiEndpointVersions::FromUntil)
            .ok_or("versions in a from-until version range must be provided in order")
    }

    /// Whether the range holds a version. Where no version is asked for, every range is taken.
    pub fn matches(&self, version: Option<&Version>) -> bool
        ensures { IsTrue result ↔ Matches (range_of self.now)
            (option_map (λ v. parts_of v.now) version.entry) }
    {
        match version {
            Some(version) => self.holds(version),
            None => true,
        }
    }

    /// Whether some version lies in both ranges, or neither has a lower bound.
    pub fn overlaps_with(&self, other: &ApiEndpointVersions) -> bool
        ensures overlap { IsTrue result ↔ Overlaps (range_of self.now) (range_of other.now) }
        ensures symmetric { IsTrue result ↔ Overlaps (range_of other.now) (range_of self.now) }
        ensures apart { result ≡ false
            → ShareNoVersion (range_of self.now) (range_of other.now) }
    {
        self.meets(other)
    }

    // Whether neither range has a lower bound, or one holds that of the other.
    fn meets(&self, other: &ApiEndpointVersions) -> bool
        ensures { IsTrue result ↔ Overlaps (range_of self.now) (range_of other.now) }
    {
        match (self.lower_bound(), other.lower_bound()) {
            (None, None) => true,
            (Some(bound), None) => other.holds(bound),
            (None, Some(bound)) => self.holds(bound),
            (Some(bound), Some(other_bound)) => self.holds(other_bound) || other.holds(bound),
        }
    }

    fn holds(&self, version: &Version) -> bool
        ensures { IsTrue result ↔ Holds (range_of self.now) (parts_of version.now) }
    {
        match self {
            ApiEndpointVersions::All => true,
            ApiEndpointVersions::From(earliest) => version >= earliest,
            ApiEndpointVersions::FromUntil(pair) => pair.holds(version),
            ApiEndpointVersions::Until(until) => version < until,
        }
    }

    // The least version of the range, unless it goes down without an end.
    fn lower_bound(&self) -> Option<&Version>
        ensures bound { option_map (λ v. parts_of v.now) result ≡ lower_bound (range_of self.now) }
        ensures held { IfSome result (λ bound. Holds (range_of self.now) (parts_of bound.now)) }
    {
        match self {
            ApiEndpointVersions::All | ApiEndpointVersions::Until(_) => None,
            ApiEndpointVersions::From(earliest) => Some(earliest),
            ApiEndpointVersions::FromUntil(pair) => Some(pair.earliest()),
        }
    }

    /// Whether two ranges have the same bounds.
    pub fn equals(&self, other: &ApiEndpointVersions) -> bool
        ensures { IsTrue result ↔ (range_of self.now ≡ range_of other.now) }
    {
        self == other
    }

    /// A range of the same versions. Fails only for want of memory.
    pub fn copy(&self, alloc: Global) -> Result<ApiEndpointVersions, AllocError>
        ensures { IfOk result (λ copy. range_of copy ≡ range_of self.now) }
    {
        match self {
            ApiEndpointVersions::All => Ok(ApiEndpointVersions::All),
            ApiEndpointVersions::From(earliest) => {
                Ok(ApiEndpointVersions::From(copy_version(earliest)?))
            }
            ApiEndpointVersions::FromUntil(pair) => {
                Ok(ApiEndpointVersions::FromUntil(pair.copy(alloc)?))
            }
            ApiEndpointVersions::Until(until) => Ok(ApiEndpointVersions::Until(copy_version(
                until,
            )?)),
        }
    }
}
