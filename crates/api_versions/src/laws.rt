//! What is true of the order of versions, of ranges and of the policy of a header.
ghost use Rattle.std.specs.Prelude.{◌≡◌, ◌↔◌, ◌⊎◌, List};
ghost use Rattle.std.specs.Cmp.{IsTotalOrder};
ghost use Rattle.std.specs.Ordering.{ordering_then};
ghost use Rattle.std.specs.declared.cmp.Ordering.TheVariants.{Equal};
ghost use Rattle.semver.specs.Eval.{precedence_cmp};
ghost use Rattle.semver.specs.Identifiers.{build_text, parts_of};
ghost use Rattle.semver.specs.Order.{build_cmp};
ghost use Rattle.semver.specs.Parse.{Parts};
ghost use Rattle.semver.specs.declared.Version.{Version};
ghost use Rattle.header_lists.specs.HeaderLists.{Line};
ghost use Rattle.http_status.specs.declared.error.HttpError.{HttpError as ErrorValue};
ghost use Rattle.api_versions.specs.HeaderVersions.{Extracts, HeaderPolicy, Refuses};
ghost use Rattle.api_versions.specs.Order.{version_cmp};
ghost use Rattle.api_versions.specs.Ranges.{Holds, from_until};

/// Versions are ordered by precedence, and where that ties by build metadata.
pub fn precedence_first()
    ensures { (version other : Version) → version_cmp (parts_of version) (parts_of other)
        ≡ ordering_then (precedence_cmp version other)
        (build_cmp (build_text version.build) (build_text other.build)) }
{}

/// The order of versions is total.
pub fn order_is_total()
    ensures { IsTotalOrder version_cmp }
{}

/// Versions that the order calls equal have the same numbers and texts.
pub fn ties_are_the_same()
    ensures { (version other : Parts) → version_cmp version other ≡ Equal → version ≡ other }
{}

/// A range from a version until the same one holds just that version.
pub fn one_version_held()
    ensures { (version other : Parts)
        → Holds (from_until version version) other ↔ (other ≡ version) }
{}

/// Under the policy of a header, header lines ask for one version or are refused with one error,
/// and never both.
pub fn one_answer()
    ensures answered { (policy : HeaderPolicy) (lines : List Line)
        → ((version : Parts) × Extracts policy lines version)
        ⊎ ((error : ErrorValue) × Refuses policy lines error) }
    ensures apart { (policy : HeaderPolicy) (lines : List Line) (version : Parts)
        (error : ErrorValue) → Extracts policy lines version → ¬ Refuses policy lines error }
    ensures one_version { (policy : HeaderPolicy) (lines : List Line) (version other : Parts)
        → Extracts policy lines version → Extracts policy lines other → version ≡ other }
    ensures one_error { (policy : HeaderPolicy) (lines : List Line) (error other : ErrorValue)
        → Refuses policy lines error → Refuses policy lines other → error ≡ other }
{}
