//! Calls on ranges of versions, and on the version that a request asks for. A range is a list of
//! its first version and of that which it ends before, where null is none.
use crate::lines::{lines_of, name_of};
use api_versions::{
    ApiEndpointVersions, ClientSpecifiesVersionInHeader, DynamicVersionPolicy, VersionPolicy,
};
use case_notation::{
    CaseError, Record, both, given, given_items, given_text, items_of, labelled, say, string_told,
    text_of,
};
use http_status::{HeaderList, HttpError, HttpRefusal};
use schema_values::{Json, Text};
use semver::Version;
use std::alloc::Global;

/// Whether the range of a case holds its version.
pub fn matches_told(alloc: Global, case: &Json) -> Result<Json, CaseError> {
    let version = given(case, "version")?;
    match range_of(alloc, given(case, "range")?)? {
        Ok(range) => matched(alloc, &range, version),
        Err(refusal) => labelled(alloc, "refused", say(alloc, refusal)),
    }
}

fn matched(alloc: Global, range: &ApiEndpointVersions, noted: &Json) -> Result<Json, CaseError> {
    let version = version_or_none(alloc, noted)?;
    Ok(Json::Bool(range.matches(version.as_ref())))
}

/// Whether the two ranges of a case overlap, and so the other way round.
pub fn overlaps_told(alloc: Global, case: &Json) -> Result<Json, CaseError> {
    let other = given(case, "other")?;
    let range = ordered_range(alloc, given(case, "range")?)?;
    overlap_told(alloc, &range, other)
}

fn overlap_told(
    alloc: Global,
    range: &ApiEndpointVersions,
    noted: &Json,
) -> Result<Json, CaseError> {
    let other = ordered_range(alloc, noted)?;
    let overlaps = Ok(Json::Bool(range.overlaps_with(&other)));
    both(alloc, overlaps, Ok(Json::Bool(other.overlaps_with(range))))
}

fn ordered_range(alloc: Global, noted: &Json) -> Result<ApiEndpointVersions, CaseError> {
    range_of(alloc, noted)?
        .ok()
        .ok_or(CaseError::Expected("versions in order"))
}

// The range that is noted, or why its versions are none.
fn range_of(
    alloc: Global,
    noted: &Json,
) -> Result<Result<ApiEndpointVersions, &'static str>, CaseError> {
    let [first, end] = items_of(noted)? else {
        return Err(CaseError::Expected("two bounds"));
    };
    match (bound_of(first)?, bound_of(end)?) {
        (None, None) => Ok(Ok(ApiEndpointVersions::all())),
        (None, Some(end)) => Ok(Ok(ApiEndpointVersions::until(version_of(alloc, end)?))),
        (Some(first), None) => Ok(Ok(ApiEndpointVersions::from(version_of(alloc, first)?))),
        (Some(first), Some(end)) => range_between(alloc, first, end),
    }
}

fn range_between(
    alloc: Global,
    first: &Text,
    end: &Text,
) -> Result<Result<ApiEndpointVersions, &'static str>, CaseError> {
    let first = version_of(alloc, first)?;
    let end = version_of(alloc, end)?;
    Ok(ApiEndpointVersions::from_until(first, end))
}

// The text of a version, none where null stands.
fn bound_of(noted: &Json) -> Result<Option<&Text>, CaseError> {
    match noted {
        Json::Null => Ok(None),
        _ => Ok(Some(text_of(noted)?)),
    }
}

fn version_or_none(alloc: Global, noted: &Json) -> Result<Option<Version>, CaseError> {
    match bound_of(noted)? {
        Some(text) => Ok(Some(version_of(alloc, text)?)),
        None => Ok(None),
    }
}

fn version_of(alloc: Global, text: &Text) -> Result<Version, CaseError> {
    Version::parse(alloc, text.as_str())
        .ok()
        .ok_or(CaseError::Expected("a version"))
}

/// The version that a request with the lines of a case asks for, by the header of the case, or what
/// it is refused as. Where the case has no header, versions are not looked at.
pub fn request_version_told(alloc: Global, case: &Json) -> Result<Json, CaseError> {
    let lines = lines_of(alloc, given_items(case, "lines")?)?;
    match case.get("header") {
        Some(_) => version_by_header(alloc, case, &lines),
        None => asked(alloc, &VersionPolicy::Unversioned, &lines),
    }
}

fn version_by_header(alloc: Global, case: &Json, lines: &HeaderList) -> Result<Json, CaseError> {
    let policy: Box<dyn DynamicVersionPolicy> = Box::new(alloc, policy_of(alloc, case)?)?;
    asked(alloc, &VersionPolicy::Dynamic(policy), lines)
}

fn asked(alloc: Global, policy: &VersionPolicy, lines: &HeaderList) -> Result<Json, CaseError> {
    match policy.request_version(alloc, lines) {
        Ok(Some(version)) => version_told(alloc, &version),
        Ok(None) => say(alloc, "unversioned"),
        Err(refusal) => refusal_told(alloc, &refusal),
    }
}

fn policy_of(alloc: Global, case: &Json) -> Result<ClientSpecifiesVersionInHeader, CaseError> {
    let missing = version_or_none(alloc, case.get("missing").unwrap_or(&Json::Null))?;
    let policy = greatest_policy(alloc, case)?;
    match missing {
        Some(version) => Ok(policy.on_missing(version)),
        None => Ok(policy),
    }
}

fn greatest_policy(
    alloc: Global,
    case: &Json,
) -> Result<ClientSpecifiesVersionInHeader, CaseError> {
    let (header, greatest) = (given_text(case, "header")?, given_text(case, "greatest")?);
    let name = name_of(alloc, header)?;
    let greatest = version_of(alloc, greatest)?;
    Ok(ClientSpecifiesVersionInHeader::new(name, greatest))
}

fn version_told(alloc: Global, version: &Version) -> Result<Json, CaseError> {
    labelled(alloc, "version", string_told(version.to_string(alloc)))
}

fn refusal_told(alloc: Global, refusal: &HttpRefusal) -> Result<Json, CaseError> {
    match refusal {
        HttpRefusal::Http(error) => error_told(alloc, error),
        HttpRefusal::OutOfMemory => Err(CaseError::OutOfMemory),
    }
}

fn error_told(alloc: Global, error: &HttpError) -> Result<Json, CaseError> {
    Record::new(alloc)
        .number("refused", error.status_code.as_u16().into())
        .text("message", error.external_message.as_str())
        .done()
}
