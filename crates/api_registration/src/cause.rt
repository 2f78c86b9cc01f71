//! The causes for which an endpoint is refused.

/// Why an endpoint is refused, in the order in which causes are looked for. Those of tags,
/// `VisibleWildcard` and `DefinitionClash` stand only against an endpoint that documents show.
#[derive(Clone, Copy, Debug, PartialEq, Eq)]
pub enum RegisterCause {
    /// It has no tag, and at least one is asked for.
    AtLeastOneTag,
    /// It has no tag or several, and exactly one is asked for.
    ExactlyOneTag,
    /// It has a tag that is not configured, and others are not allowed.
    InvalidTag,
    /// Its path is no template.
    BadTemplate,
    /// Its method is none of those that documents have operations for.
    BadMethod,
    /// The variables of its path are not the parameters that its handler takes from there.
    PathMismatch,
    /// A parameter in the path may be absent.
    PathNotRequired,
    /// A parameter is no scalar.
    NotScalar,
    /// The parameter that takes what is left of the path is no list of texts.
    NotStringList,
    /// A parameter in the path has the name of one in the query.
    QueryAndPath,
    /// Two parameters in one place have one name; in headers without case.
    DoubledParameter,
    /// A parameter in the headers has a name that no header may have.
    BadHeaderName,
    /// Documents show it, and its path ends in a wildcard.
    VisibleWildcard,
    /// A type of its handler does not pass its checks, or parameters or named headers are no struct
    /// of any names.
    UnsupportedSchema,
    /// Two slots take the body, or one that is not the last.
    TwoBodies,
    /// The type of its body is not read under its media type.
    BadBodyForm,
    /// A query in pages stands beside another, or has a name that pages read themselves.
    BadPagination,
    /// The code of its success is that of an error.
    BadSuccessCode,
    /// Its success has a code, and its errors have no type.
    NoErrorSchema,
    /// An earlier endpoint serves its method and a path of the same shape, in versions that overlap.
    PathClash,
    /// A definition of its handler differs from that of an earlier endpoint that documents show
    /// beside it.
    DefinitionClash,
}

/// The causes in the order in which they are looked for.
pub(crate) const CAUSES: [RegisterCause; 21] = [
    RegisterCause::AtLeastOneTag,
    RegisterCause::ExactlyOneTag,
    RegisterCause::InvalidTag,
    RegisterCause::BadTemplate,
    RegisterCause::BadMethod,
    RegisterCause::PathMismatch,
    RegisterCause::PathNotRequired,
    RegisterCause::NotScalar,
    RegisterCause::NotStringList,
    RegisterCause::QueryAndPath,
    RegisterCause::DoubledParameter,
    RegisterCause::BadHeaderName,
    RegisterCause::VisibleWildcard,
    RegisterCause::UnsupportedSchema,
    RegisterCause::TwoBodies,
    RegisterCause::BadBodyForm,
    RegisterCause::BadPagination,
    RegisterCause::BadSuccessCode,
    RegisterCause::NoErrorSchema,
    RegisterCause::PathClash,
    RegisterCause::DefinitionClash,
];
