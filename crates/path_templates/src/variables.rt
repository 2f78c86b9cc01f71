//! Variables of requests beside those of templates.
ghost use Rattle.std.specs.Prelude.{◌≡◌};
ghost use Rattle.std.specs.Option.{option_copied};
ghost use Rattle.std.specs.List.{list_all};
ghost use Rattle.path_templates.specs.Variables.{are_components, is_given, is_named, is_text};

use crate::segment::PathSegment;
use schema_values::{Text, VariableSet, VariableValue};

// Whether each segment is given what it takes.
pub(crate) fn all_given(segments: &[PathSegment], variables: &VariableSet) -> bool
    ensures { result ≡ list_all (is_given variables.now.entries) segments.now }
{
    segments.iter().all(|segment| is_given(segment, variables))
}

// Whether a segment is given what it takes: a variable a text, and a wildcard components.
fn is_given(segment: &PathSegment, variables: &VariableSet) -> bool
    ensures { result ≡ is_given variables.now.entries segment.now }
{
    match segment {
        PathSegment::Literal(_) => true,
        PathSegment::VarnameSegment(name) => is_text(variables.get(name)),
        PathSegment::VarnameWildcard(name) => are_components(variables.get(name)),
    }
}

fn is_text(value: Option<&VariableValue>) -> bool
    ensures { result ≡ is_text (option_copied value.entry) }
{
    match value {
        Some(VariableValue::String(_)) => true,
        Some(VariableValue::Components(_)) => false,
        None => false,
    }
}

fn are_components(value: Option<&VariableValue>) -> bool
    ensures { result ≡ are_components (option_copied value.entry) }
{
    match value {
        Some(VariableValue::String(_)) => false,
        Some(VariableValue::Components(_)) => true,
        None => false,
    }
}

// Whether each variable is one of the segments'.
pub(crate) fn all_named(segments: &[PathSegment], variables: &VariableSet) -> bool
    ensures { result
        ≡ list_all (λ variable. is_named segments.now variable.0) variables.now.entries }
{
    for (name, _value) in variables.iter() {
        if !is_named(segments, name) {
            return false;
        }
    }
    true
}

// Whether a variable of the segments has a name.
pub(crate) fn is_named(segments: &[PathSegment], name: &Text) -> bool
    ensures { result ≡ is_named segments.now name.now }
{
    segments.iter().any(|segment| segment.has_name(name))
}
