//! The causes that stand against single parameters.
ghost use Rattle.std.specs.Prelude.{◌≡◌, ◌↔◌, IsTrue, map, filter, Contains, count_by};
ghost use Rattle.std.specs.Option.{option_copied};
ghost use Rattle.http_header.specs.FieldName.{IsFieldName};
ghost use Rattle.descriptors.specs.declared.desc.Presence.TheVariants.{Required};
ghost use Rattle.flat_maps.specs.Flat.{resolved};
ghost use Rattle.endpoint_parameters.specs.ParameterCodes.{is_in};
ghost use Rattle.endpoint_parameters.specs.ParameterTypes.{IsRest, is_string_list, is_text_resolved};
ghost use Rattle.endpoint_parameters.specs.Parameters.{is_same_header, is_same_parameter, name_of};

use crate::first::Condition;
use crate::parameter::{Parameter, Place};
use crate::resolved::{is_scalar, resolved};
use crate::told::{ParameterCause, quoted};
use descriptors::{Desc, DescTable, Presence};
use http_header::is_token;
use schema_values::Text;
use std::alloc::{AllocError, Global};

/// A parameter in the path may be absent.
#[derive(Drop)]
pub struct MayBeAbsent;

impl<'a> Condition<Parameter<'a>> for MayBeAbsent {
    ghost use Rattle.endpoint_parameters.specs.ParameterTypes.{MayBeAbsent as MayBeAbsentFact};

    ghost Holds = { λ _. MayBeAbsentFact };

    fn holds(&self, parameter: &Parameter<'a>) -> bool {
        parameter.place == Place::Path && !is_required(&parameter.field.presence)
    }
}

impl<'a> ParameterCause<'a> for MayBeAbsent {
    ghost use Rattle.std.specs.Prelude.{codes};
    ghost use Rattle.endpoint_parameters.specs.Told.{quoted as quoted_text};

    ghost text = { λ _. quoted_text (codes "path parameter ") (codes " must be required") };

    fn tell(&self, alloc: Global, name: &Text) -> Result<Text, AllocError> {
        quoted(alloc, "path parameter ", " must be required", name)
    }
}

fn is_required(presence: &Presence) -> bool
    ensures { IsTrue result ↔ (presence.now ≡ Required) }
{
    matches!(presence, Presence::Required)
}

/// A parameter of an endpoint is no scalar, and does not take what is left of the path.
#[derive(Drop)]
pub struct NotScalar<'s> {
    /// The name of the endpoint's operation.
    pub operation_id: &'s Text,
    /// The definitions that parameters refer to.
    pub table: &'s DescTable,
    /// The name of the wildcard in which the path ends, if it does.
    pub wildcard: Option<&'s Text>,
}

impl<'s, 'a> Condition<Parameter<'a>> for NotScalar<'s> {
    ghost use Rattle.std.specs.Option.{option_copied};
    ghost use Rattle.endpoint_parameters.specs.ParameterTypes.{IsNoScalar, IsScalarOrRest};

    ghost Holds = { λ s. IsNoScalar s.table.now (option_copied s.wildcard) };

    ghost Clear = { λ s. IsScalarOrRest s.table.now (option_copied s.wildcard) };

    fn holds(&self, parameter: &Parameter<'a>) -> bool {
        !is_rest(self.wildcard, parameter) && !is_scalar(self.table, &parameter.field.desc)
    }
}

impl<'s, 'a> ParameterCause<'a> for NotScalar<'s> {
    ghost use Rattle.std.specs.Prelude.{◌++◌, codes};
    ghost use Rattle.endpoint_parameters.specs.Told.{quoted as quoted_text};

    ghost text = { λ s. quoted_text
        (codes "for endpoint " ++ s.operation_id.now ++ codes " the parameter ")
        (codes " must have a scalar type") };

    fn tell(&self, alloc: Global, name: &Text) -> Result<Text, AllocError> {
        let mut text = Text::from_ascii(alloc, "for endpoint ")?;
        text.push_text(self.operation_id)?;
        text.push_ascii(" the parameter ")?;
        text.push_text(&quoted(alloc, "", " must have a scalar type", name)?)?;
        Ok(text)
    }
}

// Whether a parameter takes what is left of the path.
fn is_rest(wildcard: Option<&Text>, parameter: &Parameter<'_>) -> bool
    ensures { IsTrue result ↔ IsRest (option_copied wildcard.entry) parameter.now }
{
    match (parameter.place, wildcard) {
        (Place::Path, Some(name)) => name.equals(parameter.name()),
        _ => false,
    }
}

/// The parameter that takes what is left of the path is no list of texts.
#[derive(Drop)]
pub struct NotStringList<'s> {
    /// The definitions that parameters refer to.
    pub table: &'s DescTable,
    /// The name of the wildcard in which the path ends, if it does.
    pub wildcard: Option<&'s Text>,
}

impl<'s, 'a> Condition<Parameter<'a>> for NotStringList<'s> {
    ghost use Rattle.std.specs.Option.{option_copied};
    ghost use Rattle.endpoint_parameters.specs.ParameterTypes.{IsNoStringList};

    ghost Holds = { λ s. IsNoStringList s.table.now (option_copied s.wildcard) };

    fn holds(&self, parameter: &Parameter<'a>) -> bool {
        is_rest(self.wildcard, parameter) && !is_string_list(self.table, &parameter.field.desc)
    }
}

impl<'s, 'a> ParameterCause<'a> for NotStringList<'s> {
    ghost use Rattle.std.specs.Prelude.{codes};
    ghost use Rattle.endpoint_parameters.specs.Told.{quoted as quoted_text};

    ghost text = { λ _. quoted_text (codes "the parameter ")
        (codes " must be an array of strings") };

    fn tell(&self, alloc: Global, name: &Text) -> Result<Text, AllocError> {
        quoted(
            alloc,
            "the parameter ",
            " must be an array of strings",
            name,
        )
    }
}

// Whether a descriptor is a list of texts, itself or behind references.
fn is_string_list(table: &DescTable, desc: &Desc) -> bool
    ensures { result ≡ is_string_list table.now (resolved table.now desc.now) }
{
    match resolved(table, desc) {
        Some(desc) => match desc {
            Desc::List { item, .. } => is_text(table, item.get()),
            _ => false,
        },
        None => false,
    }
}

fn is_text(table: &DescTable, desc: &Desc) -> bool
    ensures { result ≡ is_text_resolved (resolved table.now desc.now) }
{
    match resolved(table, desc) {
        Some(desc) => matches!(
            desc,
            Desc::Text { .. } | Desc::Char | Desc::Enumeration { .. }
        ),
        None => false,
    }
}

/// A parameter in the path or in the query has the name of one of these in the other.
#[derive(Drop)]
pub struct InBoth<'s, 'p>(pub &'s [Parameter<'p>]);

impl<'s, 'p, 'a> Condition<Parameter<'a>> for InBoth<'s, 'p> {
    ghost use Rattle.endpoint_parameters.specs.ParameterTypes.{IsInBoth};

    ghost Holds = { λ s. IsInBoth s.0.now };

    fn holds(&self, parameter: &Parameter<'a>) -> bool {
        match parameter.place {
            Place::Path => is_named(self.0, Place::Query, parameter.name()),
            Place::Query => is_named(self.0, Place::Path, parameter.name()),
            Place::Header => false,
        }
    }
}

impl<'s, 'p, 'a> ParameterCause<'a> for InBoth<'s, 'p> {
    ghost use Rattle.std.specs.Prelude.{codes};
    ghost use Rattle.endpoint_parameters.specs.Told.{quoted as quoted_text};

    ghost text = { λ _. quoted_text (codes "the parameter ")
        (codes " is specified for both query and path parameters") };

    fn tell(&self, alloc: Global, name: &Text) -> Result<Text, AllocError> {
        quoted(
            alloc,
            "the parameter ",
            " is specified for both query and path parameters",
            name,
        )
    }
}

// Whether a parameter in a place has a name.
fn is_named(parameters: &[Parameter<'_>], place: Place, name: &Text) -> bool
    ensures { IsTrue result
        ↔ Contains (map name_of (filter (is_in place) parameters.now)) name.now }
{
    for parameter in parameters {
        if is_called(parameter, place, name) {
            return true;
        }
    }
    false
}

// Whether a parameter stands in a place under a name.
fn is_called(parameter: &Parameter<'_>, place: Place, name: &Text) -> bool
    ensures { IsTrue result ↔ (IsTrue (is_in place parameter.now)
        × (name_of parameter.now ≡ name.now)) }
{
    parameter.place == place && parameter.name().equals(name)
}

/// Another of these parameters, in its place, has the name of a parameter.
#[derive(Drop)]
pub struct Doubled<'s, 'p>(pub &'s [Parameter<'p>]);

impl<'s, 'p, 'a> Condition<Parameter<'a>> for Doubled<'s, 'p> {
    ghost use Rattle.endpoint_parameters.specs.ParameterTypes.{IsDoubled};

    ghost Holds = { λ s. IsDoubled s.0.now };

    fn holds(&self, parameter: &Parameter<'a>) -> bool {
        count_same(self.0, parameter) > 1
    }
}

impl<'s, 'p, 'a> ParameterCause<'a> for Doubled<'s, 'p> {
    ghost use Rattle.std.specs.Prelude.{codes};
    ghost use Rattle.endpoint_parameters.specs.Told.{quoted as quoted_text};

    ghost text = { λ _. quoted_text (codes "the parameter ") (codes " is specified twice") };

    fn tell(&self, alloc: Global, name: &Text) -> Result<Text, AllocError> {
        quoted(alloc, "the parameter ", " is specified twice", name)
    }
}

// How many parameters stand in the place of one under its name.
fn count_same(parameters: &[Parameter<'_>], parameter: &Parameter<'_>) -> usize
    ensures { result ≡ count_by (is_same_parameter parameter.now) parameters.now }
{
    let mut count = 0;
    for other in parameters {
        if is_same(parameter, other) {
            count += 1;
        }
    }
    count
}

fn is_same(parameter: &Parameter<'_>, other: &Parameter<'_>) -> bool
    ensures { result ≡ is_same_parameter parameter.now other.now }
{
    match (parameter.place, other.place) {
        (Place::Path, Place::Path) => *parameter.name() == *other.name(),
        (Place::Query, Place::Query) => *parameter.name() == *other.name(),
        (Place::Header, Place::Header) => is_same_header(parameter.name(), other.name()),
        _ => false,
    }
}

fn is_same_header(name: &Text, other: &Text) -> bool
    ensures { result ≡ is_same_header name.now other.now }
{
    name.as_bytes().eq_ignore_ascii_case(other.as_bytes())
}

/// A parameter in the headers has a name that no header may have.
#[derive(Drop)]
pub struct BadHeaderName;

impl<'a> Condition<Parameter<'a>> for BadHeaderName {
    ghost use Rattle.endpoint_parameters.specs.ParameterTypes.{IsNoHeaderName};

    ghost Holds = { λ _. IsNoHeaderName };

    fn holds(&self, parameter: &Parameter<'a>) -> bool {
        parameter.place == Place::Header && !is_field_name(parameter.name().as_bytes())
    }
}

impl<'a> ParameterCause<'a> for BadHeaderName {
    ghost use Rattle.std.specs.Prelude.{codes};
    ghost use Rattle.endpoint_parameters.specs.Told.{quoted as quoted_text};

    ghost text = { λ _. quoted_text (codes "the header ") (codes " is not a header name") };

    fn tell(&self, alloc: Global, name: &Text) -> Result<Text, AllocError> {
        quoted(alloc, "the header ", " is not a header name", name)
    }
}

fn is_field_name(name: &[u8]) -> bool
    ensures { IsTrue result ↔ IsFieldName name.now }
{
    name.len() <= 65535 && is_token(name)
}
