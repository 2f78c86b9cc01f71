//! The cause that stands against an endpoint beside those that define a name otherwise.
ghost use Rattle.std.specs.Prelude.{◌≡◌, ◌++◌, ◌↔◌, IfOk, IsTrue, MatchOption, codes, map};
ghost use Rattle.api_declarations.specs.Values.{DeclarationValue};
ghost use Rattle.endpoint_parameters.specs.Firsts.{IsFirstOf, NoneOf};
ghost use Rattle.endpoint_parameters.specs.Told.{IsTried, quoted};
ghost use Rattle.endpoint_checks.specs.Clashes.{DefinesOneOtherwise, DefinesOtherwise, DiffersIn};
ghost use Rattle.endpoint_checks.specs.Clashes.{IsDefinedOtherwise, IsShownBeside};
ghost use Rattle.endpoint_checks.specs.EndpointIndexes.{IsIndexed};

use crate::clashes::overlap;
use crate::index::EndpointIndex;
use api_declarations::{Declaration, Declared};
use descriptors::{Definition, DescTable};
use endpoint_parameters::{Condition, first_of, first_place};
use schema_values::Text;
use std::alloc::{AllocError, Global};

/// What is told of the first endpoint that defines otherwise, and of the first definition that
/// differs there.
pub fn definition_clash_told<E: Declared>(
    alloc: Global,
    before: &[E],
    index: &EndpointIndex,
    endpoint: &Declaration<'_>,
) -> Result<Option<Text>, AllocError>
    requires { IsIndexed (map E.declared before.now) index.now }
    ensures { IfOk result (IsTried (λ message. (other : DeclarationValue)
        × (clash : IsFirstOf (DefinesOtherwise endpoint.now) (map E.declared before.now) other)
        × (message ≡ quoted (codes "definition ")
        (codes " differs from that of endpoint " ++ other.operation_id)
        clash.holds.definition.name))) }
{
    let Some(other) = first_defining(before, index, endpoint) else {
        return Ok(None);
    };
    let other = other.declaration();
    let Some(definition) = first_differing(&endpoint.shape.table, &other.shape.table) else {
        unreachable!()
    };
    Ok(Some(definition_clash_message(alloc, &definition.name, other.operation_id)?))
}

// The first endpoint that defines otherwise, among those that have a place at the name of one of
// the definitions.
fn first_defining<'s, E: Declared>(
    before: &'s [E],
    index: &EndpointIndex,
    endpoint: &Declaration<'_>,
) -> Option<&'s E>
    requires { IsIndexed (map E.declared before.now) index.now }
    ensures { MatchOption result
        (NoneOf (λ e. DefinesOneOtherwise endpoint.now (E.declared e)) before.now)
        (λ e. IsFirstOf (λ e. DefinesOneOtherwise endpoint.now (E.declared e)) before.now e.now) }
{
    let mut first = before.len();
    for definition in endpoint.shape.table.definitions() {
        let places = index.definitions.at(&definition.name);
        let defines = Defines {
            endpoint,
            definition,
        };
        first = first_place(&defines, before, places, first);
    }
    before.get(first)
}

/// Documents show another endpoint beside this one, and a definition differs there.
#[derive(Drop)]
struct Defines<'s, 'd> {
    endpoint: &'s Declaration<'d>,
    definition: &'s Definition,
}

impl<'s, 'd, E: Declared> Condition<E> for Defines<'s, 'd> {
    ghost use Rattle.endpoint_checks.specs.Clashes.{IsDefinedOtherwise};

    ghost Holds = { λ s e. IsDefinedOtherwise s.endpoint.now s.definition.now (E.declared e) };

    fn holds(&self, other: &E) -> bool {
        is_defined_otherwise(self.endpoint, self.definition, &other.declaration())
    }
}

// Whether documents show another endpoint beside this one, and a definition differs there.
fn is_defined_otherwise(
    endpoint: &Declaration<'_>,
    definition: &Definition,
    other: &Declaration<'_>,
) -> bool
    ensures { IsTrue result ↔ IsDefinedOtherwise endpoint.now definition.now other.now }
{
    is_shown_beside(endpoint, other) && differs_in(&other.shape.table, definition)
}

// Whether documents show another endpoint beside this one.
fn is_shown_beside(endpoint: &Declaration<'_>, other: &Declaration<'_>) -> bool
    ensures { IsTrue result ↔ IsShownBeside endpoint.now other.now }
{
    endpoint.visible && other.visible && overlap(endpoint, other)
}

// Whether another table has a definition of the name, with another type or description.
fn differs_in(table: &DescTable, definition: &Definition) -> bool
    ensures { IsTrue result ↔ DiffersIn table.now definition.now }
{
    match table.entry_named(definition.name.as_str()) {
        Some(other) => !other.equals(definition),
        None => false,
    }
}

/// Another table has a definition of the name, with another type or description.
#[derive(Drop)]
struct Differs<'s> {
    table: &'s DescTable,
}

impl<'s> Condition<Definition> for Differs<'s> {
    ghost use Rattle.endpoint_checks.specs.Clashes.{DiffersIn};

    ghost Holds = { λ s. DiffersIn s.table.now };

    fn holds(&self, definition: &Definition) -> bool {
        differs_in(self.table, definition)
    }
}

// The first definition of a table that differs in another.
fn first_differing<'a>(table: &'a DescTable, other: &DescTable) -> Option<&'a Definition>
    ensures { MatchOption result (NoneOf (DiffersIn other.now) table.now)
        (λ definition. IsFirstOf (DiffersIn other.now) table.now definition.now) }
{
    first_of(&Differs { table: other }, table.definitions())
}

fn definition_clash_message(
    alloc: Global,
    name: &Text,
    operation_id: &Text,
) -> Result<Text, AllocError>
    ensures { IfOk result (λ message. message ≡ quoted (codes "definition ")
        (codes " differs from that of endpoint " ++ operation_id.now) name.now) }
{
    let mut message = Text::from_ascii(alloc, "definition '")?;
    message.push_text(name)?;
    message.push_ascii("' differs from that of endpoint ")?;
    message.push_text(operation_id)?;
    Ok(message)
}
