//! The index of endpoints: where they stand, by what is looked for among them.
ghost use Rattle.std.specs.Prelude.{◌≡◌, ◌↔◌, ◌++◌, ◌∷◌, [], List as ListOf, ℕ, All, Contains, length, map};
ghost use Rattle.std.specs.Prelude.{IfOk, IsTrue, OnErr, OnOk, Some};
ghost use Rattle.descriptors.specs.Definitions.{entry_of};
ghost use Rattle.path_templates.specs.Places.{places_at, with_place, with_places};
ghost use Rattle.path_templates.specs.Templates.{trimmed};
ghost use Rattle.api_declarations.specs.Keys.{shape_keys};
ghost use Rattle.endpoint_checks.specs.EndpointIndexes.{HasSamePlaces, IsAsBefore, IsIndexed};
ghost use Rattle.endpoint_checks.specs.EndpointIndexes.{IsNamedOrStoodFor, StandsFor};

use crate::paths::path_shape;
use api_declarations::{Declaration, Declared};
use descriptors::{Definition, DescTable};
use endpoint_parameters::{Condition, is_any};
use path_templates::{PlaceIndex, without_trailing_slash};
use schema_values::{List, Text};
use std::alloc::{AllocError, Global};

/// The places of endpoints in a list: by their templates, by the shapes of these, and by the names
/// of the definitions that documents show with them. Of endpoints with the same versions and the
/// same definition of a name, the first alone has a place there, since it stands for the others.
///
/// Whoever registers endpoints in a vector keeps the index beside it. `first_cause` of
/// `api_registration` is asked with both. Where it tells nothing, the vector makes room for one
/// more by `reserve`, then `add` is called, and then the endpoint is put at the end of the vector,
/// for which no memory is wanted any more. So want of memory leaves the endpoints as they were, and
/// at each key of the index the places of before.
#[derive(Drop)]
pub struct EndpointIndex {
    templates: PlaceIndex,
    /// By shapes. Each endpoint stands here that has the shape.
    pub(crate) shapes: PlaceIndex,
    /// By names of definitions, likewise, but for endpoints that another stands for.
    pub(crate) definitions: PlaceIndex,
}

impl EndpointIndex {
    /// The index of no endpoints. Takes no memory yet.
    pub fn new(alloc: Global) -> EndpointIndex
        ensures { IsIndexed [] result }
    {
        EndpointIndex {
            templates: PlaceIndex::new(alloc),
            shapes: PlaceIndex::new(alloc),
            definitions: PlaceIndex::new(alloc),
        }
    }

    /// The places by templates alone, as `api_declarations::endpoint_at` is asked with.
    pub fn templates(&self) -> &PlaceIndex
        ensures { result.now ≡ self.now.templates }
    {
        &self.templates
    }

    /// Adds the place behind some endpoints for one more: then it is the index of these and the one
    /// more. After want of memory each key has the places of before, so it is the index of those
    /// before still.
    pub fn add<E: Declared>(
        &mut self,
        alloc: Global,
        before: &[E],
        endpoint: &E,
    ) -> Result<(), AllocError>
        requires { IsIndexed (map E.declared before.now) self.old }
        ensures added { OnOk result
            (IsIndexed (map E.declared (before.now ++ endpoint.now ∷ [])) self.new) }
        ensures err { OnErr result (IsAsBefore self.old self.new) }
        ensures kept { OnErr result (IsIndexed (map E.declared before.now) self.new) }
    {
        let endpoint = endpoint.declaration();
        let names = names_without_stand_in(alloc, &self.definitions, before, &endpoint)?;
        let keys = names.as_slice();
        self.definitions.add_all(alloc, keys, before.len())?;
        match add_path(
            alloc,
            &mut self.shapes,
            &mut self.templates,
            before.len(),
            &endpoint,
        ) {
            Ok(()) => Ok(()),
            Err(error) => {
                self.definitions.take_back(keys);
                Err(error)
            }
        }
    }
}

// The names of the definitions of an endpoint that documents show, but for those at which one of some
// others stands for it.
fn names_without_stand_in<E: Declared>(
    alloc: Global,
    index: &PlaceIndex,
    before: &[E],
    endpoint: &Declaration<'_>,
) -> Result<List<Text>, AllocError>
    ensures { IfOk result (λ names. IsTrue endpoint.now.visible
        → All (IsNamedOrStoodFor (map E.declared before.now) index.now (length before.now)
        endpoint.now names) endpoint.now.shape.table) }
{
    let mut names = List::new(alloc);
    if !endpoint.visible {
        return Ok(names);
    }
    for definition in endpoint.shape.table.definitions() {
        push_name(alloc, &mut names, index, before, endpoint, definition)?;
    }
    Ok(names)
}

// Puts the name of a definition behind others, unless one of some endpoints stands for this one there.
fn push_name<E: Declared>(
    alloc: Global,
    names: &mut List<Text>,
    index: &PlaceIndex,
    before: &[E],
    endpoint: &Declaration<'_>,
    definition: &Definition,
) -> Result<(), AllocError>
    ensures kept { OnOk result ((name : ListOf ℕ) → Contains names.old name → Contains names.new name) }
    ensures named { OnOk result (IsNamedOrStoodFor (map E.declared before.now) index.now
        (length before.now) endpoint.now names.new definition.now) }
{
    let stand_in = StandIn {
        endpoint,
        definition,
    };
    if is_any(&stand_in, before, index.at(&definition.name)) {
        return Ok(());
    }
    let name = definition.name.copy(alloc)?;
    names.push(name)
}

/// Another endpoint stands for an endpoint at a definition.
#[derive(Drop)]
struct StandIn<'s, 'd> {
    endpoint: &'s Declaration<'d>,
    definition: &'s Definition,
}

impl<'s, 'd, E: Declared> Condition<E> for StandIn<'s, 'd> {
    ghost use Rattle.endpoint_checks.specs.EndpointIndexes.{StandsFor};

    ghost Holds = { λ s e. StandsFor s.endpoint.now s.definition.now (E.declared e) };

    fn holds(&self, other: &E) -> bool {
        stands_for(self.endpoint, self.definition, &other.declaration())
    }
}

// Whether documents show another endpoint in the versions of this one, and it has the same
// definition.
fn stands_for(endpoint: &Declaration<'_>, definition: &Definition, other: &Declaration<'_>) -> bool
    ensures { IsTrue result ↔ StandsFor endpoint.now definition.now other.now }
{
    other.visible
        && other.versions.equals(endpoint.versions)
        && has_definition(&other.shape.table, definition)
}

fn has_definition(table: &DescTable, definition: &Definition) -> bool
    ensures { IsTrue result ↔ (entry_of table.now definition.now.name ≡ Some definition.now) }
{
    match table.entry_named(definition.name.as_str()) {
        Some(other) => other.equals(definition),
        None => false,
    }
}

// Adds a place at the shape of an endpoint's path, if it is a template, and at its template.
fn add_path(
    alloc: Global,
    shapes: &mut PlaceIndex,
    templates: &mut PlaceIndex,
    place: usize,
    endpoint: &Declaration<'_>,
) -> Result<(), AllocError>
    ensures shapes { OnOk result ((key : ListOf ℕ) → places_at shapes.new key
        ≡ with_places (places_at shapes.old) (shape_keys endpoint.now) place key) }
    ensures templates { OnOk result ((key : ListOf ℕ) → places_at templates.new key
        ≡ with_place (places_at templates.old) (trimmed endpoint.now.path) place key) }
    ensures err { OnErr result
        (HasSamePlaces shapes.old shapes.new × HasSamePlaces templates.old templates.new) }
{
    let shape = shape_of(alloc, endpoint)?;
    let keys = shape.as_slice();
    shapes.add_all(alloc, keys, place)?;
    match add_template(alloc, templates, place, endpoint) {
        Ok(()) => Ok(()),
        Err(error) => {
            shapes.take_back(keys);
            Err(error)
        }
    }
}

// The shape of an endpoint's path alone, or nothing where it is no template.
fn shape_of(alloc: Global, endpoint: &Declaration<'_>) -> Result<List<Text>, AllocError>
    ensures { IfOk result (λ keys. keys ≡ shape_keys endpoint.now) }
{
    let mut keys = List::new(alloc);
    match path_shape(alloc, endpoint.path)? {
        Some(shape) => {
            keys.push(shape)?;
            Ok(keys)
        }
        None => Ok(keys),
    }
}

// Adds a place at an endpoint's template.
fn add_template(
    alloc: Global,
    index: &mut PlaceIndex,
    place: usize,
    endpoint: &Declaration<'_>,
) -> Result<(), AllocError>
    ensures ok { OnOk result ((key : ListOf ℕ) → places_at index.new key
        ≡ with_place (places_at index.old) (trimmed endpoint.now.path) place key) }
    ensures err { OnErr result ((key : ListOf ℕ)
        → places_at index.new key ≡ places_at index.old key) }
{
    let template = Text::from_str(alloc, without_trailing_slash(endpoint.path))?;
    index.add(alloc, template, place)
}
