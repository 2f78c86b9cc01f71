// The words of faults, which name no place.
ghost use Rattle.std.specs.Prelude.{◌≡◌, Contains, IfSome, Some, option_map, reverse};
ghost use Rattle.std.specs.Option.{option_copied};
ghost use Rattle.typed_values.specs.Answer.{trouble};
ghost use Rattle.typed_values.specs.Checks.{TablePasses, DescPasses};
ghost use Rattle.flat_maps.specs.FaultWords as words;
ghost use Rattle.flat_maps.specs.FaultWords.{fault_words, field_named};
ghost use Rattle.flat_maps.specs.Flat.{flat_fields, resolved};
ghost use Rattle.flat_maps.specs.Lookups.{given_of};
ghost use Rattle.flat_maps.specs.MapErrors.{Refuses};

use crate::given::{Given, LookUp};
use crate::map_error::MapError;
use crate::resolve::{fields_of, held, resolve};
use descriptors::{Desc, DescTable, Field};
use schema_values::Text;
use std::alloc::Global;
use typed_values::{FaultKind, Misfit, Place};

/// What is told of a fault under a descriptor, among names that are looked up.
pub(crate) fn told<L: LookUp>(
    alloc: Global,
    table: &DescTable,
    desc: &Desc,
    names: &L,
    misfit: &Misfit,
) -> MapError
    requires table { TablePasses table.now }
    requires desc { DescPasses table.now desc.now }
    ensures { Refuses result
        (fault_words table.now (L.names names.now) desc.now (trouble misfit.now)) }
{
    match &misfit.kind {
        FaultKind::WrongKind => wrong_kind(alloc, table, desc, names, misfit.places.as_slice()),
        _ => match misfit.kind.text(alloc) {
            Ok(text) => MapError::Refused(text),
            Err(_) => MapError::OutOfMemory,
        },
    }
}

// A value of another kind, by the places passed, the innermost first.
fn wrong_kind<L: LookUp>(
    alloc: Global,
    table: &DescTable,
    desc: &Desc,
    names: &L,
    places: &[Place],
) -> MapError
    requires table { TablePasses table.now }
    requires desc { DescPasses table.now desc.now }
    ensures { Refuses result (words.path_words table.now (L.names names.now)
        (resolved table.now desc.now) (reverse places.now)) }
{
    match places.split_last() {
        None => whole_words(alloc, table, desc),
        Some((Place::Name(name), inner)) => wrong_name(alloc, table, desc, names, name, inner),
        Some((Place::Item(_), _)) => unsupported(alloc),
    }
}

// The whole is no struct that takes unknown names.
fn whole_words(alloc: Global, table: &DescTable, desc: &Desc) -> MapError
    requires table { TablePasses table.now }
    requires desc { DescPasses table.now desc.now }
    ensures { Refuses result (words.whole_words (resolved table.now desc.now)) }
{
    match resolve(table, desc) {
        Some(Desc::Struct { .. }) => unsupported(alloc),
        _ => MapError::refused(
            alloc,
            "must be applied to a flattened struct rather than a raw type",
        ),
    }
}

// A value of another kind at a name.
fn wrong_name<L: LookUp>(
    alloc: Global,
    table: &DescTable,
    desc: &Desc,
    names: &L,
    name: &Text,
    inner: &[Place],
) -> MapError
    requires table { TablePasses table.now }
    requires desc { DescPasses table.now desc.now }
    ensures { Refuses result (words.fields_words table.now (L.names names.now) name.now
        (reverse inner.now) (flat_fields (resolved table.now desc.now))) }
{
    match fields_of(table, desc) {
        Some(fields) => match field_named(fields, name) {
            Some(field) => wrong_field(alloc, table, field, names, inner),
            None => unsupported(alloc),
        },
        None => unsupported(alloc),
    }
}

// The first field of a name.
fn field_named<'f>(fields: &'f [Field], name: &Text) -> Option<&'f Field>
    ensures is { option_map (λ field. field.now) result ≡ field_named name.now fields.now }
    ensures inside { IfSome result (λ field. Contains fields.now field.now) }
{
    for field in fields {
        if field.name.equals(name) {
            return Some(field);
        }
    }
    None
}

// A value of another kind in a field, or in an item of its list.
fn wrong_field<L: LookUp>(
    alloc: Global,
    table: &DescTable,
    field: &Field,
    names: &L,
    inner: &[Place],
) -> MapError
    requires table { TablePasses table.now }
    requires desc { DescPasses table.now field.now.desc }
    ensures { Refuses result (words.field_words table.now (L.names names.now) (reverse inner.now)
        (Some field.now)) }
{
    if !inner.is_empty() {
        return item_words(alloc, table, &field.desc);
    }
    match names.look_up(alloc, &field.name) {
        Ok(Some(given)) => given_words(alloc, table, &field.desc, given),
        Ok(None) => unsupported(alloc),
        Err(_) => MapError::OutOfMemory,
    }
}

// What is given under a name.
fn given_words(alloc: Global, table: &DescTable, desc: &Desc, given: Given<'_>) -> MapError
    requires table { TablePasses table.now }
    requires desc { DescPasses table.now desc.now }
    ensures { Refuses result (words.given_words table.now desc.now (given_of given.entry)) }
{
    match given {
        Given::One(_) => text_words(alloc, held(table, desc)),
        Given::Several(_) => list_words(alloc, held(table, desc)),
    }
}

// An item of a list of texts.
fn item_words(alloc: Global, table: &DescTable, desc: &Desc) -> MapError
    requires table { TablePasses table.now }
    requires desc { DescPasses table.now desc.now }
    ensures { Refuses result (words.held_words (words.item_words table.now)
        (resolved table.now desc.now)) }
{
    match resolve(table, desc) {
        Some(resolved) => match resolved {
            Desc::List { item, .. } => text_words(alloc, held(table, item.get())),
            _ => unsupported(alloc),
        },
        None => unsupported(alloc),
    }
}

// A text stands where none is taken.
fn text_words(alloc: Global, held: Option<&Desc>) -> MapError
    ensures { Refuses result (words.held_words words.text_words (option_copied held.entry)) }
{
    match held {
        Some(Desc::Struct { .. }) => {
            MapError::refused(alloc, "deserialization container must be fully flattened")
        }
        Some(Desc::List { .. }) => MapError::refused(
            alloc,
            "a string may not be used in place of a sequence of values",
        ),
        _ => unsupported(alloc),
    }
}

// A list of texts stands where none is taken.
fn list_words(alloc: Global, held: Option<&Desc>) -> MapError
    ensures { Refuses result (words.held_words words.list_words (option_copied held.entry)) }
{
    match held {
        Some(Desc::Struct { .. }) => {
            MapError::refused(alloc, "deserialization container must be fully flattened")
        }
        Some(
            Desc::Bool
            | Desc::Char
            | Desc::Int { .. }
            | Desc::Text { .. }
            | Desc::Enumeration { .. },
        ) => MapError::refused(
            alloc,
            "a list of values may not be used in place of a single value",
        ),
        _ => unsupported(alloc),
    }
}

// What takes no text and no list of texts.
fn unsupported(alloc: Global) -> MapError
    ensures { Refuses result words.unsupported }
{
    MapError::refused(alloc, "unsupported type")
}
