// What is told of values that have no place in a map of texts.
ghost use Rattle.std.specs.Prelude.{◌≡◌, Contains, IfSome, Some, slice_get};
ghost use Rattle.std.specs.Option.{option_copied};
ghost use Rattle.schema_values.specs.declared.json_value.Json.{out-Json};
ghost use Rattle.descriptors.specs.declared.desc.Desc.{out-Desc};
ghost use Rattle.descriptors.specs.declared.desc.Variant.{Variant};
ghost use Rattle.descriptors.specs.declared.tree.Tree.{out-Tree};
ghost use Rattle.typed_values.specs.Checks.{TablePasses, DescPasses};
ghost use Rattle.flat_maps.specs.MapErrors.{Refuses};
ghost use Rattle.flat_maps.specs.Refusals as refusals;

use crate::map_error::MapError;
use crate::resolve::resolve;
use descriptors::{Desc, DescTable, IntKind, Tree, Variant};
use scalar_texts::kind_name;
use schema_values::Json;
use std::alloc::Global;

/// What is told of a value under a descriptor that is no reference.
pub(crate) fn refusal(alloc: Global, table: &DescTable, desc: &Desc, tree: &Tree) -> MapError
    requires table { TablePasses table.now }
    requires desc { DescPasses table.now desc.now }
    ensures { Refuses result
        (refusals.refusal_by table.now (out-Desc desc.now) (out-Tree tree.now)) }
{
    match desc {
        Desc::Any => whole_refusal(alloc, tree),
        Desc::Bool => MapError::invalid_type(alloc, "bool"),
        Desc::Char => MapError::invalid_type(alloc, "char"),
        Desc::Int { kind, .. } => MapError::invalid_type(alloc, kind_name(*kind)),
        Desc::Text { .. } => MapError::invalid_type(alloc, "str"),
        Desc::Enumeration { .. } => MapError::invalid_type(alloc, "unit_variant"),
        Desc::Option(_) => option_refusal(alloc, tree),
        Desc::List { .. } => MapError::refused(alloc, "cannot serialize a sequence"),
        Desc::Map(_) => MapError::refused(alloc, "cannot serialize a map"),
        Desc::Struct { .. } => MapError::refused(alloc, "cannot serialize a struct"),
        Desc::External { variants } => {
            payload_refusal(alloc, table, payload_at(variants.as_slice(), tree))
        }
        Desc::Tagged { .. } => MapError::refused(alloc, "cannot serialize a struct variant"),
        Desc::Untagged { alternatives } => {
            payload_refusal(alloc, table, alternative_at(alternatives.as_slice(), tree))
        }
        Desc::Null | Desc::Never | Desc::Ref(_) => MapError::invalid_type(alloc, "unit"),
    }
}

// What the tree of any value holds.
fn whole_refusal(alloc: Global, tree: &Tree) -> MapError
    ensures { Refuses result (refusals.whole_refusal (out-Tree tree.now)) }
{
    match tree {
        Tree::Any(json) => json_refusal(alloc, json),
        _ => MapError::invalid_type(alloc, "unit"),
    }
}

// Any JSON value, by its form.
fn json_refusal(alloc: Global, json: &Json) -> MapError
    ensures { Refuses result (refusals.json_refusal (out-Json json.now)) }
{
    match json {
        Json::Null => MapError::invalid_type(alloc, "unit"),
        Json::Bool(_) => MapError::invalid_type(alloc, "bool"),
        Json::Int(number) => number_refusal(alloc, number),
        Json::Text(_) => MapError::invalid_type(alloc, "str"),
        Json::List(_) => MapError::refused(alloc, "cannot serialize a sequence"),
        Json::Object(_) => MapError::refused(alloc, "cannot serialize a map"),
    }
}

// A number of 64 bits, with a sign where it is below 0.
fn number_refusal(alloc: Global, number: &i128) -> MapError
    ensures { Refuses result (refusals.number_refusal number.now) }
{
    if *number < 0 {
        MapError::invalid_type(alloc, kind_name(IntKind::I64))
    } else {
        MapError::invalid_type(alloc, kind_name(IntKind::U64))
    }
}

// An option that is no field's.
fn option_refusal(alloc: Global, tree: &Tree) -> MapError
    ensures { Refuses result (refusals.option_refusal (out-Tree tree.now)) }
{
    match tree {
        Tree::None => MapError::invalid_type(alloc, "none"),
        _ => MapError::invalid_type(alloc, "some"),
    }
}

// The payload of the variant at the place that a tree has.
fn payload_at<'a>(variants: &'a [Variant], tree: &Tree) -> Option<&'a Desc>
    ensures payload { option_copied result
        ≡ refusals.chosen_payload (λ i. refusals.payload_there (slice_get variants.now i))
        (out-Tree tree.now) }
    ensures inside { IfSome result (λ payload.
        (v : Variant) × Contains variants.now v × (v.payload ≡ Some payload.now)) }
{
    match tree {
        Tree::Variant(place, _) => match variants.get(*place as usize) {
            Some(variant) => variant.payload.as_ref(),
            None => None,
        },
        _ => None,
    }
}

// The alternative at the place that a tree has.
fn alternative_at<'a>(alternatives: &'a [Desc], tree: &Tree) -> Option<&'a Desc>
    ensures alternative { option_copied result
        ≡ refusals.chosen_payload (slice_get alternatives.now) (out-Tree tree.now) }
    ensures inside { IfSome result (λ alternative. Contains alternatives.now alternative.now) }
{
    match tree {
        Tree::Variant(place, _) => match alternatives.get(*place as usize) {
            Some(alternative) => Some(alternative),
            None => None,
        },
        _ => None,
    }
}

// A variant, by what its payload is, if it has one.
fn payload_refusal(alloc: Global, table: &DescTable, payload: Option<&Desc>) -> MapError
    requires table { TablePasses table.now }
    requires payload { IfSome payload (λ payload. DescPasses table.now payload.now) }
    ensures { Refuses result (refusals.payload_refusal table.now (option_copied payload.entry)) }
{
    match payload {
        None => MapError::invalid_type(alloc, "unit_variant"),
        Some(desc) => match resolve(table, desc) {
            Some(Desc::Struct { .. }) => {
                MapError::refused(alloc, "cannot serialize a struct variant")
            }
            _ => MapError::invalid_type(alloc, "newtype_variant"),
        },
    }
}
