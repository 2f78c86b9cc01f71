//! The struct that a map of texts denotes.

ghost use Rattle.std.specs.Prelude.{◌≡◌, IfErr, IfOk};
ghost use Rattle.descriptors.specs.declared.tree.Tree.{Tree};
ghost use Rattle.typed_values.specs.Answer.{Tells, IfFault, IsFaultOf};
ghost use Rattle.typed_values.specs.Checks.{TablePasses, DescPasses};
ghost use Rattle.typed_values.specs.Fits.{Fits};
ghost use Rattle.flat_maps.specs.Flat.{FlatDenotes, flat_told};
ghost use Rattle.flat_maps.specs.Maps.{map_values};

use crate::fields::decode_fields;
use crate::given::{Given, LookUp};
use crate::resolve::fields_of;
use descriptors::{Desc, DescTable, Tree};
use schema_values::{Text, VariableValue};
use std::alloc::{AllocError, Global};
use std::collections::BTreeMap;
use typed_values::{DecodeError, FaultKind, Stop};

/// A value in a map of texts: one text, or a list of texts. Exactly one of the two calls has it.
pub trait MapValue {
    ghost use Rattle.std.specs.Prelude.{◌≡◌, option_map};
    ghost use Rattle.std.specs.Str.{chars};
    ghost use Rattle.schema_values.specs.declared.variables.VariableValue.{VariableValue};
    ghost use Rattle.flat_maps.specs.Given.{one_text, text_list};

    ghost given: { Self → VariableValue };

    /// The text, where the value is one.
    fn as_value(&self) -> Option<&str>
        ensures { option_map (λ text. chars text.now) result ≡ one_text (given self.now) };

    /// The texts, where the value is a list.
    fn as_seq(&self) -> Option<&[Text]>
        ensures { option_map (λ texts. texts.now) result ≡ text_list (given self.now) };
}

impl MapValue for Text {
    ghost use Rattle.schema_values.specs.declared.variables.VariableValue.TheVariants.{String};

    ghost given = { λ text. String text };

    fn as_value(&self) -> Option<&str> {
        Some(self.as_str())
    }

    fn as_seq(&self) -> Option<&[Text]> {
        None
    }
}

impl MapValue for VariableValue {
    ghost given = { λ value. value };

    fn as_value(&self) -> Option<&str> {
        match self {
            VariableValue::String(text) => Some(text.as_str()),
            VariableValue::Components(_) => None,
        }
    }

    fn as_seq(&self) -> Option<&[Text]> {
        match self {
            VariableValue::String(_) => None,
            VariableValue::Components(texts) => Some(texts.as_slice()),
        }
    }
}

impl<Z: MapValue> LookUp for BTreeMap<Text, Z> {
    ghost use Rattle.flat_maps.specs.Maps.{map_values};

    ghost names = { λ map. map_values Z.given map };

    fn look_up(&self, _alloc: Global, name: &Text) -> Result<Option<Given<'_>>, AllocError> {
        let Some(value) = self.get(name) else {
            return Ok(None);
        };
        match value.as_value() {
            Some(text) => Ok(Some(Given::One(text))),
            None => match value.as_seq() {
                Some(texts) => Ok(Some(Given::Several(texts))),
                None => Ok(None),
            },
        }
    }
}

/// Decodes a map of texts, as the variables of a path (OpenAPI 3.0.3, Parameter Object), under a
/// struct that takes unknown names, or a reference to one: the tree that it denotes, or the fault
/// that is told first. Names that are no field's have no effect. It compares names some f log m
/// times for f fields and m names, beside decoding what the fields are given.
pub fn decode_map<Z: MapValue>(
    alloc: Global,
    table: &DescTable,
    desc: &Desc,
    map: &BTreeMap<Text, Z>,
) -> Result<Tree, DecodeError>
    requires table { TablePasses table.now }
    requires desc { DescPasses table.now desc.now }
    ensures denotes { IfOk result (FlatDenotes table.now desc.now (map_values Z.given map.now)) }
    ensures fits { IfOk result (Fits table.now desc.now) }
    ensures fault { IfErr result (λ error. IfFault error
        (IsFaultOf (flat_told table.now (map_values Z.given map.now) desc.now))) }
    ensures refused { IfErr result (λ error. IfFault error (λ fault.
        (tree : Tree) → FlatDenotes table.now desc.now (map_values Z.given map.now) tree → ⊥)) }
{
    match tree_of_names(alloc, table, desc, map) {
        Ok(tree) => Ok(tree),
        Err(stop) => Err(stop.into_error(alloc)),
    }
}

/// The tree that names denote, with a fault on its way out.
pub(crate) fn tree_of_names<L: LookUp>(
    alloc: Global,
    table: &DescTable,
    desc: &Desc,
    names: &L,
) -> Result<Tree, Stop>
    requires table { TablePasses table.now }
    requires desc { DescPasses table.now desc.now }
    ensures { Tells result (flat_told table.now (L.names names.now) desc.now) }
{
    match fields_of(table, desc) {
        Some(fields) => decode_fields(alloc, table, fields, names),
        None => Err(Stop::refused(alloc, FaultKind::WrongKind)),
    }
}
