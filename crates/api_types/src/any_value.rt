ghost use Rattle.std.specs.Prelude.{◌≡◌, [], codes, IfOk, Ok, Err, if◌then◌else◌};
ghost use Rattle.schema_values.specs.Sound.{IsSound};
ghost use Rattle.schema_values.specs.SoundTest.{is_sound};
ghost use Rattle.descriptors.specs.declared.desc.Desc.TheVariants as descs;
ghost use Rattle.descriptors.specs.declared.tree.Tree.TheVariants as trees;
ghost use Rattle.api_types.specs.Types.{FitsOne};

use crate::api_type::ApiType;
use schema_values::{Json, Text};
use std::alloc::{AllocError, Global};
use std::marker::Model;
use typed_values::{AddError, Desc, DescTable, Tree};

/// A JSON value that is sound, whatever its form.
#[derive(Drop)]
pub struct AnyValue {
    json: Json,
}

impl Model for AnyValue {
    ghost use Rattle.schema_values.specs.declared.json_value.Json.{Json as JsonValue};
    ghost use Rattle.schema_values.specs.contracts.json_value.Json as stored;
    ghost use Rattle.schema_values.specs.Sound.{IsSound};

    ghost Value = { JsonValue };

    ghost coded = { stored.the_row.coded };

    ghost view = { λ value. value.json };

    ghost invariant = { λ value. IsSound value.json };
}

impl AnyValue {
    /// The value of sound JSON. JSON that is not sound is handed back. Takes no memory.
    pub fn new(json: Json) -> Result<AnyValue, Json>
        ensures { result ≡ (if is_sound json then Ok json else Err json) }
    {
        if json.sound() {
            Ok(AnyValue { json })
        } else {
            Err(json)
        }
    }

    /// A value equal to this one. Fails only for want of memory.
    pub fn copy(&self, alloc: Global) -> Result<AnyValue, AllocError>
        ensures { IfOk result (λ copy. copy ≡ self.now) }
    {
        Ok(AnyValue {
            json: self.json.copy(alloc)?,
        })
    }

    /// The JSON of the value.
    pub fn json(&self) -> &Json
        ensures is { result.now ≡ self.now }
        ensures sound { IsSound self.now }
    {
        &self.json
    }

    /// The JSON, out of the value.
    pub fn into_json(self) -> Json
        ensures is { result ≡ self }
        ensures sound { IsSound self }
    {
        let AnyValue { json } = self;
        json
    }
}

impl ApiType for AnyValue {
    ghost name_of = { codes "AnyValue" };

    ghost desc_of = { descs.Any };

    ghost definitions_of = { [] };

    ghost tree_of = { λ json. trees.Any json };

    fn type_name(alloc: Global) -> Result<Text, AllocError> {
        Text::from_ascii(alloc, "AnyValue")
    }

    fn descriptor(_alloc: Global) -> Result<Desc, AllocError> {
        Ok(Desc::Any)
    }

    fn reach() {}

    fn add_definitions(_alloc: Global, _table: &mut DescTable) -> Result<(), AddError> {
        Ok(())
    }

    fn to_tree(&self, alloc: Global) -> Result<Tree, AllocError> {
        Ok(Tree::Any(self.json().copy(alloc)?))
    }

    fn fits(&self) {
        let _ = self.json();
    }

    fn from_tree(alloc: Global, tree: &Tree) -> Result<AnyValue, AllocError> {
        Ok(AnyValue {
            json: json_in(tree).copy(alloc)?,
        })
    }
}

fn json_in(tree: &Tree) -> &Json
    requires { FitsOne [] descs.Any tree.now }
    ensures is { tree.now ≡ trees.Any result.now }
    ensures sound { IsSound result.now }
{
    match tree {
        Tree::Any(json) => json,
        _ => unreachable!(),
    }
}
