ghost use Rattle.std.specs.Prelude.{◌≡◌, ◌↔◌, Err, IfOk, IfErr, IfSome, IsTrue, None, Some, [], map};
ghost use Rattle.std.specs.Prelude.{option_map};
ghost use Rattle.std.specs.List.{AllByRecursion};
ghost use Rattle.schema_values.specs.Ascending.{IsAscending};
ghost use Rattle.schema_values.specs.AscendingMembers.{HasAscendingMembers};
ghost use Rattle.schema_values.specs.Sound.{IsSound, IsWhole};
ghost use Rattle.schema_values.specs.SoundMembers.{HasSoundMembers, HasSoundValue};
ghost use Rattle.schema_values.specs.SortedMembers.{in_order_after, sorted_member, sorted_members};
ghost use Rattle.serde_json.specs.View.{view, number_view, items_view, members_view};
ghost use Rattle.schema_values.specs.Reading.{json_of, items_of, members_of, whole_of};
ghost use Rattle.schema_values.specs.declared.json_value.Json.{Int};

use crate::json_value::{Json, Member};
use crate::list::List;
use crate::text::Text;
use serde_json::{Map, Number, Value};
use std::alloc::{AllocError, Global};
use thiserror::Error;

/// Why a value of `serde_json` was not taken over.
#[derive(Clone, Copy, Debug, PartialEq, Eq, Error)]
pub enum ValueError {
    /// The value holds a number that is no integer of 64 bits.
    #[error("holds a number that is no 64-bit integer")]
    HoldsFloat,
    /// There was not enough memory.
    #[error("out of memory")]
    OutOfMemory,
}

impl From<AllocError> for ValueError {
    ghost use Rattle.std.specs.Prelude.{◌≡◌};
    ghost use Rattle.schema_values.specs.declared.value.ValueError.TheVariants.{OutOfMemory};

    ghost from_gives = { λ _ e. e ≡ OutOfMemory };

    fn from(_: AllocError) -> ValueError {
        ValueError::OutOfMemory
    }
}

impl Json {
    /// The same value, with the members of each object in ascending order of names. Its texts are taken over
    /// without a copy.
    ///
    /// `HoldsFloat` exactly where it holds a number that is no integer of 64 bits. That is looked for first,
    /// so want of memory is never told of such a value.
    pub fn from_value(alloc: Global, value: Value) -> Result<Json, ValueError>
        ensures ok { IfOk result (λ json. json_of (view value) ≡ Some json) }
        ensures sound { IfOk result (λ json. IsSound json) }
        ensures ascending { IfOk result (λ json. IsAscending json) }
        ensures err { IfErr result (λ e. e ≡ ValueError.HoldsFloat → json_of (view value) ≡ None) }
        ensures refused { json_of (view value) ≡ None → result ≡ Err ValueError.HoldsFloat }
    {
        if holds_float(&value) {
            return Err(ValueError::HoldsFloat);
        }
        taken_over(alloc, value)
    }

    /// The same value, as `from_value` gives it of a copy.
    ///
    /// `HoldsFloat` exactly where it holds a number that is no integer of 64 bits. That is looked for first,
    /// so want of memory is never told of such a value.
    pub fn of_value(alloc: Global, value: &Value) -> Result<Json, ValueError>
        ensures ok { IfOk result (λ json. json_of (view value.now) ≡ Some json) }
        ensures sound { IfOk result (λ json. IsSound json) }
        ensures ascending { IfOk result (λ json. IsAscending json) }
        ensures err { IfErr result (λ e. e ≡ ValueError.HoldsFloat → json_of (view value.now) ≡ None) }
        ensures refused { json_of (view value.now) ≡ None → result ≡ Err ValueError.HoldsFloat }
    {
        if holds_float(value) {
            return Err(ValueError::HoldsFloat);
        }
        taken_over(alloc, value.clone()?)
    }

    /// The same value as one of `serde_json`, whose objects have their members in ascending order of names.
    #[cycle(to_value)]
    pub fn to_value(&self, alloc: Global) -> Result<Value, AllocError>
        requires sound { IsSound self.now }
        ensures { IfOk result (λ value. json_of (view value) ≡ Some (sorted_members self.now)) }
    {
        match self {
            Json::Null => Ok(Value::Null),
            Json::Bool(truth) => Ok(Value::Bool(*truth)),
            Json::Int(number) => match Number::from_i128(*number) {
                Some(number) => Ok(Value::Number(number)),
                None => unreachable!(),
            },
            Json::Text(text) => Ok(Value::String(String::from_str(alloc, text.as_str())?)),
            Json::List(items) => Ok(Value::Array(values_of_items(alloc, items.as_slice())?)),
            Json::Object(members) => Ok(Value::Object(map_of_members(alloc, members.as_slice())?)),
        }
    }
}

// Whether a number that is no integer of 64 bits stands in the value.
#[cycle(holds_float)]
fn holds_float(value: &Value) -> bool
    ensures { IsTrue result ↔ (json_of (view value.now) ≡ None) }
{
    match value {
        Value::Null | Value::Bool(_) | Value::String(_) => false,
        Value::Number(number) => whole_number(number).is_none(),
        Value::Array(values) => some_item_holds_float(values),
        Value::Object(members) => some_member_holds_float(members),
    }
}

#[cycle(holds_float)]
fn some_item_holds_float(values: &Vec<Value>) -> bool
    ensures { IsTrue result ↔ (items_of (items_view values.now.items) ≡ None) }
{
    for value in values {
        if holds_float(value) {
            return true;
        }
    }
    false
}

#[cycle(holds_float)]
fn some_member_holds_float(map: &Map<String, Value>) -> bool
    ensures { IsTrue result ↔ (members_of (members_view map.now.entries) ≡ None) }
{
    for (_name, value) in map.iter() {
        if holds_float(value) {
            return true;
        }
    }
    false
}

// The value as `from_value` gives it, in one pass, which may run out of memory before it comes to a float.
#[cycle(taken_over)]
fn taken_over(alloc: Global, value: Value) -> Result<Json, ValueError>
    ensures ok { IfOk result (λ json. json_of (view value) ≡ Some json) }
    ensures sound { IfOk result (λ json. IsSound json) }
    ensures ascending { IfOk result (λ json. IsAscending json) }
    ensures err { IfErr result (λ e. e ≡ ValueError.HoldsFloat → json_of (view value) ≡ None) }
{
    match value {
        Value::Null => Ok(Json::Null),
        Value::Bool(truth) => Ok(Json::Bool(truth)),
        Value::Number(number) => int_of_number(&number),
        Value::String(text) => Ok(Json::Text(Text::from_string(text))),
        Value::Array(values) => Ok(Json::List(items_of_values(alloc, values)?)),
        Value::Object(members) => Ok(Json::Object(members_of_map(alloc, members)?)),
    }
}

#[cycle(taken_over)]
fn items_of_values(alloc: Global, values: Vec<Value>) -> Result<List<Json>, ValueError>
    ensures ok { IfOk result (λ items. items_of (items_view values.items) ≡ Some items) }
    ensures sound { IfOk result (λ items. AllByRecursion IsSound items) }
    ensures ascending { IfOk result (λ items. AllByRecursion IsAscending items) }
    ensures err { IfErr result (λ e. e ≡ ValueError.HoldsFloat
        → items_of (items_view values.items) ≡ None) }
{
    let mut items = List::new(alloc);
    for value in values {
        items.push(taken_over(alloc, value)?)?;
    }
    Ok(items)
}

#[cycle(taken_over)]
fn members_of_map(alloc: Global, map: Map<String, Value>) -> Result<List<Member>, ValueError>
    ensures ok { IfOk result (λ members. members_of (members_view map.entries) ≡ Some members) }
    ensures sound { IfOk result (λ members. HasSoundMembers members) }
    ensures ascending { IfOk result (λ members. HasAscendingMembers members) }
    ensures err { IfErr result (λ e. e ≡ ValueError.HoldsFloat
        → members_of (members_view map.entries) ≡ None) }
{
    let mut members = List::new(alloc);
    for (key, value) in map {
        let name = Text::from_string(key);
        let value = taken_over(alloc, value)?;
        members.push(Member { name, value })?;
    }
    Ok(members)
}

fn int_of_number(number: &Number) -> Result<Json, ValueError>
    ensures ok { IfOk result (λ json. option_map Int (whole_of (number_view number.now)) ≡ Some json) }
    ensures sound { IfOk result (λ json. IsSound json) }
    ensures ascending { IfOk result (λ json. IsAscending json) }
    ensures err { IfErr result (λ _. whole_of (number_view number.now) ≡ None) }
    ensures told { IfErr result (λ e. e ≡ ValueError.HoldsFloat) }
{
    match whole_number(number) {
        Some(whole) => Ok(Json::Int(whole)),
        None => Err(ValueError::HoldsFloat),
    }
}

fn whole_number(number: &Number) -> Option<i128>
    ensures value { result ≡ whole_of (number_view number.now) }
    ensures fits { IfSome result (λ whole. IsWhole whole) }
{
    match number.as_u64() {
        Some(whole) => Some(i128::from(whole)),
        None => match number.as_i64() {
            Some(whole) => Some(i128::from(whole)),
            None => None,
        },
    }
}

#[cycle(to_value)]
fn values_of_items(alloc: Global, items: &[Json]) -> Result<Vec<Value>, AllocError>
    requires sound { AllByRecursion IsSound items.now }
    ensures { IfOk result (λ values. items_of (items_view values.items)
        ≡ Some (map sorted_members items.now)) }
{
    let mut values = Vec::new(alloc);
    for item in items {
        values.push(item.to_value(alloc)?)?;
    }
    Ok(values)
}

#[cycle(to_value)]
fn map_of_members(alloc: Global, members: &[Member]) -> Result<Map<String, Value>, AllocError>
    requires sound { AllByRecursion HasSoundValue members.now }
    ensures { IfOk result (λ entries. members_of (members_view entries.entries)
        ≡ Some (in_order_after [] (map sorted_member members.now))) }
{
    let mut entries = Map::new(alloc);
    for member in members {
        let value = member.value.to_value(alloc)?;
        serde_json::put(&mut entries, alloc, member.name.as_str(), value)?;
    }
    Ok(entries)
}
