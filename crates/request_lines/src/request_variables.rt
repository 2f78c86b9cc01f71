//! The variables of a request's path, made of the members of a line's object.
ghost use Rattle.std.specs.Prelude.{◌≡◌, IfOk, IsErrOf, List as ListOf, OnOk, map, ℕ};
ghost use Rattle.std.specs.BTreeMap.{insert_entry};
ghost use Rattle.std.specs.Cmp.Lexicographic.{slice_cmp};
ghost use Rattle.std.specs.List.{AllZip};
ghost use Rattle.std.specs.Ordering.{nat_cmp};
ghost use Rattle.schema_values.specs.declared.json_value.Json.{Json as JsonValue};
ghost use Rattle.schema_values.specs.declared.json_value.Json.TheVariants as jsons;
ghost use Rattle.schema_values.specs.declared.variables.VariableValue.{VariableValue as Variable};
ghost use Rattle.schema_values.specs.Member.{name_of};
ghost use Rattle.schema_values.specs.Order.{sorted_by};
ghost use Rattle.schema_values.specs.Sound.{AreDistinct};
ghost use Rattle.request_parts.specs.Requests.{Variables};
ghost use Rattle.request_lines.specs.Said.{IsText, SaysEntry, SaysVariable};

use crate::line_error::LineError;
use crate::members::text_in;
use schema_values::{Json, List, Member, Text, VariableSet, VariableValue};
use std::alloc::{AllocError, Global};
use std::collections::BTreeMap;

/// The variables of some members, in the order of their names.
pub(crate) fn variables_of(alloc: Global, members: List<Member>) -> Result<VariableSet, LineError>
    requires { AreDistinct (map name_of members) }
    ensures variables { IfOk result (λ variables.
        AllZip SaysEntry (sorted_by name_of members) variables.entries) }
    ensures bad { IsErrOf result LineError.Bad → (said : Variables)
        → ¬ AllZip SaysEntry (sorted_by name_of members) said }
{
    let mut variables = BTreeMap::new(alloc);
    for member in members.into_vec() {
        let Member { name, value } = member;
        let value = variable_of(alloc, value)?;
        put(&mut variables, name, value)?;
    }
    Ok(variables)
}

// Puts in one more variable. Names are distinct, so it replaces none.
fn put(variables: &mut VariableSet, name: Text, value: VariableValue) -> Result<(), AllocError>
    ensures { OnOk result (variables.new.entries
        ≡ insert_entry (slice_cmp nat_cmp) variables.old.entries name value) }
{
    drop(variables.insert(name, value)?);
    Ok(())
}

// What a variable stands for. Where a value is no list, it takes no memory.
fn variable_of(alloc: Global, json: Json) -> Result<VariableValue, LineError>
    ensures variable { IfOk result (SaysVariable json) }
    ensures bad { IsErrOf result LineError.Bad → (value : Variable) → ¬ SaysVariable json value }
    ensures memory { IsErrOf result LineError.OutOfMemory
        → (items : ListOf JsonValue) × (json ≡ jsons.List items) }
{
    match json {
        Json::Text(text) => Ok(VariableValue::String(text)),
        Json::List(items) => Ok(VariableValue::Components(texts_of(alloc, items)?)),
        _ => Err(LineError::Bad),
    }
}

fn texts_of(alloc: Global, items: List<Json>) -> Result<List<Text>, LineError>
    ensures texts { IfOk result (AllZip IsText items) }
    ensures bad { IsErrOf result LineError.Bad → (texts : ListOf (ListOf ℕ)) → ¬ AllZip IsText items texts }
{
    let mut texts = List::new(alloc);
    for item in items.into_vec() {
        texts.push(text_in(item)?)?;
    }
    Ok(texts)
}
