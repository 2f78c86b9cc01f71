//! The values of an object's members, moved out of it by their names. No text is copied.
ghost use Rattle.std.specs.Prelude.{◌≡◌, IfOk, IsErrOf, IsTrue, List as ListOf, OnErr, Some, bytes_eq, ℕ};
ghost use Rattle.std.specs.List.{position};
ghost use Rattle.std.specs.Str.{chars};
ghost use Rattle.schema_values.specs.Ascii.{all_ascii};
ghost use Rattle.schema_values.specs.declared.json_value.Json.{Json as JsonValue};
ghost use Rattle.schema_values.specs.declared.json_value.Json.TheVariants as jsons;
ghost use Rattle.schema_values.specs.declared.json_value.Member.{Member as MemberValue};
ghost use Rattle.typed_values.specs.Denotes.{value_named};
ghost use Rattle.request_lines.specs.Said.{AreItems, AreMembers, IsText, KeepsOthers};

use crate::line_error::LineError;
use schema_values::{Json, List, Member, Text};
use std::alloc::Global;

/// Moves out the value of the first member of a name, where there is one.
pub(crate) fn take_value(members: &mut Vec<Member>, name: &str) -> Option<Json>
    requires { IsTrue (all_ascii name.now) }
    ensures value { result ≡ value_named members.old.items name.now }
    ensures others { KeepsOthers name.now members.old.items members.new.items }
{
    let place = place_of(members.as_slice(), name)?;
    let Member { value, .. } = members.remove(place);
    Some(value)
}

// The place of the first member of a name.
fn place_of(members: &[Member], name: &str) -> Option<usize>
    ensures { result ≡ position (λ member. bytes_eq member.name (chars name.now)) members.now }
{
    members.iter().position(|member| is_named(member, name))
}

fn is_named(member: &Member, name: &str) -> bool
    ensures { result ≡ bytes_eq member.now.name (chars name.now) }
{
    member.name.equals_str(name)
}

/// The text that a value is. It takes no memory.
pub(crate) fn text_in(json: Json) -> Result<Text, LineError>
    ensures text { IfOk result (IsText json) }
    ensures bad { OnErr result ((text : ListOf ℕ) → ¬ IsText json text) }
    ensures told { OnErr result (IsErrOf result LineError.Bad) }
{
    match json {
        Json::Text(text) => Ok(text),
        _ => Err(LineError::Bad),
    }
}

/// Moves out the text of a name, which has to be there. It takes no memory.
pub(crate) fn text_named(members: &mut Vec<Member>, name: &str) -> Result<Text, LineError>
    requires { IsTrue (all_ascii name.now) }
    ensures text { IfOk result (λ text. value_named members.old.items name.now ≡ Some (jsons.Text text)) }
    ensures bad { OnErr result ((text : ListOf ℕ)
        → ¬ (value_named members.old.items name.now ≡ Some (jsons.Text text))) }
    ensures told { OnErr result (IsErrOf result LineError.Bad) }
    ensures others { KeepsOthers name.now members.old.items members.new.items }
{
    match take_value(members, name) {
        Some(json) => text_in(json),
        None => Err(LineError::Bad),
    }
}

/// Moves out the items of the list of a name: none where there is no such member. It takes no memory.
pub(crate) fn items_named(
    alloc: Global,
    members: &mut Vec<Member>,
    name: &str,
) -> Result<List<Json>, LineError>
    requires { IsTrue (all_ascii name.now) }
    ensures items { IfOk result (AreItems (value_named members.old.items name.now)) }
    ensures bad { OnErr result ((items : ListOf JsonValue)
        → ¬ AreItems (value_named members.old.items name.now) items) }
    ensures told { OnErr result (IsErrOf result LineError.Bad) }
    ensures others { KeepsOthers name.now members.old.items members.new.items }
{
    match take_value(members, name) {
        Some(Json::List(items)) => Ok(items),
        Some(_) => Err(LineError::Bad),
        None => Ok(List::new(alloc)),
    }
}

/// Moves out the members of the object of a name: none where there is no such member. It takes no memory.
pub(crate) fn members_named(
    alloc: Global,
    members: &mut Vec<Member>,
    name: &str,
) -> Result<List<Member>, LineError>
    requires { IsTrue (all_ascii name.now) }
    ensures members { IfOk result (AreMembers (value_named members.old.items name.now)) }
    ensures bad { OnErr result ((inner : ListOf MemberValue)
        → ¬ AreMembers (value_named members.old.items name.now) inner) }
    ensures told { OnErr result (IsErrOf result LineError.Bad) }
    ensures others { KeepsOthers name.now members.old.items members.new.items }
{
    match take_value(members, name) {
        Some(Json::Object(inner)) => Ok(inner),
        Some(_) => Err(LineError::Bad),
        None => Ok(List::new(alloc)),
    }
}
