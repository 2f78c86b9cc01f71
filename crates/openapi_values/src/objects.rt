ghost use Rattle.std.specs.Prelude.{◌≡◌, IfOk, OnOk, IsTrue, Some, [], ◌++◌, map, option_map};
ghost use Rattle.schema_values.specs.Ascii.{all_ascii};
ghost use Rattle.openapi_values.specs.IfTrue.{if_true};
ghost use Rattle.openapi_values.specs.Objects.{list_unless_empty as listed, map_members};
ghost use Rattle.openapi_values.specs.Objects.{present, reference_json, unless_empty};

use crate::part::{Part, list_unless_empty, map_unless_empty, option_json};
use schema_values::{Json, List, Member, Text};
use std::alloc::{AllocError, Global};

/// Adds a member of an ASCII name, where it has a value.
pub fn add(
    alloc: Global,
    members: &mut List<Member>,
    name: &str,
    value: Option<Json>,
) -> Result<(), AllocError>
    requires { IsTrue (all_ascii name.now) }
    ensures { OnOk result (members.new ≡ members.old ++ present name.now value []) }
{
    match value {
        Some(value) => {
            let name = Text::from_ascii(alloc, name)?;
            members.push(Member { name, value })
        }
        None => Ok(()),
    }
}

/// Adds a part as a member of an ASCII name.
pub fn add_part<T: Part>(
    alloc: Global,
    members: &mut List<Member>,
    name: &str,
    part: &T,
) -> Result<(), AllocError>
    requires { IsTrue (all_ascii name.now) }
    ensures { OnOk result (members.new ≡ members.old ++ present name.now (Some (T.json part.now)) []) }
{
    let value = part.to_json(alloc)?;
    add(alloc, members, name, Some(value))
}

/// Adds a part, where it is given.
pub fn add_option<T: Part>(
    alloc: Global,
    members: &mut List<Member>,
    name: &str,
    part: &Option<T>,
) -> Result<(), AllocError>
    requires { IsTrue (all_ascii name.now) }
    ensures { OnOk result (members.new ≡ members.old ++ present name.now
        (option_map T.json part.now) []) }
{
    let value = option_json(alloc, part)?;
    add(alloc, members, name, value)
}

/// Adds some parts as a list, unless there are none.
pub fn add_list<T: Part>(
    alloc: Global,
    members: &mut List<Member>,
    name: &str,
    parts: &List<T>,
) -> Result<(), AllocError>
    requires { IsTrue (all_ascii name.now) }
    ensures { OnOk result (members.new ≡ members.old ++ present name.now
        (listed (map T.json parts.now)) []) }
{
    let value = list_unless_empty(alloc, parts)?;
    add(alloc, members, name, value)
}

/// Adds a map as an object, unless it is empty.
pub fn add_map<T: Part>(
    alloc: Global,
    members: &mut List<Member>,
    name: &str,
    map: &List<(Text, T)>,
) -> Result<(), AllocError>
    requires { IsTrue (all_ascii name.now) }
    ensures { OnOk result (members.new ≡ members.old ++ present name.now
        (unless_empty (map_members T.json map.now)) []) }
{
    let value = map_unless_empty(alloc, map)?;
    add(alloc, members, name, value)
}

/// The truth value true, or nothing.
pub fn true_json(truth: bool) -> Option<Json>
    ensures { result ≡ if_true truth }
{
    if truth { Some(Json::Bool(true)) } else { None }
}

/// A reference alone.
pub fn reference(alloc: Global, reference: &Text) -> Result<Json, AllocError>
    ensures { IfOk result (λ json. json ≡ reference_json reference.now) }
{
    let mut members = List::new(alloc);
    let text = Json::Text(reference.copy(alloc)?);
    add(alloc, &mut members, "$ref", Some(text))?;
    Ok(Json::Object(members))
}
