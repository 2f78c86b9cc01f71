ghost use Rattle.std.specs.Prelude.{◌≡◌, IfOk, map, option_map};
ghost use Rattle.openapi_values.specs.Objects.{list_unless_empty as listed, map_members, unless_empty};

use schema_values::{Boxed, Json, List, Member, Text};
use std::alloc::{AllocError, Global};

/// A part of the document.
pub trait Part {
    ghost use Rattle.schema_values.specs.declared.json_value.Json.{Json as JsonValue};

    ghost json: { Self → JsonValue };

    /// The part as it is written.
    fn to_json(&self, alloc: Global) -> Result<Json, AllocError>
        ensures { IfOk result (λ written. written ≡ json self.now) };

    /// A part equal to this one.
    fn copy(&self, alloc: Global) -> Result<Self, AllocError>
        ensures { IfOk result (λ copy. copy ≡ self.now) };
}

impl Part for Json {
    ghost json = { λ schema. schema };

    fn to_json(&self, alloc: Global) -> Result<Json, AllocError> {
        self.copy(alloc)
    }

    fn copy(&self, alloc: Global) -> Result<Json, AllocError> {
        self.copy(alloc)
    }
}

impl Part for Text {
    ghost use Rattle.schema_values.specs.declared.json_value.Json.{Text as TextOf};

    ghost json = { TextOf };

    fn to_json(&self, alloc: Global) -> Result<Json, AllocError> {
        Ok(Json::Text(self.copy(alloc)?))
    }

    fn copy(&self, alloc: Global) -> Result<Text, AllocError> {
        self.copy(alloc)
    }
}

impl<T: Part + Drop> Part for Boxed<T> {
    ghost json = { T.json };

    fn to_json(&self, alloc: Global) -> Result<Json, AllocError> {
        self.get().to_json(alloc)
    }

    fn copy(&self, alloc: Global) -> Result<Boxed<T>, AllocError> {
        Boxed::new(alloc, self.get().copy(alloc)?)
    }
}

pub(crate) fn option_json<T: Part>(
    alloc: Global,
    part: &Option<T>,
) -> Result<Option<Json>, AllocError>
    ensures { IfOk result (λ json. json ≡ option_map T.json part.now) }
{
    match part {
        Some(part) => Ok(Some(part.to_json(alloc)?)),
        None => Ok(None),
    }
}

pub(crate) fn copy_option<T: Part>(alloc: Global, part: &Option<T>) -> Result<Option<T>, AllocError>
    ensures { IfOk result (λ copy. copy ≡ part.now) }
{
    match part {
        Some(part) => Ok(Some(part.copy(alloc)?)),
        None => Ok(None),
    }
}

/// The members that a map of names is written as.
pub(crate) fn map_json<T: Part>(
    alloc: Global,
    map: &List<(Text, T)>,
) -> Result<List<Member>, AllocError>
    ensures { IfOk result (λ members. members ≡ map_members T.json map.now) }
{
    let mut members = List::new(alloc);
    for entry in map.as_slice() {
        let name = entry.0.copy(alloc)?;
        let value = entry.1.to_json(alloc)?;
        members.push(Member { name, value })?;
    }
    Ok(members)
}

/// A map as an object, unless it is empty.
pub(crate) fn map_unless_empty<T: Part>(
    alloc: Global,
    map: &List<(Text, T)>,
) -> Result<Option<Json>, AllocError>
    ensures { IfOk result (λ json. json ≡ unless_empty (map_members T.json map.now)) }
{
    if map.len() == 0 {
        return Ok(None);
    }
    Ok(Some(Json::Object(map_json(alloc, map)?)))
}

pub(crate) fn copy_map<T: Part + Drop>(
    alloc: Global,
    map: &List<(Text, T)>,
) -> Result<List<(Text, T)>, AllocError>
    ensures { IfOk result (λ copy. copy ≡ map.now) }
{
    let mut copies = List::new(alloc);
    for entry in map.as_slice() {
        copies.push((entry.0.copy(alloc)?, entry.1.copy(alloc)?))?;
    }
    Ok(copies)
}

/// What each part is written as.
pub(crate) fn list_json<T: Part>(alloc: Global, parts: &List<T>) -> Result<List<Json>, AllocError>
    ensures { IfOk result (λ items. items ≡ map T.json parts.now) }
{
    let mut items = List::new(alloc);
    for part in parts.as_slice() {
        items.push(part.to_json(alloc)?)?;
    }
    Ok(items)
}

/// Some parts as a list, unless there are none.
pub(crate) fn list_unless_empty<T: Part>(
    alloc: Global,
    parts: &List<T>,
) -> Result<Option<Json>, AllocError>
    ensures { IfOk result (λ json. json ≡ listed (map T.json parts.now)) }
{
    if parts.len() == 0 {
        return Ok(None);
    }
    Ok(Some(Json::List(list_json(alloc, parts)?)))
}

pub(crate) fn copy_list<T: Part + Drop>(
    alloc: Global,
    parts: &List<T>,
) -> Result<List<T>, AllocError>
    ensures { IfOk result (λ copy. copy ≡ parts.now) }
{
    let mut copies = List::new(alloc);
    for part in parts.as_slice() {
        copies.push(part.copy(alloc)?)?;
    }
    Ok(copies)
}
