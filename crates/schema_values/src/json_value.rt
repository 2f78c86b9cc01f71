ghost use Rattle.std.specs.Prelude.{◌≡◌, ◌≢◌, ◌↔◌, IsTrue, length, map};
ghost use Rattle.std.specs.List.{AllAdjacentBelow, AllByRecursion};
ghost use Rattle.schema_values.specs.AscendingMembers.{Precedes};
ghost use Rattle.schema_values.specs.Member.{name_of, value_of};
ghost use Rattle.schema_values.specs.Sound.{IsSound, IsWhole, AreDistinct};
ghost use Rattle.schema_values.specs.SoundTest.{is_sound};

use crate::list::List;
use crate::text::Text;

/// A JSON value (RFC 8259) whose numbers are whole.
#[derive(Drop, PartialEq, Eq)]
#[cycle(json)]
pub enum Json {
    /// The literal `null`, written where there is no value.
    Null,
    /// A truth value.
    Bool(bool),
    /// A whole number, from -2^63 to 2^64-1 in a sound value.
    Int(i128),
    /// A string of RFC 8259.
    Text(Text),
    /// An array: the items in their order.
    List(List<Json>),
    /// An object: the members in their order. Names are distinct in a sound value.
    Object(List<Member>),
}

/// A member of an object.
#[derive(Drop, PartialEq, Eq)]
#[cycle(json)]
pub struct Member {
    /// Its name.
    pub name: Text,
    /// Its value.
    pub value: Json,
}

impl Json {
    /// Whether names are distinct in every object and every number lies from -2^63 to 2^64-1. Takes no
    /// memory.
    #[cycle(sound)]
    #[tactic(auto, using(crate::proofs::SoundTests::sound_told))]
    pub fn sound(&self) -> bool
        ensures sound { IsTrue result ↔ IsSound self.now }
        ensures test { result ≡ is_sound self.now }
    {
        match self {
            Json::Null | Json::Bool(_) | Json::Text(_) => true,
            Json::Int(number) => is_whole(*number),
            Json::List(items) => all_sound(items.as_slice()),
            Json::Object(members) => {
                all_values_sound(members.as_slice()) && names_distinct(members.as_slice())
            }
        }
    }
}

fn is_whole(number: i128) -> bool
    ensures { IsTrue result ↔ IsWhole number }
{
    -0x8000_0000_0000_0000 <= number && number <= 0xffff_ffff_ffff_ffff
}

#[cycle(sound)]
fn all_sound(items: &[Json]) -> bool
    ensures { IsTrue result ↔ AllByRecursion IsSound items.now }
{
    for item in items {
        if !item.sound() {
            return false;
        }
    }
    true
}

#[cycle(sound)]
fn all_values_sound(members: &[Member]) -> bool
    ensures { IsTrue result ↔ AllByRecursion (λ member. IsSound (value_of member)) members.now }
{
    for member in members {
        if !member.value.sound() {
            return false;
        }
    }
    true
}

// One pass where the names ascend, as those of a value that was read do; else each is tested against those
// behind it.
fn names_distinct(members: &[Member]) -> bool
    ensures { IsTrue result ↔ AreDistinct (map name_of members.now) }
{
    names_ascend(members) || each_name_new(members)
}

/// Whether each member stands before the next in the order of names. Takes no memory.
pub fn names_ascend(members: &[Member]) -> bool
    ensures { IsTrue result ↔ AllAdjacentBelow Precedes members.now (length members.now) }
{
    for index in 1..members.len() {
        if members[index - 1].name >= members[index].name {
            return false;
        }
    }
    true
}

fn each_name_new(members: &[Member]) -> bool
    ensures { IsTrue result ↔ AreDistinct (map name_of members.now) }
{
    let mut rest = members;
    while let Some((first, others)) = rest.split_first() {
        if !is_new_name(&first.name, others) {
            return false;
        }
        rest = others;
    }
    true
}

fn is_new_name(name: &Text, members: &[Member]) -> bool
    ensures { IsTrue result ↔ AllByRecursion (λ member. name.now ≢ name_of member) members.now }
{
    for member in members {
        if name.equals(&member.name) {
            return false;
        }
    }
    true
}
