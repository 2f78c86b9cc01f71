//! A JSON text read in one pass over its tokens.
ghost use Rattle.std.specs.Prelude.{◌≡◌, ◌≢◌, ◌<◌, ◌≤◌, ◌==◌, true, false, Some, None, Err};
ghost use Rattle.std.specs.Prelude.{IfOk, IfSome, OnOk, length, map, option_and_then, slice_index};
ghost use Rattle.std.specs.Cmp.Lexicographic.{slice_cmp};
ghost use Rattle.std.specs.List.{insert};
ghost use Rattle.std.specs.List.Sorted.{IsStrictlySortedBy};
ghost use Rattle.std.specs.Ordering.{nat_cmp};
ghost use Rattle.json.specs.Json.{Json as Tree, Items as TreeItems, Members as TreeMembers};
ghost use Rattle.json.specs.Json.{value, items, members};
ghost use Rattle.schema_values.specs.declared.json_value.Member.{Member as MemberValue};
ghost use Rattle.schema_values.specs.Member.{name_of};
ghost use Rattle.schema_values.specs.Reading.{json_of, items_of, members_of, whole_of};
ghost use Rattle.schema_values.specs.Scalars.{IsScalarText};
ghost use Rattle.schema_values.specs.SortedMembers.{placed};
ghost use Rattle.std.specs.Str.{encode_utf8_all};
ghost use Rattle.serde_json.specs.Data.{no_members};
ghost use Rattle.serde_json.specs.Read.{number_from, number_of, of_items, of_json, of_members, read};

use crate::json_value::{Json, Member};
use crate::list::List;
use crate::text::Text;
use fast_float::Numeral;
use json::{Invalid, Reader, Scratch, Token};
use std::alloc::{AllocError, Global};
use std::cmp::Ordering;

const MAX_DEPTH: usize = 127;

// The most members that a member passes on its way to its place.
const MOST_PASSED: usize = 64;

/// Why a text was not read in one pass.
#[derive(Clone, Copy, Debug, PartialEq, Eq)]
pub(crate) enum OnePassError {
    /// It is no JSON text, or nests too deep.
    Invalid,
    /// It has a number that is no integer of 64 bits, or a member whose name is repeated or whose place is
    /// farther back than is looked for.
    NotInOnePass,
    /// There was not enough memory.
    OutOfMemory,
}

impl From<AllocError> for OnePassError {
    ghost use Rattle.std.specs.Prelude.{◌≡◌};
    ghost use Rattle.schema_values.specs.declared.one_pass.OnePassError.TheVariants.{OutOfMemory};

    ghost from_gives = { λ _ e. e ≡ OutOfMemory };

    fn from(_: AllocError) -> OnePassError {
        OnePassError::OutOfMemory
    }
}

impl From<Invalid> for OnePassError {
    ghost use Rattle.std.specs.Prelude.{◌≡◌};
    ghost use Rattle.schema_values.specs.declared.one_pass.OnePassError.TheVariants.{Invalid as Refused};

    ghost from_gives = { λ _ e. e ≡ Refused };

    fn from(_: Invalid) -> OnePassError {
        OnePassError::Invalid
    }
}

/// The value that a text is.
pub(crate) fn read_text(
    alloc: Global,
    scratch: &mut Scratch,
    text: &str,
) -> Result<Json, OnePassError>
    ensures ok { IfOk result (λ json. option_and_then json_of (read text.now) ≡ Some json) }
    ensures err { result ≡ Err OnePassError.Invalid → read text.now ≡ None }
{
    let mut reader = Reader::new(text, scratch)?;
    let json = read_value(alloc, &mut reader, MAX_DEPTH)?;
    if reader.next().is_some() {
        return Err(OnePassError::Invalid);
    }
    Ok(json)
}

#[cycle(one_pass)]
fn read_value(alloc: Global, reader: &mut Reader<'_>, depth: usize) -> Result<Json, OnePassError>
    ensures ok { IfOk result (λ json. (j : Tree) × (value depth reader.old ≡ Some (j, reader.new))
        × (option_and_then json_of (of_json j) ≡ Some json)) }
    ensures shorter { OnOk result (length reader.new < length reader.old) }
    ensures err { result ≡ Err OnePassError.Invalid → value depth reader.old ≡ None }
{
    let token = reader.next().ok_or(OnePassError::Invalid)?;
    match token {
        Token::String(text) => Ok(Json::Text(Text::from_str(alloc, text)?)),
        Token::Number(text) => match whole_number(text) {
            Some(number) => Ok(Json::Int(number)),
            None => Err(OnePassError::NotInOnePass),
        },
        Token::Bool(truth) => Ok(Json::Bool(truth)),
        Token::Null => Ok(Json::Null),
        Token::EndObject | Token::EndArray | Token::Key(_) | Token::Bad => {
            Err(OnePassError::Invalid)
        }
        Token::BeginArray => {
            if depth == 0 {
                return Err(OnePassError::Invalid);
            }
            Ok(Json::List(read_items(alloc, reader, depth - 1)?))
        }
        Token::BeginObject => {
            if depth == 0 {
                return Err(OnePassError::Invalid);
            }
            Ok(Json::Object(read_members(alloc, reader, depth - 1)?))
        }
    }
}

#[cycle(one_pass)]
fn read_items(
    alloc: Global,
    reader: &mut Reader<'_>,
    depth: usize,
) -> Result<List<Json>, OnePassError>
    ensures ok { IfOk result (λ found. (js : TreeItems)
        × (items (value depth) (length reader.old) reader.old ≡ Some (js, reader.new))
        × (option_and_then items_of (of_items js) ≡ Some found)) }
    ensures shorter { OnOk result (length reader.new < length reader.old) }
    ensures err { result ≡ Err OnePassError.Invalid
        → items (value depth) (length reader.old) reader.old ≡ None }
{
    let mut found = List::new(alloc);
    'items: while !reader.take_end_array() {
        let item = read_value(alloc, reader, depth)?;
        found.push(item)?;
    }
    Ok(found)
}

#[cycle(one_pass)]
fn read_members(
    alloc: Global,
    reader: &mut Reader<'_>,
    depth: usize,
) -> Result<List<Member>, OnePassError>
    ensures ok { IfOk result (λ found. (ms : TreeMembers)
        × (members (value depth) (length reader.old) reader.old ≡ Some (ms, reader.new))
        × (option_and_then members_of (of_members ms no_members) ≡ Some found)) }
    ensures shorter { OnOk result (length reader.new < length reader.old) }
    ensures err { result ≡ Err OnePassError.Invalid
        → members (value depth) (length reader.old) reader.old ≡ None }
{
    let mut found = List::new(alloc);
    'members: while let Some(key) = reader.next_key()? {
        let name = name_of_key(alloc, key)?;
        let value = read_value(alloc, reader, depth)?;
        put_in_place(&mut found, Member { name, value })?;
    }
    Ok(found)
}

// Puts a member of a new name among members in order, if its place is near their end.
fn put_in_place(members: &mut List<Member>, member: Member) -> Result<(), OnePassError>
    requires { IsStrictlySortedBy (slice_cmp nat_cmp) (map name_of members.old) }
    ensures ok { OnOk result (members.new ≡ placed member members.old) }
    ensures err { result ≢ Err OnePassError.Invalid }
{
    let Some(index) = place_of(members.as_slice(), &member.name) else {
        return Err(OnePassError::NotInOnePass);
    };
    members.insert(index, member)?;
    Ok(())
}

fn name_of_key(alloc: Global, key: &str) -> Result<Text, AllocError>
    ensures bytes { IfOk result (λ name. key.now ≡ encode_utf8_all name) }
    ensures scalar { IfOk result (λ name. IsScalarText name) }
{
    Text::from_str(alloc, key)
}

// The place of a new name among members in order, if it is near their end.
fn place_of(members: &[Member], name: &Text) -> Option<usize>
    requires { IsStrictlySortedBy (slice_cmp nat_cmp) (map name_of members.now) }
    ensures within { IfSome result (λ index. index ≤ length members.now) }
    ensures placed { IfSome result (λ index. (m : MemberValue) → name_of m ≡ name.now
        → placed m members.now ≡ insert members.now index m) }
{
    let mut index = members.len();
    let least = members.len().saturating_sub(MOST_PASSED);
    while index > least {
        match members[index - 1].name.cmp(name) {
            Ordering::Less => return Some(index),
            Ordering::Equal => return None,
            Ordering::Greater => index -= 1,
        }
    }
    if index == 0 { Some(0) } else { None }
}

// The number that a number's text stands for, where it is an integer of 64 bits.
fn whole_number(text: &str) -> Option<i128>
    ensures { IfSome result (λ n. option_and_then whole_of (number_of text.now) ≡ Some n) }
{
    let bytes = text.as_bytes();
    if has_minus(bytes) {
        negative(&Numeral::scan(&bytes[1..]))
    } else {
        unsigned(&Numeral::scan(bytes))
    }
}

fn has_minus(bytes: &[u8]) -> bool
    ensures value { result ≡ (slice_index bytes.now 0 == 45) }
    ensures some { result ≡ true → 0 < length bytes.now }
{
    !bytes.is_empty() && bytes[0] == b'-'
}

fn unsigned(numeral: &Numeral<'_>) -> Option<i128>
    ensures { IfSome result (λ n. option_and_then whole_of (number_from false numeral.now) ≡ Some n) }
{
    match numeral.to_u64() {
        Some(number) => Some(i128::from(number)),
        None => None,
    }
}

fn negative(numeral: &Numeral<'_>) -> Option<i128>
    ensures { IfSome result (λ n. option_and_then whole_of (number_from true numeral.now) ≡ Some n) }
{
    match numeral.to_i64(true) {
        Some(number) if number < 0 => Some(i128::from(number)),
        _ => None,
    }
}
