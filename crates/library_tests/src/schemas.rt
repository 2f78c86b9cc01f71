//! Lists and texts, numbers that no text is read as, copies of requests, and the texts of want of
//! memory.
use openapi_values::{J2oasError, WireRequest};
use schema_util::Schema2StructError;
use schema_values::{Json, List, ReadError, Text, ValueError, VariableValue};
use std::alloc::{AllocError, Global};
use std::collections::BTreeMap;
use std::test::Fail;

#[test]
fn lists_and_texts_show_what_they_hold(rt: HostRuntime) -> Result<(), Fail> {
    let alloc = rt.alloc();
    let bytes = List::from_bytes(alloc, b"abc")?;
    assert_eq!(rt; bytes.get(2).copied(), Some(b'c'));
    assert!(rt; bytes.get(3).is_none() && !bytes.is_empty());
    let text = Text::from_str(alloc, "né\"")?;
    let shown = format!(in alloc; "{text} {text:?} {bytes:?}")?;
    assert_eq!(rt; shown.as_str(), "né\" \"né\\\"\" [97, 98, 99]");
    assert_eq!(rt; text.as_bytes().len(), 4);
    Ok(())
}

#[test]
fn a_number_of_65_bits_is_not_sound(rt: HostRuntime) {
    assert!(rt; !Json::Int(1 << 64).sound());
}

#[test]
fn want_of_memory_has_a_text(rt: HostRuntime) -> Result<(), Fail> {
    let alloc = rt.alloc();
    for shown in [
        format!(in alloc; "{}", ReadError::OutOfMemory)?,
        format!(in alloc; "{}", ValueError::OutOfMemory)?,
        format!(in alloc; "{}", J2oasError::OutOfMemory)?,
        format!(in alloc; "{}", Schema2StructError::OutOfMemory)?,
    ] {
        assert_eq!(rt; shown.as_str(), "out of memory");
    }
    Ok(())
}

fn request(alloc: Global) -> Result<WireRequest, AllocError> {
    let mut variables = BTreeMap::new(alloc);
    for name in ["id", "other"] {
        let value = VariableValue::String(Text::from_str(alloc, "7")?);
        variables.insert(Text::from_str(alloc, name)?, value)?;
    }
    Ok(WireRequest {
        variables,
        query: Text::from_str(alloc, "after=1")?,
        headers: List::new(alloc),
        body: List::from_bytes(alloc, b"a")?,
    })
}

#[test]
fn a_copy_of_a_request_has_its_parts(rt: HostRuntime) -> Result<(), Fail> {
    let copy = request(rt.alloc())?.copy(rt.alloc())?;
    assert_eq!(rt; copy.variables.len(), 2);
    assert!(rt; copy.query.equals_str("after=1"));
    assert!(rt; copy.headers.is_empty() && copy.body.len() == 1);
    Ok(())
}
