//! What a copy holds that no program of cases tells.
use api_versions::{ClientSpecifiesVersionInHeader, DynamicVersionPolicy};
use body_reading::StreamRefusal;
use flat_maps::MapError;
use header_lists::HeaderList;
use http_bodies::{DumpError, Frame, MemoryFrames, SafeFrames, http_dump_body};
use http_header::{HeaderName, HeaderValue};
use http_status::{HttpError, HttpRefusal};
use page_tokens::TokenError;
use schema_values::{List, Text};
use semver::Version;
use std::alloc::{AllocError, Global};
use std::test::Fail;

// An error of status 400 with this message.
fn bad_request(alloc: Global) -> Result<HttpError, AllocError> {
    HttpError::for_bad_request(alloc, None, Text::from_ascii(alloc, "no")?)
}

#[test]
fn a_refusal_and_its_copy_are_told_alike(rt: HostRuntime) -> Result<(), Fail> {
    let alloc = rt.alloc();
    let copy = HttpRefusal::Http(bad_request(alloc)?).copy(alloc)?;
    assert!(rt; matches!(copy, HttpRefusal::Http(_)));
    Ok(())
}

#[test]
fn a_closed_reader_and_its_copy_are_told_alike(rt: HostRuntime) -> Result<(), Fail> {
    let copy = StreamRefusal::Closed.copy(rt.alloc())?;
    assert!(rt; matches!(copy, StreamRefusal::Closed));
    Ok(())
}

#[test]
fn a_token_error_and_its_copy_are_the_same(rt: HostRuntime) -> Result<(), Fail> {
    let error = TokenError::TooLarge(516);
    assert_eq!(rt; error.copy(rt.alloc())?, TokenError::TooLarge(516));
    Ok(())
}

#[test]
fn a_map_error_and_its_copy_are_told_alike(rt: HostRuntime) -> Result<(), Fail> {
    let alloc = rt.alloc();
    match MapError::Refused(Text::from_ascii(alloc, "no")?).copy(alloc)? {
        MapError::Refused(text) => assert!(rt; text.equals_str("no")),
        MapError::OutOfMemory => assert!(rt; false),
    }
    Ok(())
}

// One frame of two bytes.
fn two_bytes(alloc: Global) -> Result<List<Frame>, AllocError> {
    let mut frames = List::new(alloc);
    frames.push(Frame::Bytes(List::from_bytes(alloc, b"ab")?))?;
    Ok(frames)
}

#[test]
fn a_source_and_its_copy_give_the_same(rt: HostRuntime) -> Result<(), Fail> {
    let alloc = rt.alloc();
    let mut source = SafeFrames::new(two_bytes(alloc)?);
    let mut copy = source.copy(alloc)?;
    assert_eq!(rt; http_dump_body(alloc, &mut source, 2), Ok(2));
    assert_eq!(rt; http_dump_body(alloc, &mut copy, 2), Ok(2));
    let mut failing = List::new(alloc);
    failing.push(1)?;
    let source = MemoryFrames::new(two_bytes(alloc)?, failing);
    let mut copy = source.copy(alloc)?;
    assert_eq!(rt; http_dump_body(alloc, &mut copy, 2), Err(DumpError::Failed));
    Ok(())
}

#[test]
fn a_policy_and_its_copy_read_the_same_header(rt: HostRuntime) -> Result<(), Fail> {
    let alloc = rt.alloc();
    let name = HeaderName::from_static("x-version");
    let policy = ClientSpecifiesVersionInHeader::new(name, Version::new(2, 0, 0));
    let copy = policy.copy(alloc)?;
    let mut lines = HeaderList::new(alloc);
    let name = HeaderName::from_static("x-version");
    lines.append(name, HeaderValue::from_static("1.2.3"))?;
    match copy.request_extract_version(alloc, &lines) {
        Ok(version) => assert!(rt; version == Version::new(1, 2, 3)),
        Err(_) => assert!(rt; false),
    }
    Ok(())
}
