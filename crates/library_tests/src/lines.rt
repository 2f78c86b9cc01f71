//! Request lines as values of a type.
use crate::points::read;
use descriptors::{Desc, Tree};
use line_types::{
    LineFrame, LineVariable, RequestLine, request_line_descriptor, request_line_tree,
};
use std::test::Fail;

// A line with a variable of each form, a header line and a frame of each form, without a target.
const LINE: &str = "{\"method\":\"PUT\",\"template\":\"/a/{b}/{c:.*}\",\"request_id\":\"r\",\
    \"variables\":{\"b\":\"x\",\"c\":[\"y\",\"z\"]},\"headers\":[[\"x-a\",\"1\"]],\
    \"frames\":[\"abc\",{\"hex\":\"6465\"}]}";

#[test]
fn a_line_is_read_with_its_variables(rt: HostRuntime) {
    match read::<RequestLine>(rt.alloc(), LINE) {
        Some(line) => {
            let mut variables = line.variables.values();
            assert!(rt; matches!(variables.next(), Some(LineVariable::Text(_))));
            assert!(rt; matches!(variables.next(), Some(LineVariable::Components(_))));
        }
        None => panic!(rt; "each member of the line is of its type"),
    }
}

#[test]
fn a_line_is_read_with_its_frames(rt: HostRuntime) {
    match read::<RequestLine>(rt.alloc(), LINE) {
        Some(line) => {
            assert_eq!(rt; line.uri.as_str(), "/");
            assert_eq!(rt; line.headers.len(), 1);
            let frames = line.frames.as_slice();
            assert!(rt; matches!(frames, [LineFrame::Text(_), LineFrame::Digits(_)]));
        }
        None => panic!(rt; "each member of the line is of its type"),
    }
}

#[test]
fn the_tree_of_a_line_has_a_place_for_each_field(rt: HostRuntime) -> Result<(), Fail> {
    let alloc = rt.alloc();
    match read::<RequestLine>(alloc, LINE) {
        Some(line) => match request_line_tree(alloc, &line)? {
            Tree::Fields(trees) => assert_eq!(rt; trees.len(), 7),
            _ => panic!(rt; "a line is a struct"),
        },
        None => panic!(rt; "each member of the line is of its type"),
    }
    Ok(())
}

#[test]
fn the_descriptor_of_lines_has_seven_fields(rt: HostRuntime) -> Result<(), Fail> {
    match request_line_descriptor(rt.alloc())? {
        Desc::Struct { fields, .. } => assert_eq!(rt; fields.len(), 7),
        _ => panic!(rt; "a line is a struct"),
    }
    Ok(())
}
