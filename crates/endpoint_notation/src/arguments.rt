//! Arguments of slots, as cases note them: a tree, bytes, or what so many calls on a stream give.
use crate::streams::{bytes_noted, data_told};
use body_reading::StreamingBody;
use case_notation::{CaseError, Row, labelled, tree_noted};
use handler_shapes::{Arg, ArgList};
use schema_values::Json;
use std::alloc::Global;

/// What is told of arguments.
pub fn args_told(alloc: Global, args: ArgList, calls: u64) -> Result<Json, CaseError> {
    let mut told = Row::new(alloc);
    for arg in args.into_vec() {
        told.push(arg_told(alloc, arg, calls));
    }
    told.done()
}

/// What is told of an argument.
pub fn arg_told(alloc: Global, arg: Arg, calls: u64) -> Result<Json, CaseError> {
    match arg {
        Arg::Tree(tree) => labelled(alloc, "tree", tree_noted(alloc, &tree)),
        Arg::Raw(bytes) => labelled(alloc, "raw", bytes_noted(alloc, bytes.as_slice())),
        Arg::Stream(mut stream) => stream_told(alloc, &mut stream, calls),
    }
}

fn stream_told(alloc: Global, stream: &mut StreamingBody, calls: u64) -> Result<Json, CaseError> {
    labelled(alloc, "stream", data_told(alloc, stream, calls))
}
