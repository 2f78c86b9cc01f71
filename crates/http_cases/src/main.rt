//! Cases of what requests and replies are made of: each line of the input is one, and is answered
//! with one line.
#![tactic(auto)]

mod answers;
mod bodies;
mod error_bodies;
mod errors;
mod field_names;
mod line_lists;
mod lines;
mod maps;
mod named_types;
mod page_types;
mod pages;
mod ranges;
mod reading;
mod sample;
mod single;
mod tokens;
mod trees;

use crate::answers::HttpCases;
use case_notation::run;
use std::io;

fn main(rt: HostRuntime) -> io::Result<()> {
    run(&rt, &HttpCases)
}
