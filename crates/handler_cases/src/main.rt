//! Cases of handlers: what is said of their slots, which endpoint a request is for, the typed
//! arguments of requests, and the responses of replies. Each line of the input is a case, and is
//! answered with one line.
#![tactic(auto)]

mod answers;
mod arguments;
mod content;
mod contexts;
mod errors;
mod handler;
mod look_ups;
mod metadata;
mod outcomes;
mod paged;
mod pieces;
mod replies;
mod schemas;
mod told;
mod tuples;
mod types;

use crate::answers::HandlerCases;
use case_notation::run;
use std::io;

fn main(rt: HostRuntime) -> io::Result<()> {
    run(&rt, &HandlerCases)
}
