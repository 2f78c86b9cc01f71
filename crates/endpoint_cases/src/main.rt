//! Cases of endpoints: how they are made and registered, the documents of an API, what comes of requests, and runs of
//! the tool. Each line of the input is a case, and is answered with one line.
#![tactic(auto)]

mod admission;
mod answers;
mod apis;
mod calls;
mod documents;
mod exchanges;
mod handler;
mod information;
mod limits;
mod making;
mod members;
mod outcomes;
mod own_source;
mod parts;
mod registering;
mod responses;
mod runs;
mod said;
mod serving;
mod shapes;
mod shipped;
mod sources;
mod stores;
mod streams;

use crate::answers::EndpointCases;
use case_notation::run;
use std::io;

fn main(rt: HostRuntime) -> io::Result<()> {
    run(&rt, &EndpointCases)
}
