//! Cases of values: each line of the input is one, and is answered with one line.
#![tactic(auto)]

mod answers;
mod case;
mod faults;
mod printed;
mod refusals;
mod schemas;
mod statuses;
mod stores;
mod tables;
mod texts;
mod types;
mod values;

use crate::answers::ValueCases;
use case_notation::run;
use std::io;

fn main(rt: HostRuntime) -> io::Result<()> {
    run(&rt, &ValueCases)
}
