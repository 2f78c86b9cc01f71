//! Cases of what endpoints declare: each line of the input is one, and is answered with one line.
#![tactic(auto)]

mod answers;
mod causes;
mod documents;
mod extracts;
mod limits;
mod look_ups;
mod media;
mod path_params;
mod registered;
mod streams;
mod tag_settings;
mod templates;

use crate::answers::DeclarationCases;
use case_notation::run;
use std::io;

fn main(rt: HostRuntime) -> io::Result<()> {
    run(&rt, &DeclarationCases)
}
