//! The command line: what its words ask for, the settings of a run, the status that it ends with, and lines served
//! within the settings.
#![tactic(auto)]

mod config;
mod serving;
mod words;

pub use config::{ToolConfig, ToolStatus};
pub use serving::serve_within;
pub use words::{Command, WordsError, command_of};
