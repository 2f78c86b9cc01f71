//! The settings of a run, and how it ends.
ghost use Rattle.std.specs.Prelude.{◌≡◌, IfOk, IsOk};
ghost use Rattle.api_registration.specs.declared.error.ApiDescriptionRegisterError.{
  ApiDescriptionRegisterError as RegisterError,
};
ghost use Rattle.command_line.specs.Statuses.{code_of};

use api_registration::ApiDescriptionRegisterError;
use line_session::SessionEnd;
use request_parts::ServerConfig;
use schema_values::Text;
use std::alloc::{AllocError, Global};
use std::fmt;

// How the program is called.
const USAGE: &str =
    "usage: contract-tool session VERSION < REQUEST-LINES, or contract-tool document VERSION";

/// The title of documents, and the limits of a run.
#[derive(Drop)]
pub struct ToolConfig {
    /// The title of documents.
    pub title: Text,
    /// The limits of the server.
    pub server: ServerConfig,
    /// The most frames of a body; below 2^64-1.
    pub frame_budget: u64,
    /// The most bytes of a line, without its newline; below 2^64-1.
    pub longest_line: u64,
    /// The most bytes of the whole input; below 2^64-1.
    pub most_input: u64,
}

impl ToolConfig {
    /// A configuration equal to this one.
    pub fn copy(&self, alloc: Global) -> Result<ToolConfig, AllocError>
        ensures { IfOk result (λ copy. copy ≡ self.now) }
    {
        Ok(ToolConfig {
            title: self.title.copy(alloc)?,
            server: self.server,
            frame_budget: self.frame_budget,
            longest_line: self.longest_line,
            most_input: self.most_input,
        })
    }
}

/// How a run ended.
#[derive(Drop)]
pub enum ToolStatus {
    /// All was done: the input was read to its end and every line answered, or the document alone was written.
    Done,
    /// The words are no command. Nothing was read or written.
    Usage,
    /// An endpoint in turn may not be registered. Nothing was read or written.
    Refused(ApiDescriptionRegisterError),
    /// The source failed.
    ReadFault,
    /// The sink failed.
    WriteFault,
    /// A line got this many bytes, one more than may be.
    LineTooLong(u64),
    /// Memory ran out.
    OutOfMemory,
    /// The input has this many bytes at least, one more than may be.
    TooMuchInput(u64),
}

impl From<SessionEnd> for ToolStatus {
    ghost use Rattle.std.specs.Prelude.{◌≡◌};
    ghost use Rattle.command_line.specs.Statuses.{status_of};

    ghost from_gives = { λ end status. status ≡ status_of end };

    fn from(end: SessionEnd) -> ToolStatus {
        match end {
            SessionEnd::Done => ToolStatus::Done,
            SessionEnd::ReadFault => ToolStatus::ReadFault,
            SessionEnd::WriteFault => ToolStatus::WriteFault,
            SessionEnd::LineTooLong(bytes) => ToolStatus::LineTooLong(bytes),
            SessionEnd::TooMuchInput(bytes) => ToolStatus::TooMuchInput(bytes),
            SessionEnd::OutOfMemory => ToolStatus::OutOfMemory,
        }
    }
}

impl ToolStatus {
    /// A status equal to this one. Fails only for want of memory, which none takes but `Refused`.
    pub fn copy(&self, alloc: Global) -> Result<ToolStatus, AllocError>
        ensures copy { IfOk result (λ copy. copy ≡ self.now) }
        ensures plain { ((error : RegisterError) → ¬ (self.now ≡ ToolStatus.Refused error))
            → IsOk result }
    {
        match self {
            ToolStatus::Done => Ok(ToolStatus::Done),
            ToolStatus::Usage => Ok(ToolStatus::Usage),
            ToolStatus::Refused(error) => Ok(ToolStatus::Refused(error.copy(alloc)?)),
            ToolStatus::ReadFault => Ok(ToolStatus::ReadFault),
            ToolStatus::WriteFault => Ok(ToolStatus::WriteFault),
            ToolStatus::LineTooLong(bytes) => Ok(ToolStatus::LineTooLong(*bytes)),
            ToolStatus::OutOfMemory => Ok(ToolStatus::OutOfMemory),
            ToolStatus::TooMuchInput(bytes) => Ok(ToolStatus::TooMuchInput(*bytes)),
        }
    }

    /// The number that the program ends with.
    pub fn code(&self) -> u8
        ensures { result ≡ code_of self.now }
    {
        match self {
            ToolStatus::Done => 0,
            ToolStatus::Usage => 2,
            ToolStatus::Refused(_) => 3,
            ToolStatus::ReadFault => 4,
            ToolStatus::WriteFault => 5,
            ToolStatus::LineTooLong(_) => 6,
            ToolStatus::OutOfMemory => 7,
            ToolStatus::TooMuchInput(_) => 8,
        }
    }
}

/// Writes why the run ended so; nothing where it did all.
impl fmt::Display for ToolStatus {
    ghost use Rattle.std.specs.Prelude.{Some};
    ghost use Rattle.command_line.specs.Statuses.{status_text};

    ghost output = { λ status. Some (status_text status) };

    fn fmt<W: fmt::Write>(&self, f: &mut fmt::Formatter<W>) -> fmt::Result {
        match self {
            ToolStatus::Done => Ok(()),
            ToolStatus::Usage => f.write_str(USAGE),
            ToolStatus::Refused(error) => write!(f, "{}", error),
            ToolStatus::ReadFault => f.write_str("the input could not be read"),
            ToolStatus::WriteFault => f.write_str("the output could not be written"),
            ToolStatus::LineTooLong(_) => f.write_str("a line is too long"),
            ToolStatus::OutOfMemory => f.write_str("out of memory"),
            ToolStatus::TooMuchInput(_) => f.write_str("there is too much input"),
        }
    }
}
