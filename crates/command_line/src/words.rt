//! The words of a command line.
ghost use Rattle.std.specs.Prelude.{◌≡◌, ◌≢◌, ◌↔◌, Ok, IfOk, IsErrOf, IsOk};
ghost use Rattle.semver.specs.Identifiers.{parts_of};
ghost use Rattle.semver.specs.Parse.{Parts, version_parts};
ghost use Rattle.command_line.specs.Words.{IsCommand, IsCommandOf, IsNormalCommand, IsNormalVersion};

use semver::Version;
use std::alloc::{AllocError, Global};

/// What the words of a command line ask for.
#[derive(Drop)]
pub enum Command {
    /// A session at a version.
    Session(Version),
    /// The document of a version alone.
    Document(Version),
}

/// Why no command was made of the words of a command line.
#[derive(Clone, Copy, Debug, PartialEq, Eq)]
pub enum WordsError {
    /// They are none.
    Usage,
    /// There was not enough memory.
    OutOfMemory,
}

impl From<semver::Error> for WordsError {
    ghost use Rattle.std.specs.Prelude.{◌≡◌, ◌≢◌, ◌↔◌};
    ghost use Rattle.semver.specs.Parse.{memory_error};
    ghost use Rattle.command_line.specs.declared.words.WordsError.TheVariants.{Usage};

    ghost from_gives = { λ error made. made ≡ Usage ↔ (error ≢ memory_error) };

    fn from(error: semver::Error) -> WordsError {
        if error == semver::Error::from(AllocError) {
            WordsError::OutOfMemory
        } else {
            WordsError::Usage
        }
    }
}

/// What the words of a command line ask for: they are `session` or `document`, and behind it a version by Semantic
/// Versioning 2.0.0. `Usage` is told exactly of words that are no such command. A normal version, without a
/// prerelease and without build metadata, takes no memory.
pub fn command_of(alloc: Global, words: &[String]) -> Result<Command, WordsError>
    ensures command { IfOk result (IsCommandOf words.now) }
    ensures usage { IsErrOf result WordsError.Usage ↔ ¬ IsCommand words.now }
    ensures normal { IsNormalCommand words.now → IsOk result }
{
    match words {
        [word, version] if word.as_str() == "session" => {
            Ok(Command::Session(parse_version(alloc, version.as_str())?))
        }
        [word, version] if word.as_str() == "document" => {
            Ok(Command::Document(parse_version(alloc, version.as_str())?))
        }
        _ => Err(WordsError::Usage),
    }
}

fn parse_version(alloc: Global, text: &str) -> Result<Version, WordsError>
    ensures version { IfOk result (λ version. version_parts text.now ≡ Ok (parts_of version)) }
    ensures usage { IsErrOf result WordsError.Usage ↔ ((parts : Parts) → version_parts text.now ≢ Ok parts) }
    ensures normal { (parts : Parts) → version_parts text.now ≡ Ok parts → IsNormalVersion parts → IsOk result }
{
    Ok(Version::parse(alloc, text)?)
}
