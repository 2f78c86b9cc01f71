ghost use Rattle.std.specs.Prelude.{◌≡◌, ◌++◌, codes, bytes_eq, IfOk, IsTrue};
ghost use Rattle.schema_values.specs.Ascii.{all_ascii};

use crate::fault::{Fault, FaultKind};
use schema_values::Text;
use std::alloc::{AllocError, Global};

impl FaultKind {
    ghost use Rattle.typed_values.specs.Faults.{kind_text};

    /// What is wrong, without the place.
    pub fn text(&self, alloc: Global) -> Result<Text, AllocError>
        ensures { IfOk result (λ text. text ≡ kind_text self.now) }
    {
        match self {
            FaultKind::Missing(name) => quoted(alloc, "missing field `", name),
            FaultKind::Doubled(name) => quoted(alloc, "duplicate field `", name),
            FaultKind::Unknown(name) => quoted(alloc, "unknown field `", name),
            FaultKind::WrongKind => Text::from_ascii(alloc, "invalid type"),
            FaultKind::BadText(text, kind) => unparsed(alloc, text, kind),
            FaultKind::OutOfRange => Text::from_ascii(alloc, "value out of range"),
            FaultKind::BadLength => Text::from_ascii(alloc, "length out of range"),
            FaultKind::NotListed => Text::from_ascii(alloc, "unknown variant"),
            FaultKind::NoAlternative => Text::from_ascii(alloc, "no alternative fits"),
            FaultKind::NotJson => Text::from_ascii(alloc, "not JSON"),
            FaultKind::HeaderBytes => Text::from_ascii(alloc, "not a visible ASCII text"),
            FaultKind::BadLimit => Text::from_ascii(
                alloc,
                "limit must be a whole number from 1 to 4294967295",
            ),
            FaultKind::TokenTooLarge => bad_token(alloc, "too large"),
            FaultKind::TokenNotBase64 => bad_token(alloc, "not base64"),
            FaultKind::TokenCorrupted => bad_token(alloc, "corrupted token"),
            FaultKind::ContentTypeBytes => Text::from_ascii(
                alloc,
                "invalid content type: not a visible ASCII text",
            ),
            FaultKind::ContentTypeUnsupported(given) => {
                behind(alloc, "unsupported content-type: ", given)
            }
            FaultKind::ContentTypeMismatch(expected, given) => mismatched(alloc, expected, given),
        }
    }
}

impl Fault {
    ghost use Rattle.typed_values.specs.Faults.{fault_text};

    /// What is wrong, behind the path where that is not the root.
    pub fn text(&self, alloc: Global) -> Result<Text, AllocError>
        ensures { IfOk result (λ text. text ≡ fault_text self.now) }
    {
        let kind = self.kind.text(alloc)?;
        if is_root(&self.path) {
            return Ok(kind);
        }
        let mut text = self.path.copy(alloc)?;
        text.push_ascii(": ")?;
        text.push_text(&kind)?;
        Ok(text)
    }
}

fn is_root(path: &Text) -> bool
    ensures { result ≡ bytes_eq path.now (codes ".") }
{
    path.equals_str(".")
}

/// A text behind an opening.
fn behind(alloc: Global, opening: &str, text: &Text) -> Result<Text, AllocError>
    requires { IsTrue (all_ascii opening.now) }
    ensures { IfOk result (λ whole. whole ≡ opening.now ++ text.now) }
{
    let mut whole = Text::from_ascii(alloc, opening)?;
    whole.push_text(text)?;
    Ok(whole)
}

/// A name behind an opening and before a backquote.
fn quoted(alloc: Global, opening: &str, name: &Text) -> Result<Text, AllocError>
    requires { IsTrue (all_ascii opening.now) }
    ensures { IfOk result (λ text. text ≡ opening.now ++ name.now ++ codes "`") }
{
    let mut text = behind(alloc, opening, name)?;
    text.push_ascii("`")?;
    Ok(text)
}

/// A text that is no value of a kind.
fn unparsed(alloc: Global, text: &Text, kind: &Text) -> Result<Text, AllocError>
    ensures { IfOk result (λ told. told
        ≡ codes "unable to parse '" ++ text.now ++ codes "' as " ++ kind.now) }
{
    let mut told = behind(alloc, "unable to parse '", text)?;
    told.push_ascii("' as ")?;
    told.push_text(kind)?;
    Ok(told)
}

/// What is wrong with a page token.
fn bad_token(alloc: Global, cause: &str) -> Result<Text, AllocError>
    requires { IsTrue (all_ascii cause.now) }
    ensures { IfOk result (λ text. text ≡ codes "failed to parse pagination token: " ++ cause.now) }
{
    let mut text = Text::from_ascii(alloc, "failed to parse pagination token: ")?;
    text.push_ascii(cause)?;
    Ok(text)
}

/// The content type that is expected, and the one that is given.
fn mismatched(alloc: Global, expected: &Text, given: &Text) -> Result<Text, AllocError>
    ensures { IfOk result (λ text. text
        ≡ codes "expected content type \"" ++ expected.now ++ codes "\", got \"" ++ given.now ++ codes "\"") }
{
    let mut text = behind(alloc, "expected content type \"", expected)?;
    text.push_ascii("\", got \"")?;
    text.push_text(given)?;
    text.push_ascii("\"")?;
    Ok(text)
}
