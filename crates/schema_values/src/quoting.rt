//! Texts between quotation marks (RFC 8259, section 7), written run by run.
ghost use Rattle.std.specs.Prelude.{ℕ, ◌≡◌, ◌<◌, ◌≤◌, ◌↔◌, ◌++◌, OnErr, OnOk, IsTrue, length, get_or};
ghost use Rattle.std.specs.Io.{StartsWith};
ghost use Rattle.std.specs.List.{flat_map};
ghost use Rattle.std.specs.Str.{chars};
ghost use Rattle.schema_values.specs.Print.{escape, hex_digit, quoted};
ghost use Rattle.schema_values.specs.Quoting.{IsUnescaped};

use crate::text::Text;
use std::alloc::AllocError;

/// Puts a text between quotation marks at the end of another, with its escapes.
pub fn write_quoted(text: &Text, out: &mut Text) -> Result<(), AllocError>
    ensures ok { OnOk result (out.new ≡ out.old ++ quoted text.now) }
    ensures err { OnErr result (StartsWith out.new out.old) }
{
    write_quoted_str(text.as_str(), out)
}

/// Puts the characters of a `&str` between quotation marks at the end of a text, with their escapes.
pub fn write_quoted_str(text: &str, out: &mut Text) -> Result<(), AllocError>
    ensures ok { OnOk result (out.new ≡ out.old ++ quoted (chars text.now)) }
    ensures err { OnErr result (StartsWith out.new out.old) }
{
    out.push('"')?;
    write_characters(text, out)?;
    out.push('"')
}

fn write_characters(text: &str, out: &mut Text) -> Result<(), AllocError>
    ensures ok { OnOk result (out.new ≡ out.old ++ flat_map escape (chars text.now)) }
    ensures err { OnErr result (StartsWith out.new out.old) }
{
    let mut from = 0;
    loop {
        let at = end_of_run(text.as_bytes(), from);
        out.push_str(&text[from..at])?;
        if at == text.len() {
            return Ok(());
        }
        write_escaped(char::from(text.as_bytes()[at]), out)?;
        from = at + 1;
    }
}

// The first byte from a place on that has an escape, or the end.
fn end_of_run(bytes: &[u8], from: usize) -> usize
    requires { from ≤ length bytes.now }
    ensures from { from ≤ result }
    ensures within { result ≤ length bytes.now }
    ensures unescaped { (k : ℕ) → from ≤ k → k < result → IsUnescaped (get_or bytes.now k 0) }
    ensures marked { result < length bytes.now → ¬ IsUnescaped (get_or bytes.now result 0) }
{
    let mut at = from;
    while at < bytes.len() && is_unescaped(bytes[at]) {
        at += 1;
    }
    at
}

fn is_unescaped(byte: u8) -> bool
    ensures { IsTrue result ↔ IsUnescaped byte }
{
    byte >= 32 && byte != 34 && byte != 92
}

#[tactic(auto, unfolding(crate::specs::Print::escape))]
fn write_escaped(character: char, out: &mut Text) -> Result<(), AllocError>
    ensures ok { OnOk result (out.new ≡ out.old ++ escape character) }
    ensures err { OnErr result (StartsWith out.new out.old) }
{
    match character {
        '"' => out.push_ascii("\\\""),
        '\\' => out.push_ascii("\\\\"),
        '\u{8}' => out.push_ascii("\\b"),
        '\t' => out.push_ascii("\\t"),
        '\n' => out.push_ascii("\\n"),
        '\u{c}' => out.push_ascii("\\f"),
        '\r' => out.push_ascii("\\r"),
        '\0'..='\u{1f}' => {
            out.push_ascii("\\u00")?;
            out.push(hex_digit_of(u32::from(character) / 16))?;
            out.push(hex_digit_of(u32::from(character) % 16))
        }
        _ => out.push(character),
    }
}

fn hex_digit_of(digit: u32) -> char
    requires { digit < 16 }
    ensures { result ≡ hex_digit digit }
{
    match char::from_digit(digit, 16) {
        Some(character) => character,
        None => unreachable!(),
    }
}
