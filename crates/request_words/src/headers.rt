//! Header lines, and the bytes of their values.

ghost use Rattle.std.specs.Prelude.{◌≡◌, option_map};
ghost use Rattle.std.specs.Str.{chars};
ghost use Rattle.request_words.specs.HeaderLines.{is_line_of, first_line, last_line, is_shown, all_shown};
ghost use Rattle.request_words.specs.HeaderLines.{shown_text};

use crate::request::HeaderLine;
use std::str;

/// The value of the first line of a name, which is compared without case.
pub fn first_line<'a>(lines: &'a [HeaderLine], name: &[u8]) -> Option<&'a [u8]>
    ensures { option_map (λ value. value.now) result ≡ first_line name.now lines.now }
{
    for line in lines {
        if is_line_of(line, name) {
            return Some(line.value.as_slice());
        }
    }
    None
}

/// The value of the last line of a name, which is compared without case.
pub fn last_line<'a>(lines: &'a [HeaderLine], name: &[u8]) -> Option<&'a [u8]>
    ensures { option_map (λ value. value.now) result ≡ last_line name.now lines.now }
{
    let mut lines = lines;
    while let Some((line, earlier)) = lines.split_last() {
        if is_line_of(line, name) {
            return Some(line.value.as_slice());
        }
        lines = earlier;
    }
    None
}

fn is_line_of(line: &HeaderLine, name: &[u8]) -> bool
    ensures { result ≡ is_line_of name.now line.now }
{
    line.name.as_bytes().eq_ignore_ascii_case(name)
}

/// Whether each byte of a value is a visible ASCII character, a space or a tab.
pub fn all_shown(value: &[u8]) -> bool
    ensures { result ≡ all_shown value.now }
{
    for byte in value {
        if !is_shown(*byte) {
            return false;
        }
    }
    true
}

fn is_shown(byte: u8) -> bool
    ensures { result ≡ is_shown byte }
{
    b' ' <= byte && byte <= b'~' || byte == b'\t'
}

/// A value as a text, where each of its bytes is shown; they are its characters.
pub fn shown_text(value: &[u8]) -> Option<&str>
    ensures { option_map (λ text. chars text.now) result ≡ shown_text value.now }
{
    if all_shown(value) {
        str::from_utf8(value).ok()
    } else {
        None
    }
}
