//! The lines of a name.
ghost use Rattle.std.specs.Prelude.{◌≡◌, map, option_map};
ghost use Rattle.request_parts.specs.Wire.{wire_line};
ghost use Rattle.request_words.specs.HeaderLines.{first_line, is_line_of, last_line};

use http_header::{HeaderName, HeaderValue};

/// The value of the first line of a name, which is compared without case (RFC 9110, section 5.1).
/// It takes no memory.
pub fn first_line<'a>(
    lines: &'a [(HeaderName, HeaderValue)],
    name: &[u8],
) -> Option<&'a HeaderValue>
    ensures { option_map (λ value. value.now.bytes) result
        ≡ first_line name.now (map wire_line lines.now) }
{
    for line in lines {
        if is_line_of(line, name) {
            return Some(&line.1);
        }
    }
    None
}

/// The value of the last line of a name, which is compared without case. It takes no memory.
pub fn last_line<'a>(lines: &'a [(HeaderName, HeaderValue)], name: &[u8]) -> Option<&'a HeaderValue>
    ensures { option_map (λ value. value.now.bytes) result
        ≡ last_line name.now (map wire_line lines.now) }
{
    let mut lines = lines;
    while let Some((line, earlier)) = lines.split_last() {
        if is_line_of(line, name) {
            return Some(&line.1);
        }
        lines = earlier;
    }
    None
}

fn is_line_of(line: &(HeaderName, HeaderValue), name: &[u8]) -> bool
    ensures { result ≡ is_line_of name.now (wire_line line.now) }
{
    let line_name = line.0.as_str();
    line_name.as_bytes().eq_ignore_ascii_case(name)
}
