//! The lines that tell an outcome, and the response where there is one, written straight into their bytes.
ghost use Rattle.std.specs.Prelude.{◌≡◌, ◌<◌, ◌≤◌, ◌+◌, ◌-◌, ◌^◌, [], ◌∷◌, ◌++◌, IfOk, OnOk, IsTrue};
ghost use Rattle.std.specs.Prelude.{List as ListOf, Some, codes, map, pos, slice_index};
ghost use Rattle.std.specs.List.{flat_map};
ghost use Rattle.hex.specs.Hex.{encode_lower, lower_digits};
ghost use Rattle.http_bodies.specs.Bodies.{calls_of, frames_of};
ghost use Rattle.http_bodies.specs.Sources.{CalledFor};
ghost use Rattle.schema_values.specs.Ascii.{all_ascii};
ghost use Rattle.schema_values.specs.Print.{comma_before, compact_of, escape, joined};
ghost use Rattle.schema_values.specs.PrintMember.{compact_member};
ghost use Rattle.schema_values.specs.declared.json_value.Json.{Json as JsonValue, Int as Number};
ghost use Rattle.schema_values.specs.declared.json_value.Json.{List as Items, Text as Words};
ghost use Rattle.schema_values.specs.declared.json_value.Member.{Member as MemberValue};
ghost use Rattle.schema_values.specs.Member.{member};
ghost use Rattle.reply_lines.specs.ReplyLines.{ArePairsOf, IsBodyMember, IsPairOf, IsShownAs};
ghost use Rattle.reply_lines.specs.ReplyLines.{Shows, TellsResponse, bytes_of_line};
ghost use Rattle.reply_lines.specs.ReplyLines.{outcome_alone, outcome_member};
ghost use Rattle.reply_lines.specs.ResponseBodies.{TakesFirst};

use crate::response_body::{ContentError, read_content};
use http::StatusCode;
use http_header::{HeaderName, HeaderValue};
use http_status::Response;
use schema_values::{List, Text, write_comma, write_name, write_quoted_str, write_text_member};
use std::alloc::{AllocError, Global};
use std::str;

// What is reserved for a line besides its body.
const HEAD_BYTES: usize = 256;

// The hexadecimal digits.
const DIGITS: &[u8; 16] = b"0123456789abcdef";

/// The line of an outcome that has no response: the bytes of a compact object whose one member, `outcome`, holds the
/// text. The text is ASCII.
pub fn outcome_line(alloc: Global, outcome: &str) -> Result<List<u8>, AllocError>
    requires { IsTrue (all_ascii outcome.now) }
    ensures { IfOk result (λ line. line ≡ bytes_of_line (outcome_alone outcome.now)) }
{
    let mut out = Text::with_capacity(alloc, HEAD_BYTES)?;
    write_outcome(outcome, &mut out)?;
    out.push('}')?;
    Ok(out.into_bytes())
}

/// The line of an outcome that has a response, whose body is read whole for it, in at most `budget` frames: the bytes
/// of a compact object that tells the outcome, the status, the header lines and the content of the body. Where a call
/// on the body fails, the line tells `reply-fault` in place of the outcome, and where the body has more frames than
/// the budget, `reply-budget`; then it tells nothing of the response. The outcome is ASCII, and the budget below
/// 2^64-1. At most one frame more than the budget is taken of the body, which, where it counts its calls, is called at
/// most as often, and not again behind its end or a call that failed; all else of the response stays.
pub fn response_line(
    alloc: Global,
    outcome: &str,
    response: &mut Response,
    budget: u64,
) -> Result<List<u8>, AllocError>
    requires ascii { IsTrue (all_ascii outcome.now) }
    requires budget { budget < 2 ^ 64 - 1 }
    ensures line { IfOk result (λ line. (json : JsonValue) × Shows budget outcome.now response.old json
        × (line ≡ bytes_of_line json)) }
    ensures taken { TakesFirst (budget + 1) response.old.body response.new.body }
    ensures calls { calls_of response.new.body ≤ calls_of response.old.body + budget + 1 }
    ensures called { CalledFor (Some (frames_of response.old.body)) (Some (frames_of response.new.body))
        (calls_of response.old.body) (calls_of response.new.body) }
    ensures status { response.new.status ≡ response.old.status }
    ensures headers { response.new.headers ≡ response.old.headers }
{
    match read_content(alloc, &mut response.body, budget) {
        Ok(content) => {
            let lines = response.headers.lines();
            whole_line(alloc, outcome, response.status, lines, content.as_slice())
        }
        Err(ContentError::BodyFault) => outcome_line(alloc, "reply-fault"),
        Err(ContentError::FrameBudget) => outcome_line(alloc, "reply-budget"),
        Err(ContentError::OutOfMemory) => Err(AllocError),
    }
}

// The line that tells an outcome, and a status, header lines and a content.
fn whole_line(
    alloc: Global,
    outcome: &str,
    status: StatusCode,
    lines: &[(HeaderName, HeaderValue)],
    content: &[u8],
) -> Result<List<u8>, AllocError>
    requires { IsTrue (all_ascii outcome.now) }
    ensures { IfOk result (λ line. (json : JsonValue)
        × TellsResponse outcome.now status lines.now content.now json × (line ≡ bytes_of_line json)) }
{
    let mut out = Text::with_capacity(alloc, content.len().saturating_add(HEAD_BYTES))?;
    write_response(outcome, status, lines, content, &mut out)?;
    Ok(out.into_bytes())
}

// The text of the line.
fn write_response(
    outcome: &str,
    status: StatusCode,
    lines: &[(HeaderName, HeaderValue)],
    content: &[u8],
    out: &mut Text,
) -> Result<(), AllocError>
    requires { IsTrue (all_ascii outcome.now) }
    ensures { OnOk result ((json : JsonValue)
        × TellsResponse outcome.now status lines.now content.now json
        × (out.new ≡ out.old ++ compact_of json)) }
{
    write_outcome(outcome, out)?;
    write_status(status, out)?;
    write_headers(lines, out)?;
    write_body(content, out)?;
    out.push('}')
}

// The brace and the member that each line begins with.
fn write_outcome(outcome: &str, out: &mut Text) -> Result<(), AllocError>
    requires { IsTrue (all_ascii outcome.now) }
    ensures { OnOk result (out.new ≡ (out.old ++ 123 ∷ [])
        ++ joined (map compact_member (outcome_member outcome.now ∷ []))) }
{
    out.push('{')?;
    write_text_member(0, "outcome", outcome, out)
}

fn write_status(status: StatusCode, out: &mut Text) -> Result<(), AllocError>
    ensures { OnOk result (out.new ≡ out.old
        ++ (comma_before 1 ++ compact_member (member (codes "status") (Number (pos status))))) }
{
    // What this call promises shows that the code has three digits.
    let _code = status.as_u16();
    write_name(1, "status", out)?;
    out.push_ascii(status.as_str())
}

fn write_headers(lines: &[(HeaderName, HeaderValue)], out: &mut Text) -> Result<(), AllocError>
    ensures { OnOk result ((pairs : ListOf JsonValue) × ArePairsOf lines.now pairs × (out.new ≡ out.old
        ++ (comma_before 2 ++ compact_member (member (codes "headers") (Items pairs))))) }
{
    write_name(2, "headers", out)?;
    out.push('[')?;
    write_pairs(lines, out)?;
    out.push(']')
}

fn write_pairs(lines: &[(HeaderName, HeaderValue)], out: &mut Text) -> Result<(), AllocError>
    ensures { OnOk result ((pairs : ListOf JsonValue) × ArePairsOf lines.now pairs
        × (out.new ≡ out.old ++ joined (map compact_of pairs))) }
{
    for (index, line) in lines.iter().enumerate() {
        write_comma(index, out)?;
        write_pair(line, out)?;
    }
    Ok(())
}

fn write_pair(line: &(HeaderName, HeaderValue), out: &mut Text) -> Result<(), AllocError>
    ensures { OnOk result ((json : JsonValue) × IsPairOf line.now json
        × (out.new ≡ out.old ++ compact_of json)) }
{
    out.push('[')?;
    write_quoted_str(line.0.as_str(), out)?;
    out.push(',')?;
    write_shown(line.1.as_bytes(), out)?;
    out.push(']')
}

// The bytes as a text, or in hexadecimal digits where they are none.
fn write_shown(bytes: &[u8], out: &mut Text) -> Result<(), AllocError>
    ensures { OnOk result ((json : JsonValue) × IsShownAs bytes.now json
        × (out.new ≡ out.old ++ compact_of json)) }
{
    match str::from_utf8(bytes) {
        Ok(text) => write_quoted_str(text, out),
        Err(_) => {
            out.push('{')?;
            write_hex(0, "hex", bytes, out)?;
            out.push('}')
        }
    }
}

fn write_body(bytes: &[u8], out: &mut Text) -> Result<(), AllocError>
    ensures { OnOk result ((m : MemberValue) × IsBodyMember bytes.now m
        × (out.new ≡ out.old ++ (comma_before 3 ++ compact_member m))) }
{
    match str::from_utf8(bytes) {
        Ok(text) => write_text_member(3, "body", text, out),
        Err(_) => write_hex(3, "body_hex", bytes, out),
    }
}

// A member whose value is the bytes in hexadecimal digits.
fn write_hex(index: usize, name: &str, bytes: &[u8], out: &mut Text) -> Result<(), AllocError>
    requires { IsTrue (all_ascii name.now) }
    ensures { OnOk result (out.new ≡ out.old
        ++ (comma_before index ++ compact_member (member name.now (Words (encode_lower bytes.now))))) }
{
    write_name(index, name, out)?;
    out.push('"')?;
    write_digits(bytes, out)?;
    out.push('"')
}

// Two digits for each byte, of which none has an escape.
fn write_digits(bytes: &[u8], out: &mut Text) -> Result<(), AllocError>
    ensures { OnOk result (out.new ≡ out.old ++ flat_map escape (encode_lower bytes.now)) }
{
    for byte in bytes {
        out.push(digit(*byte / 16))?;
        out.push(digit(*byte % 16))?;
    }
    Ok(())
}

fn digit(value: u8) -> char
    requires { value < 16 }
    ensures { result ≡ slice_index lower_digits value }
{
    char::from(DIGITS[usize::from(value)])
}
