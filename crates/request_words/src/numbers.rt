// The numbers that texts write.
ghost use Rattle.std.specs.Prelude.{◌≡◌, ◌≤◌, ◌^◌, IfSome, option_map};
ghost use Rattle.std.specs.Str.{chars};
ghost use Rattle.request_words.specs.CutNumbers.{cut, cut_number_of};
ghost use Rattle.request_words.specs.Numbers.{digits_number, has_minus, without_sign};

use crate::words::str_after;

// The greatest size that is told: 2^64, which is beyond all numbers of 64 bits.
const MOST: u128 = 0x1_0000_0000_0000_0000;

/// The number of an optional sign and digits. A size beyond 2^64 is told as 2^64.
pub fn cut_number(text: &str) -> Option<i128>
    ensures { result ≡ cut_number_of (chars text.now) }
{
    let size = size_of_digits(without_sign(text))? as i128;
    if has_minus(text) {
        Some(-size)
    } else {
        Some(size)
    }
}

/// Whether a text begins with a minus.
pub fn has_minus(text: &str) -> bool
    ensures { result ≡ has_minus (chars text.now) }
{
    str_after(text, "-").is_some()
}

fn without_sign(text: &str) -> &str
    ensures { chars result.now ≡ without_sign (chars text.now) }
{
    match str_after(text, "-") {
        Some(digits) => digits,
        None => match str_after(text, "+") {
            Some(digits) => digits,
            None => text,
        },
    }
}

// The number of one or more digits, cut at 2^64.
fn size_of_digits(digits: &str) -> Option<u128>
    ensures size { result ≡ option_map cut (digits_number (chars digits.now)) }
    ensures bound { IfSome result (λ size. size ≤ 2 ^ 64) }
{
    size_of_bytes(digits.as_bytes())
}

#[tactic(auto, using(crate::proofs::DigitLemmas::digit_beyond))]
fn size_of_bytes(digits: &[u8]) -> Option<u128>
    ensures size { result ≡ option_map cut (digits_number digits.now) }
    ensures bound { IfSome result (λ size. size ≤ 2 ^ 64) }
{
    if digits.is_empty() {
        return None;
    }
    let mut digits = digits;
    let mut size = 0;
    while let Some((byte, later)) = digits.split_first() {
        if !byte.is_ascii_digit() {
            return None;
        }
        let more = size * 10 + (*byte - b'0') as u128;
        size = if more < MOST { more } else { MOST };
        digits = later;
    }
    Some(size)
}
