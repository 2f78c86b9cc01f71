//! ASCII words, and what stands behind prefixes.

ghost use Rattle.std.specs.Prelude.{◌≡◌, IsTrue, bytes_eq, option_map};
ghost use Rattle.std.specs.Str.{chars};
ghost use Rattle.schema_values.specs.Ascii.{all_ascii};
ghost use Rattle.request_words.specs.Prefixes.{after};

use schema_values::Text;

/// Whether a text is an ASCII word.
pub fn is_word(text: &Text, word: &str) -> bool
    requires { IsTrue (all_ascii word.now) }
    ensures { result ≡ bytes_eq text.now word.now }
{
    text.equals_str(word)
}

/// Whether a string is an ASCII word.
#[tactic(auto, using(crate::proofs::WordLemmas::word_in_bytes))]
pub fn is_str_word(text: &str, word: &str) -> bool
    requires { IsTrue (all_ascii word.now) }
    ensures { result ≡ bytes_eq word.now (chars text.now) }
{
    text == word
}

/// What follows an ASCII prefix.
pub fn text_after<'a>(text: &'a Text, prefix: &str) -> Option<&'a str>
    requires { IsTrue (all_ascii prefix.now) }
    ensures { option_map (λ rest. chars rest.now) result ≡ after prefix.now text.now }
{
    str_after(text.as_str(), prefix)
}

/// What follows an ASCII prefix of a string.
pub fn str_after<'a>(text: &'a str, prefix: &str) -> Option<&'a str>
    requires { IsTrue (all_ascii prefix.now) }
    ensures { option_map (λ rest. chars rest.now) result ≡ after prefix.now (chars text.now) }
{
    text.strip_prefix(prefix)
}

/// What follows a prefix of bytes.
pub(crate) fn bytes_after<'a>(bytes: &'a [u8], prefix: &[u8]) -> Option<&'a [u8]>
    ensures { option_map (λ rest. rest.now) result ≡ after prefix.now bytes.now }
{
    bytes.strip_prefix(prefix)
}
