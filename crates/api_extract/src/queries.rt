// The pairs of a query.
ghost use Rattle.std.specs.Prelude.{◌≡◌, ◌++◌, [], ◌∷◌, IfOk, IsTrue, MatchOption};
ghost use Rattle.schema_values.specs.Ascii.{all_ascii};
ghost use Rattle.request_parts.specs.Wire.{query_text};
ghost use Rattle.request_words.specs.Pairs.{query_pairs, values_of};

use request_parts::RequestParts;
use request_words::{NamedText, form_pairs, is_word};
use schema_values::List;
use std::alloc::{AllocError, Global};

/// The pairs of the query of a request.
pub(crate) fn pairs_of(alloc: Global, request: &RequestParts) -> Result<List<NamedText>, AllocError>
    ensures { IfOk result (λ pairs. pairs ≡ query_pairs (query_text request.now.info.uri)) }
{
    let query = request.info.uri().query().unwrap_or("");
    form_pairs(alloc, query.as_bytes())
}

/// The last pair whose name is an ASCII word, and the pairs before it.
pub(crate) fn last_named<'a>(
    pairs: &'a [NamedText],
    name: &str,
) -> Option<(&'a NamedText, &'a [NamedText])>
    requires { IsTrue (all_ascii name.now) }
    ensures { MatchOption result (values_of name.now pairs.now ≡ []) (λ found.
        values_of name.now pairs.now
        ≡ values_of name.now found.1.now ++ found.0.now.value ∷ []) }
{
    let mut pairs = pairs;
    while let Some((pair, earlier)) = pairs.split_last() {
        if is_word(&pair.name, name) {
            return Some((pair, earlier));
        }
        pairs = earlier;
    }
    None
}
