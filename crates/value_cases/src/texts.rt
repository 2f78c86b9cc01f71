//! Calls that decode texts, pairs and maps of texts, and that tell pairs.
use crate::values::decoded_told;
use case_notation::{CaseError, Row, Scope, both, given, given_text, map_of, say, scope_of};
use flat_maps::{Repeats, decode_map, decode_pairs, decode_text};
use request_words::{NamedText, query_pairs};
use schema_values::Json;
use std::alloc::Global;

/// The tree that the text of a case denotes, or the fault that is told.
pub fn text_decoded(alloc: Global, case: &Json) -> Result<Json, CaseError> {
    let text = given_text(case, "text")?;
    let Scope { table, desc } = scope_of(alloc, case)?;
    decoded_told(alloc, decode_text(alloc, &table, &desc, text.as_str()))
}

/// The pairs of the query of a case, each a name and a text.
pub fn pairs_told(alloc: Global, case: &Json) -> Result<Json, CaseError> {
    let pairs = query_pairs(alloc, given_text(case, "query")?)?;
    let mut told = Row::new(alloc);
    for pair in pairs.as_slice() {
        told.push(pair_told(alloc, pair));
    }
    told.done()
}

fn pair_told(alloc: Global, pair: &NamedText) -> Result<Json, CaseError> {
    let name = say(alloc, pair.name.as_str());
    both(alloc, name, say(alloc, pair.value.as_str()))
}

/// The tree that the pairs of the query of a case denote, or the fault that is told.
pub fn pairs_decoded(alloc: Global, case: &Json) -> Result<Json, CaseError> {
    let repeats = repeats_of(given_text(case, "repeats")?.as_str())?;
    let pairs = query_pairs(alloc, given_text(case, "query")?)?;
    let Scope { table, desc } = scope_of(alloc, case)?;
    decoded_told(alloc, decode_pairs(alloc, &table, &desc, &pairs, repeats))
}

fn repeats_of(word: &str) -> Result<Repeats, CaseError> {
    match word {
        "refuse" => Ok(Repeats::Refuse),
        "last" => Ok(Repeats::Last),
        _ => Err(CaseError::Expected("refuse or last")),
    }
}

/// The tree that the map of a case denotes, or the fault that is told.
pub fn map_decoded(alloc: Global, case: &Json) -> Result<Json, CaseError> {
    let map = map_of(alloc, given(case, "map")?)?;
    let Scope { table, desc } = scope_of(alloc, case)?;
    decoded_told(alloc, decode_map(alloc, &table, &desc, &map))
}
