//! What an operation that answers in pages asks of a query besides its parameters.

ghost use Rattle.std.specs.Prelude.{◌≡◌, IsTrue, bytes_eq, option_map};
ghost use Rattle.std.specs.List.{list_all, list_any};
ghost use Rattle.schema_values.specs.Ascii.{all_ascii};
ghost use Rattle.openapi_values.specs.Pages.{pages_hold, listed_if_there, name_stands, required_stand};
ghost use Rattle.openapi_values.specs.Options.{is_some_and};
ghost use Rattle.openapi_values.specs.RequestParameters.{text_of, is_query_named};

use crate::members::text_of;
use crate::query::Query;
use request_words::{SortedPairs, has_pair, is_word};
use schema_values::Json;

/// Whether `limit` and `page_token` are listed where they stand, and whether for the first page each required
/// name stands.
pub(crate) fn pages_hold(query: &Query, parameters: &[Json], required: Option<&Json>) -> bool
    ensures { result ≡ pages_hold (λ name. list_any (is_query_named name) parameters.now)
        (required_stand query.now.pairs.now.pairs.now (option_map (λ json. json.now) required.entry))
        query.now.pairs.now.pairs.now }
{
    listed_if_there(query.pairs, parameters, "limit")
        && listed_if_there(query.pairs, parameters, "page_token")
        && (query.later_page || required_stand(query.pairs, required))
}

// A name that stands is listed.
fn listed_if_there(pairs: &SortedPairs, parameters: &[Json], name: &str) -> bool
    requires { IsTrue (all_ascii name.now) }
    ensures { result ≡ listed_if_there (λ name. list_any (is_query_named name) parameters.now)
        pairs.now.pairs.now name.now }
{
    lists_query(parameters, name) || !has_pair(pairs.pairs, name)
}

// Whether parameters list a name of the query.
fn lists_query(parameters: &[Json], name: &str) -> bool
    requires { IsTrue (all_ascii name.now) }
    ensures { result ≡ list_any (is_query_named name.now) parameters.now }
{
    for parameter in parameters {
        if is_query_named(parameter, name) {
            return true;
        }
    }
    false
}

fn is_query_named(parameter: &Json, name: &str) -> bool
    requires { IsTrue (all_ascii name.now) }
    ensures { result ≡ is_query_named name.now parameter.now }
{
    is_text_at(parameter, "in", "query") && is_text_at(parameter, "name", name)
}

// Whether a member is the text of a word.
fn is_text_at(json: &Json, member: &str, word: &str) -> bool
    requires member { IsTrue (all_ascii member.now) }
    requires word { IsTrue (all_ascii word.now) }
    ensures { result ≡ is_some_and (text_of member.now json.now) (λ text. bytes_eq text word.now) }
{
    match text_of(json, member) {
        Some(text) => is_word(text, word),
        None => false,
    }
}

/// Whether each of some names stands, where there is a list of them.
pub(crate) fn required_stand(pairs: &SortedPairs, names: Option<&Json>) -> bool
    ensures { result ≡ required_stand pairs.now.pairs.now (option_map (λ json. json.now) names.entry) }
{
    match names {
        Some(Json::List(names)) => names_stand(pairs, names.as_slice()),
        Some(_) => false,
        None => true,
    }
}

fn names_stand(pairs: &SortedPairs, names: &[Json]) -> bool
    ensures { result ≡ list_all (name_stands pairs.now.pairs.now) names.now }
{
    for name in names {
        if !name_stands(pairs, name) {
            return false;
        }
    }
    true
}

fn name_stands(pairs: &SortedPairs, name: &Json) -> bool
    ensures { result ≡ name_stands pairs.now.pairs.now name.now }
{
    match name {
        Json::Text(name) => pairs.has_pair(name),
        _ => false,
    }
}
