//! The query of a request, as an operation reads it.

ghost use Rattle.std.specs.Prelude.{◌≡◌, false, map};
ghost use Rattle.schema_values.specs.Sound.{IsSound};
ghost use Rattle.openapi_values.specs.Pages.{has_token, page_query_holds, query_rule};
ghost use Rattle.openapi_values.specs.RequestParameters.{values_hold};
ghost use Rattle.openapi_values.specs.TextAdmits.{text_admitted};

use crate::schema_in::SchemaIn;
use request_words::{NamedText, SortedPairs, has_pair, is_word};
use schema_values::Text;

/// The pairs of a query, and whether the operation answers in pages.
#[derive(Drop)]
pub(crate) struct Query<'a> {
    pub(crate) pairs: &'a SortedPairs<'a>,
    pub(crate) in_pages: bool,
    pub(crate) later_page: bool,
    ghost told: { later_page ≡ has_token pairs.now.pairs.now },
}

impl<'a> Query<'a> {
    /// The query of an operation.
    pub(crate) fn new(pairs: &'a SortedPairs<'a>, in_pages: bool) -> Query<'a>
        ensures pairs { result.pairs.now ≡ pairs.now }
        ensures in_pages { result.in_pages ≡ in_pages }
    {
        Query {
            pairs,
            in_pages,
            later_page: has_pair(pairs.pairs, "page_token"),
        }
    }

    /// Whether a listed parameter of the query holds.
    pub(crate) fn holds(&self, schema: &SchemaIn, required: bool, name: &Text) -> bool
        requires doc { IsSound schema.now.doc.now }
        requires schema { IsSound schema.now.schema.now }
        ensures { result ≡ query_rule self.now.in_pages self.now.pairs.now.pairs.now
            (text_admitted schema.now.doc.now schema.now.schema.now) required name.now }
    {
        if self.in_pages {
            self.holds_in_pages(schema, name)
        } else {
            values_hold(schema, required, self.pairs.named(name))
        }
    }

    // The same, where the operation answers in pages.
    fn holds_in_pages(&self, schema: &SchemaIn, name: &Text) -> bool
        requires doc { IsSound schema.now.doc.now }
        requires schema { IsSound schema.now.schema.now }
        ensures { result ≡ page_query_holds self.now.pairs.now.pairs.now
            (text_admitted schema.now.doc.now schema.now.schema.now) false name.now }
    {
        if is_word(name, "limit") {
            values_hold(schema, false, self.pairs.named(name))
        } else if self.later_page && !is_word(name, "page_token") {
            true
        } else {
            match self.pairs.last_value(name) {
                Some(value) => schema.admits(value.as_str()),
                None => true,
            }
        }
    }
}

// At most one pair, whose value is admitted, and one where it is required.
pub(crate) fn values_hold(schema: &SchemaIn, required: bool, pairs: &[&NamedText]) -> bool
    requires doc { IsSound schema.now.doc.now }
    requires schema { IsSound schema.now.schema.now }
    ensures { result ≡ values_hold (text_admitted schema.now.doc.now schema.now.schema.now) required
        (map (λ pair. pair.now.value) pairs.now) }
{
    match pairs {
        [] => !required,
        [pair] => schema.admits(pair.value.as_str()),
        _ => false,
    }
}
