//! Whether the parameters of an operation hold of a request.

ghost use Rattle.std.specs.Prelude.{◌≡◌};
ghost use Rattle.std.specs.List.{list_all, AllByRecursion};
ghost use Rattle.schema_values.specs.Sound.{IsSound};
ghost use Rattle.openapi_values.specs.Pages.{query_rule};
ghost use Rattle.openapi_values.specs.RequestParameters.{path_holds, header_holds, shown_admitted};
ghost use Rattle.openapi_values.specs.RequestParameters.{placed_holds, parameter_holds};
ghost use Rattle.openapi_values.specs.TextAdmits.{text_admitted};

use crate::members::{is_true_at, text_of};
use crate::query::Query;
use crate::schema_in::SchemaIn;
use openapi_values::{HeaderLine, WireRequest, get_word};
use request_words::{is_word, last_line, shown_text};
use schema_values::{Json, Text, VariableValue};

/// Whether each of some parameters holds of a request, whose query is read so.
pub(crate) fn all_hold(
    doc: &Json,
    request: &WireRequest,
    query: &Query,
    parameters: &[Json],
) -> bool
    requires doc { IsSound doc.now }
    requires parameters { AllByRecursion IsSound parameters.now }
    ensures { result ≡ list_all (parameter_holds doc.now request.now
        (query_rule query.now.in_pages query.now.pairs.now.pairs.now)) parameters.now }
{
    for parameter in parameters {
        if !parameter_holds(doc, request, query, parameter) {
            return false;
        }
    }
    true
}

fn parameter_holds(doc: &Json, request: &WireRequest, query: &Query, parameter: &Json) -> bool
    requires doc { IsSound doc.now }
    requires parameter { IsSound parameter.now }
    ensures { result ≡ parameter_holds doc.now request.now
        (query_rule query.now.in_pages query.now.pairs.now.pairs.now) parameter.now }
{
    let Some(place) = text_of(parameter, "in") else {
        return false;
    };
    let Some(name) = text_of(parameter, "name") else {
        return false;
    };
    let Some(schema) = get_word(parameter, "schema") else {
        return false;
    };
    let schema = SchemaIn { doc, schema };
    let required = is_true_at(parameter, "required");
    placed_holds(request, query, &schema, required, name, place)
}

// By the place of a parameter.
fn placed_holds(
    request: &WireRequest,
    query: &Query,
    schema: &SchemaIn,
    required: bool,
    name: &Text,
    place: &Text,
) -> bool
    requires doc { IsSound schema.now.doc.now }
    requires schema { IsSound schema.now.schema.now }
    ensures { result ≡ placed_holds request.now (query_rule query.now.in_pages query.now.pairs.now.pairs.now)
        (text_admitted schema.now.doc.now schema.now.schema.now) required name.now place.now }
{
    if is_word(place, "path") {
        path_holds(request, schema, name)
    } else if is_word(place, "header") {
        header_holds(request.headers.as_slice(), schema, required, name)
    } else {
        is_word(place, "query") && query.holds(schema, required, name)
    }
}

fn path_holds(request: &WireRequest, schema: &SchemaIn, name: &Text) -> bool
    requires doc { IsSound schema.now.doc.now }
    requires schema { IsSound schema.now.schema.now }
    ensures { result ≡ path_holds request.now (text_admitted schema.now.doc.now schema.now.schema.now)
        name.now }
{
    match request.variables.get(name) {
        Some(VariableValue::String(text)) => schema.admits(text.as_str()),
        Some(VariableValue::Components(_)) | None => false,
    }
}

fn header_holds(lines: &[HeaderLine], schema: &SchemaIn, required: bool, name: &Text) -> bool
    requires doc { IsSound schema.now.doc.now }
    requires schema { IsSound schema.now.schema.now }
    ensures { result ≡ header_holds lines.now (text_admitted schema.now.doc.now schema.now.schema.now)
        required name.now }
{
    match last_line(lines, name.as_bytes()) {
        Some(value) => shown_admitted(schema, value),
        None => !required,
    }
}

// Whether the bytes of a value are shown, and admitted.
fn shown_admitted(schema: &SchemaIn, value: &[u8]) -> bool
    requires doc { IsSound schema.now.doc.now }
    requires schema { IsSound schema.now.schema.now }
    ensures { result ≡ shown_admitted (text_admitted schema.now.doc.now schema.now.schema.now) value.now }
{
    match shown_text(value) {
        Some(text) => schema.admits(text),
        None => false,
    }
}
