//! Cases of values, of schemas and of documents: each line of the input is one, and is answered
//! with one line.
#![tactic(auto)]

mod answers;
mod documents;
mod info;
mod operations;
mod part_notation;
mod request_notation;
mod schema_notation;
mod schemas;
mod values;

use case_notation::{AnswersCases, CaseError, given_text, run};
use schema_values::Json;
use std::alloc::Global;
use std::io;

/// The names that members of a case have.
const MEMBERS: [&str; 21] = [
    "case",
    "like",
    "call",
    "text",
    "json",
    "name",
    "made",
    "other",
    "schema",
    "title",
    "definitions",
    "required",
    "kind",
    "part",
    "document",
    "path",
    "method",
    "body",
    "headers",
    "variables",
    "query",
];

struct SchemaCases;

impl AnswersCases for SchemaCases {
    fn members(&self) -> &'static [&'static str] {
        &MEMBERS
    }

    fn answer(&self, alloc: Global, case: &Json) -> Result<Json, CaseError> {
        let call = given_text(case, "call")?.as_str();
        match call {
            "read" => values::read(alloc, case),
            "read_in_turn" => values::read_in_turn(alloc, case),
            "compact" => values::compact(alloc, case),
            "written" => values::written(alloc, case),
            "pretty" => values::pretty(alloc, case),
            "read_compact" => values::read_compact(alloc, case),
            "read_pretty" => values::read_pretty(alloc, case),
            "chars_count" => values::chars_count(case),
            "get" => values::get(alloc, case),
            "sound" => values::sound(alloc, case),
            "equals" => values::equals(alloc, case),
            "to_value" => values::to_value(alloc, case),
            "of_value" => values::of_value(alloc, case),
            _ => answer_on_schemas(alloc, call, case),
        }
    }
}

fn answer_on_schemas(alloc: Global, call: &str, case: &Json) -> Result<Json, CaseError> {
    match call {
        "j2oas_schema" => schemas::j2oas_schema(alloc, case),
        "resolve" => schemas::resolve(alloc, case),
        "is_empty" => schemas::is_empty(alloc, case),
        "schema_extensions" => schemas::extensions(alloc, case),
        "schema_extract_description" => schemas::extracted(alloc, case),
        "type_is_scalar" => schemas::scalar(alloc, case),
        "type_is_string" => schemas::string(alloc, case),
        "type_is_string_enum" => schemas::string_enum(alloc, case),
        "schema2struct" => schemas::members(alloc, case),
        _ => answer_on_documents(alloc, call, case),
    }
}

fn answer_on_documents(alloc: Global, call: &str, case: &Json) -> Result<Json, CaseError> {
    match call {
        "to_json" => documents::part(alloc, case),
        "to_pretty_json" => documents::pretty_part(alloc, case),
        "json_admits" => documents::json_admitted(alloc, case),
        "text_admits" => documents::text_admitted(alloc, case),
        "check_admits" => documents::request_admitted(alloc, case),
        _ => Err(CaseError::Expected("the name of a call")),
    }
}

fn main(rt: HostRuntime) -> io::Result<()> {
    run(&rt, &SchemaCases)
}
