//! What the calls of cases answer.
use crate::faults::fault_text;
use crate::printed::{lines_printed, printed_and_read, value};
use crate::schemas::{admits, copied_schemas, definition, schema, titled};
use crate::statuses::status_told;
use crate::stores::store_told;
use crate::tables::{add, add_together, copied_table, table_told};
use crate::texts::{map_decoded, pairs_decoded, pairs_told, text_decoded};
use crate::types::type_told;
use crate::values::{decode, decode_and_encode, desc_told, encode};
use case_notation::{AnswersCases, CaseError, Row, given, text_of};
use schema_values::Json;
use std::alloc::Global;

/// The names that members of a case have.
const MEMBERS: [&str; 22] = [
    "case",
    "like",
    "call",
    "definitions",
    "desc",
    "batches",
    "made",
    "name",
    "json",
    "tree",
    "place",
    "pretty",
    "title",
    "text",
    "type",
    "kind",
    "places",
    "steps",
    "status",
    "query",
    "repeats",
    "map",
];

/// The calls of cases of values.
pub struct ValueCases;

impl AnswersCases for ValueCases {
    fn members(&self) -> &'static [&'static str] {
        &MEMBERS
    }

    fn answer(&self, alloc: Global, case: &Json) -> Result<Json, CaseError> {
        let answer = answers(alloc, given(case, "call")?, case);
        match case.get("pretty") {
            Some(places) => lines_printed(alloc, &answer?, places),
            None => answer,
        }
    }
}

fn answers(alloc: Global, call: &Json, case: &Json) -> Result<Json, CaseError> {
    match call {
        Json::List(calls) => answers_in_turn(alloc, calls.as_slice(), case),
        call => answer(alloc, call, case),
    }
}

fn answers_in_turn(alloc: Global, calls: &[Json], case: &Json) -> Result<Json, CaseError> {
    let mut answers = Row::new(alloc);
    for call in calls {
        answers.push(answer(alloc, call, case));
    }
    answers.done()
}

fn answer(alloc: Global, call: &Json, case: &Json) -> Result<Json, CaseError> {
    match text_of(call)?.as_str() {
        "add" => add(alloc, case),
        "add_all" => add_together(alloc, case),
        "copy_table" => copied_table(alloc, case),
        "check_table" => table_told(alloc, case),
        "check_desc" => desc_told(alloc, case),
        "decode" => decode(alloc, case),
        "decode_and_encode" => decode_and_encode(alloc, case),
        "encode" => encode(alloc, case),
        "schema_of" => schema(alloc, case),
        "titled_schema" => titled(alloc, case),
        "definition_schema" => definition(alloc, case),
        "copied_schemas" => copied_schemas(alloc, case),
        "admits" => admits(alloc, case),
        "value" => value(alloc, case),
        "print_and_read" => printed_and_read(alloc, case),
        "type" => type_told(alloc, case),
        "fault_text" => fault_text(alloc, case),
        "store" => store_told(alloc, case),
        "error_status" => status_told(alloc, case),
        "decode_text" => text_decoded(alloc, case),
        "query_pairs" => pairs_told(alloc, case),
        "decode_pairs" => pairs_decoded(alloc, case),
        "decode_map" => map_decoded(alloc, case),
        _ => Err(CaseError::Expected("the name of a call")),
    }
}
