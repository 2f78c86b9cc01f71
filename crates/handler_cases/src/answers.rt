//! What the calls of cases answer.
use crate::arguments::arguments_told;
use crate::look_ups::found;
use crate::metadata::metadata_told;
use crate::replies::reply_told;
use case_notation::{AnswersCases, CaseError, given_text};
use schema_values::Json;
use std::alloc::Global;

/// The names that members of a case have.
const MEMBERS: [&str; 20] = [
    "case",
    "like",
    "call",
    "table",
    "slots",
    "body_content_type",
    "endpoints",
    "method",
    "template",
    "version",
    "types",
    "request",
    "content",
    "piece",
    "fails_at",
    "limit",
    "budget",
    "calls",
    "handler",
    "reply",
];

/// The calls of cases of handlers.
pub struct HandlerCases;

impl AnswersCases for HandlerCases {
    fn members(&self) -> &'static [&'static str] {
        &MEMBERS
    }

    fn answer(&self, alloc: Global, case: &Json) -> Result<Json, CaseError> {
        match given_text(case, "call")?.as_str() {
            "metadata" => metadata_told(alloc, case),
            "at" => found(alloc, case),
            "arguments" => arguments_told(alloc, case),
            "reply" => reply_told(alloc, case),
            _ => Err(CaseError::Expected("the name of a call")),
        }
    }
}
