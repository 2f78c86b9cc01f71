//! What the calls of cases answer.
use crate::bodies::{body_told, dump_told};
use crate::error_bodies::error_body_told;
use crate::errors::{constants_told, error_told, request_id_told};
use crate::line_lists::headers_told;
use crate::maps::{map_read, map_written, tree_map_written};
use crate::page_types::page_type_told;
use crate::pages::{long_page_told, page_told};
use crate::ranges::{matches_told, overlaps_told, request_version_told};
use crate::reading::{gathered_told, stream_told, whole_told};
use crate::tokens::{token_read, token_written};
use case_notation::{AnswersCases, CaseError, given_text};
use schema_values::Json;
use std::alloc::Global;

/// The names that members of a case have.
const MEMBERS: [&str; 30] = [
    "case",
    "like",
    "call",
    "definitions",
    "desc",
    "tree",
    "type",
    "map",
    "json",
    "lines",
    "steps",
    "body",
    "calls",
    "budget",
    "made",
    "id",
    "code",
    "message",
    "range",
    "other",
    "version",
    "header",
    "greatest",
    "missing",
    "token",
    "items",
    "scan",
    "length",
    "limit",
    "bytes",
];

/// The calls of cases of requests' and replies' parts.
pub struct HttpCases;

impl AnswersCases for HttpCases {
    fn members(&self) -> &'static [&'static str] {
        &MEMBERS
    }

    fn answer(&self, alloc: Global, case: &Json) -> Result<Json, CaseError> {
        match given_text(case, "call")?.as_str() {
            "from_map" => map_read(alloc, case, false),
            "from_map_insensitive" => map_read(alloc, case, true),
            "to_map" => map_written(alloc, case),
            "to_map_tree" => tree_map_written(alloc, case),
            "headers" => headers_told(alloc, case),
            "body" => body_told(alloc, case),
            "dump" => dump_told(alloc, case),
            "whole" => whole_told(alloc, case),
            "gather" => gathered_told(alloc, case),
            "stream" => stream_told(alloc, case),
            "error" => error_told(alloc, case),
            "error_body" => error_body_told(alloc, case),
            "request_id" => request_id_told(alloc, case),
            "constants" => constants_told(alloc),
            "matches" => matches_told(alloc, case),
            "overlaps" => overlaps_told(alloc, case),
            "request_version" => request_version_told(alloc, case),
            "write_token" => token_written(alloc, case),
            "read_token" => token_read(alloc, case),
            "page" => page_told(alloc, case),
            "long_page" => long_page_told(alloc, case),
            "page_type" => page_type_told(alloc, case),
            _ => Err(CaseError::Expected("the name of a call")),
        }
    }
}
