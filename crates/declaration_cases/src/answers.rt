//! What the calls of cases answer.
use crate::causes::causes_told;
use crate::documents::document_told;
use crate::extracts::extracted;
use crate::limits::{body_limit, page_limit};
use crate::look_ups::found;
use crate::media::media_kind;
use crate::path_params::path_params_told;
use crate::streams::next_data_told;
use crate::tag_settings::settings_told;
use crate::templates::{same_shape, template_told, variables_match};
use case_notation::{AnswersCases, CaseError, given_text};
use schema_values::Json;
use std::alloc::Global;

/// The names that members of a case have.
const MEMBERS: [&str; 29] = [
    "case",
    "like",
    "call",
    "media_type",
    "table",
    "slots",
    "body_content_type",
    "request",
    "limit",
    "budget",
    "calls",
    "content",
    "body",
    "cap",
    "type",
    "variables",
    "path",
    "other",
    "json",
    "endpoints",
    "tag_config",
    "method",
    "template",
    "version",
    "greatest",
    "default",
    "request_body_max_bytes",
    "title",
    "info",
];

/// The calls of cases of declarations.
pub struct DeclarationCases;

impl AnswersCases for DeclarationCases {
    fn members(&self) -> &'static [&'static str] {
        &MEMBERS
    }

    fn answer(&self, alloc: Global, case: &Json) -> Result<Json, CaseError> {
        match given_text(case, "call")?.as_str() {
            "media_kind" => media_kind(alloc, case),
            "extract" => extracted(alloc, case),
            "next_data" => next_data_told(alloc, case),
            "template" => template_told(alloc, case),
            "same_shape" => same_shape(alloc, case),
            "variables" => variables_match(alloc, case),
            "tags" => settings_told(alloc, case),
            "look_up" => found(alloc, case),
            "cause" => causes_told(alloc, case),
            "document" => document_told(alloc, case),
            "path_params" => path_params_told(alloc, case),
            "page_limit" => page_limit(alloc, case),
            "body_limit" => body_limit(alloc, case),
            _ => Err(CaseError::Expected("the name of a call")),
        }
    }
}
