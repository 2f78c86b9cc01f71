//! What the calls of cases answer.
use crate::apis::ApiCall;
use crate::calls::Call;
use crate::said::said_shown;
use crate::serving::served;
use crate::shipped::config_told;
use crate::sources::over_endpoints;
use case_notation::{AnswersCases, CaseError, given, text_of};
use schema_values::{Json, Text};
use std::alloc::Global;

/// The names that members of a case have.
const MEMBERS: [&str; 24] = [
    "case",
    "like",
    "call",
    "endpoint",
    "endpoints",
    "sample",
    "for_types",
    "media_type",
    "tag_config",
    "one_by_one",
    "says",
    "title",
    "version",
    "request",
    "requests",
    "limit",
    "budget",
    "calls",
    "words",
    "lines",
    "limits",
    "key",
    "failing_reads",
    "failing_writes",
];

/// The calls of cases of endpoints.
pub struct EndpointCases;

impl AnswersCases for EndpointCases {
    fn members(&self) -> &'static [&'static str] {
        &MEMBERS
    }

    fn answer(&self, alloc: Global, case: &Json) -> Result<Json, CaseError> {
        match text_of(given(case, "call")?)?.as_str() {
            "new" => over_endpoints(alloc, case, Call::New),
            "said" => said_shown(alloc, case),
            "register" => over_endpoints(alloc, case, Call::Register),
            "endpoints" => over_endpoints(alloc, case, Call::Endpoints),
            "errors" => over_endpoints(alloc, case, Call::Errors),
            "run" => ran(alloc, case),
            "serve" => served(alloc, case),
            "config" => config_told(alloc),
            call => over_api(alloc, case, call),
        }
    }
}

fn over_api(alloc: Global, case: &Json, call: &str) -> Result<Json, CaseError> {
    let call = match call {
        "exchange" => ApiCall::Exchange,
        "exchanges" => ApiCall::Exchanges,
        "exchange_from" => ApiCall::ExchangeFrom,
        "document" => ApiCall::Document,
        "document_said" => ApiCall::DocumentSaid,
        "text" => ApiCall::Text,
        "write" => ApiCall::Write,
        "admits" => ApiCall::Admits,
        _ => return Err(CaseError::Expected("the name of a call")),
    };
    over_endpoints(alloc, case, Call::OverApi(call))
}

// A run, of which the document of the endpoints is known.
fn ran(alloc: Global, case: &Json) -> Result<Json, CaseError> {
    let document = text_over(alloc, case)?;
    over_endpoints(alloc, case, Call::Run(document.as_str()))
}

// The text of the document of the endpoints, or an empty one where they have none.
fn text_over(alloc: Global, case: &Json) -> Result<Text, CaseError> {
    match over_endpoints(alloc, case, Call::OverApi(ApiCall::Text))? {
        Json::Text(document) => Ok(document),
        _ => Ok(Text::new(alloc)),
    }
}
