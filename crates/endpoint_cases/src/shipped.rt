//! The title and the limits that the sample is run with.
use case_notation::{CaseError, Record};
use contract_tool::ToolConfig;
use sample_api::{FRAME_BUDGET, LONGEST_LINE, MOST_INPUT, TITLE, server_config};
use schema_values::{Json, Text};
use std::alloc::Global;

/// The title and the limits of a copy of the configuration of the sample.
pub fn config_told(alloc: Global) -> Result<Json, CaseError> {
    let config = ToolConfig {
        title: Text::from_str(alloc, TITLE)?,
        server: server_config(),
        frame_budget: FRAME_BUDGET,
        longest_line: LONGEST_LINE,
        most_input: MOST_INPUT,
    };
    copy_told(alloc, &config.copy(alloc)?)
}

fn copy_told(alloc: Global, config: &ToolConfig) -> Result<Json, CaseError> {
    let server = &config.server;
    Record::new(alloc)
        .text("title", config.title.as_str())
        .number(
            "default_request_body_max_bytes",
            server.default_request_body_max_bytes.into(),
        )
        .number(
            "page_default_nitems",
            server.page_default_nitems.get().into(),
        )
        .number("page_max_nitems", server.page_max_nitems.get().into())
        .number("frame_budget", config.frame_budget.into())
        .number("longest_line", config.longest_line.into())
        .number("most_input", config.most_input.into())
        .done()
}
