//! Runs of the tool over the endpoints of a case. `"words"` are the words of the command line, `session` and the
//! version of the case where they are left out.
use crate::limits::{Limits, read_limits};
use crate::stores::{store_of, tree_at};
use crate::streams::{read_sink, read_source, written_told};
use api_descriptions::{ApiEndpoint, TagConfig};
use case_notation::{CaseError, Reader, Record};
use contract_tool::{MemorySink, MemorySource, ToolConfig, ToolStatus, run};
use endpoint_notation::{read_text_or, settings_at};
use request_parts::ServerConfig;
use sample_api::server_config;
use schema_values::{Json, Text};
use std::alloc::{AllocError, Global};
use tree_store::Store;

// What a run is run with.
#[derive(Drop)]
struct Setting {
    title: Text,
    words: Vec<String>,
    limits: Limits,
    source: MemorySource,
    sink: MemorySink,
    store: Store,
}

fn setting_of(alloc: Global, case: &Json) -> Result<Box<Setting>, CaseError> {
    let mut reader = Reader::new(alloc);
    let setting = Setting {
        title: read_text_or(&mut reader, case, "title", "sample"),
        words: read_words(&mut reader, case),
        limits: read_limits(&mut reader, case),
        source: read_source(&mut reader, case),
        sink: read_sink(&mut reader, case),
        store: read_store(&mut reader, case),
    };
    Ok(Box::new(alloc, reader.finish(setting)?)?)
}

fn read_store(reader: &mut Reader, case: &Json) -> Store {
    let alloc = reader.alloc();
    reader.or(store_of(alloc, case), Store::new(alloc))
}

fn read_words(reader: &mut Reader, case: &Json) -> Vec<String> {
    let mut words = Vec::new(reader.alloc());
    match case.get("words") {
        Some(noted) => {
            for word in reader.items(noted) {
                let word = reader.text(word);
                add_word(reader, &mut words, word);
            }
        }
        None => {
            let word = reader.text_from("session");
            add_word(reader, &mut words, word);
            let version = read_text_or(reader, case, "version", "1.0.0");
            add_word(reader, &mut words, version);
        }
    }
    words
}

fn add_word(reader: &mut Reader, words: &mut Vec<String>, word: Text) {
    reader.or(words.push(word.into_string()), ())
}

/// How a run over endpoints ends, what it wrote, and the tree that the store then has under `"key"`.
pub fn run_told(
    alloc: Global,
    case: &Json,
    endpoints: Vec<ApiEndpoint>,
    document: &str,
) -> Result<Json, CaseError> {
    let tags = settings_at(alloc, case)?;
    let mut setting = setting_of(alloc, case)?;
    let status = run_in(alloc, endpoints, tags, &mut setting)?;
    let told = status_told(alloc, &status)?.put(
        "written",
        written_told(alloc, setting.sink.taken(), document),
    );
    match case.get("key") {
        Some(key) => told
            .put("stored", tree_at(alloc, &setting.store, key))
            .done(),
        None => told.done(),
    }
}

fn run_in(
    alloc: Global,
    endpoints: Vec<ApiEndpoint>,
    tags: TagConfig,
    setting: &mut Setting,
) -> Result<ToolStatus, AllocError> {
    let config = ToolConfig {
        title: setting.title.copy(alloc)?,
        server: server_of(setting.limits),
        frame_budget: u64::from(setting.limits.frames),
        longest_line: u64::from(setting.limits.line),
        most_input: u64::from(setting.limits.input),
    };
    Ok(run(
        alloc,
        setting.words.as_slice(),
        endpoints,
        tags,
        &mut setting.store,
        &config,
        &mut setting.source,
        &mut setting.sink,
    ))
}

fn server_of(limits: Limits) -> ServerConfig {
    ServerConfig {
        default_request_body_max_bytes: u64::from(limits.body),
        ..server_config()
    }
}

// The code of a copy of a status, and its text where it is no success.
fn status_told(alloc: Global, status: &ToolStatus) -> Result<Record, CaseError> {
    let status = status.copy(alloc)?;
    let text = format!(in alloc; "{status}")?;
    let told = Record::new(alloc).number("status", status.code().into());
    if text.is_empty() {
        Ok(told)
    } else {
        Ok(told.text("text", text.as_str()))
    }
}
