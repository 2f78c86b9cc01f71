//! The program: the sample API over the standard streams.
#![tactic(auto)]

ghost use Rattle.std.specs.Prelude.{◌<◌, ◌-◌, ◌^◌, IfOk};

use api_descriptions::{ApiEndpoint, NewEndpointError, TagConfig};
use contract_tool::{StdSink, StdSource, ToolConfig, ToolStatus, run};
use sample_api::SampleEndpoint;
use schema_values::Text;
use std::alloc::{AllocError, Global};
use std::env;
use std::io::ErrorKind;
use std::process::ExitCode;

// The media type of typed bodies.
const JSON: &str = "application/json";

const VERSION: &str = "contract-tool 0.1.0\n";

const HELP: &str = "contract-tool session VERSION
contract-tool document VERSION

A session writes the OpenAPI document of the sample API at a version (Semantic Versioning 2.0.0),
and then a reply line for each request line of the standard input. The other command writes the
document alone.
";

// The words behind the program's name. One that is no UTF-8 makes them no command.
fn command_words(rt: &HostRuntime) -> Result<Vec<String>, ToolStatus> {
    match env::args(rt) {
        Ok(args) => match args.skip(1).collect(rt.alloc()) {
            Ok(words) => Ok(words),
            Err(_) => Err(ToolStatus::OutOfMemory),
        },
        Err(error) if error.kind() == ErrorKind::InvalidData => Err(ToolStatus::Usage),
        Err(_) => Err(ToolStatus::OutOfMemory),
    }
}

// The title and the limits that the sample is served with.
fn sample_config(alloc: Global) -> Result<ToolConfig, AllocError>
    ensures most { IfOk result (λ config. config.most_input < 2 ^ 64 - 1) }
    ensures longest { IfOk result (λ config. config.longest_line < 2 ^ 64 - 1) }
    ensures budget { IfOk result (λ config. config.frame_budget < 2 ^ 64 - 1) }
{
    Ok(ToolConfig {
        title: Text::from_str(alloc, sample_api::TITLE)?,
        server: sample_api::server_config(),
        frame_budget: sample_api::FRAME_BUDGET,
        longest_line: sample_api::LONGEST_LINE,
        most_input: sample_api::MOST_INPUT,
    })
}

// Runs a command of the sample API. Endpoints are made in the function that keeps them: one that makes an endpoint and
// hands it out is not allowed.
fn run_sample(rt: &HostRuntime, words: &[String]) -> Result<ToolStatus, NewEndpointError> {
    let alloc = rt.alloc();
    let mut endpoints = Vec::new(alloc);
    for endpoint in sample_api::endpoints(alloc)? {
        let SampleEndpoint {
            handler,
            operation_id,
            method,
            path,
            versions,
            body_limit,
            visible,
        } = endpoint;
        let mut made = ApiEndpoint::new(
            alloc,
            operation_id,
            handler,
            method,
            JSON,
            path,
            versions,
        )?;
        made.request_body_max_bytes = body_limit;
        made.visible = visible;
        if endpoints.push(made).is_err() {
            return Err(NewEndpointError::OutOfMemory);
        }
    }
    Ok(run_over(rt, words, endpoints)?)
}

// Runs a command over the endpoints of the sample and the standard streams.
fn run_over(
    rt: &HostRuntime,
    words: &[String],
    endpoints: Vec<ApiEndpoint>,
) -> Result<ToolStatus, AllocError> {
    let alloc = rt.alloc();
    let config = sample_config(alloc)?;
    let mut store = sample_api::points_store(alloc)?;
    Ok(run(
        alloc,
        words,
        endpoints,
        TagConfig::default_config(alloc),
        &mut store,
        &config,
        &mut StdSource::new(rt.stdin()),
        &mut StdSink::new(rt.stdout()),
    ))
}

fn write_out(rt: &HostRuntime, text: &str) -> ToolStatus {
    match print!(rt; "{}", text) {
        Ok(()) => ToolStatus::Done,
        Err(_) => ToolStatus::WriteFault,
    }
}

// The code of a status. One that is not 0 is told on standard error.
fn told(rt: &HostRuntime, status: &ToolStatus) -> u8 {
    let code = status.code();
    if code != 0 {
        let _ = eprintln!(rt; "contract-tool: {}", status);
    }
    code
}

// Does what the words of the command line ask for, and gives the code that the program ends with: 1 where an endpoint
// of the sample could not be made.
fn run_words(rt: &HostRuntime, words: &[String]) -> u8 {
    match words {
        [word] if word.as_str() == "--help" => told(rt, &write_out(rt, HELP)),
        [word] if word.as_str() == "--version" => told(rt, &write_out(rt, VERSION)),
        words => match run_sample(rt, words) {
            Ok(status) => told(rt, &status),
            Err(NewEndpointError::OutOfMemory) => told(rt, &ToolStatus::OutOfMemory),
            Err(error) => {
                let _ = eprintln!(rt; "contract-tool: {}", error);
                1
            }
        },
    }
}

fn main(rt: HostRuntime) -> ExitCode {
    let code = match command_words(&rt) {
        Ok(words) => run_words(&rt, &words),
        Err(status) => told(&rt, &status),
    };
    ExitCode::from(code)
}
