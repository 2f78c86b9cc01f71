//! What is said of the endpoint under `"endpoint"`, call by call. `"says"` is a list of the names of calls, each with
//! what it says, in turn: `["summary",TEXT]`, `["description",TEXT]`, `["tag",TEXT]`,
//! `["request_body_max_bytes",NUMBER]`, `["visible",TRUTH]` or `["deprecated",TRUTH]`.
use crate::making::{Noted, noted_of};
use crate::parts::all_shown;
use api_descriptions::ApiEndpoint;
use case_notation::{CaseError, Reader, given, truth_of};
use endpoint_notation::{items_at, u64_of};
use schema_values::Json;
use std::alloc::Global;

/// The parts of the endpoint of a case, of which this was said in place of what is noted.
pub fn said_shown(alloc: Global, case: &Json) -> Result<Json, CaseError> {
    let noted = given(case, "endpoint")?;
    let says = items_at(case, "says")?;
    let Noted {
        words,
        id,
        method,
        path,
        versions,
        kind,
        handler,
    } = noted_of(alloc, case, noted)?;
    drop(words);
    let made = ApiEndpoint::new(alloc, id, handler, method, kind.as_str(), path, versions);
    let Ok(mut endpoint) = made else {
        return Err(CaseError::Expected("an endpoint that can be made"));
    };
    let mut reader = Reader::new(alloc);
    for one in says {
        let (name, said) = read_said(&mut reader, one);
        endpoint = match name {
            "summary" => endpoint.summary(reader.text(said)),
            "description" => endpoint.description(reader.text(said)),
            "tag" => endpoint.tag(reader.text(said))?,
            "request_body_max_bytes" => {
                endpoint.request_body_max_bytes(reader.or(u64_of(said), 0))
            }
            "visible" => endpoint.visible(reader.or(truth_of(said), true)),
            "deprecated" => endpoint.deprecated(reader.or(truth_of(said), true)),
            _ => {
                reader.expected("the name of a call");
                endpoint
            }
        };
    }
    let mut made = Vec::new(alloc);
    made.push(endpoint)?;
    reader.finish(all_shown(alloc, &made)?)
}

// The name of a call, and what it says.
fn read_said<'a>(reader: &mut Reader, noted: &'a Json) -> (&'a str, &'a Json) {
    match reader.items(noted) {
        [Json::Text(name), said] => (name.as_str(), said),
        _ => {
            reader.expected("the name of a call, and what it says");
            ("", noted)
        }
    }
}
