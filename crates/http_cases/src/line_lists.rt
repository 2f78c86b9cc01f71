//! Calls on lists of header lines. A step is a list: its name, and what it takes.
use crate::lines::{bytes_noted, lines_noted, lines_of, name_of, value_of};
use case_notation::{CaseError, Row, given_items, items_of, say};
use http_header::HeaderValue;
use http_status::HeaderList;
use schema_values::{Json, Text};
use std::alloc::Global;

/// What each of the steps of a case answers, from the lines of the case on.
pub fn headers_told(alloc: Global, case: &Json) -> Result<Json, CaseError> {
    let steps = given_items(case, "steps")?;
    let mut lines = lines_of(alloc, given_items(case, "lines")?)?;
    steps_told(alloc, &mut lines, steps)
}

fn steps_told(alloc: Global, lines: &mut HeaderList, steps: &[Json]) -> Result<Json, CaseError> {
    let mut answers = Row::new(alloc);
    for step in steps {
        answers.push(step_told(alloc, lines, step));
    }
    answers.done()
}

fn step_told(alloc: Global, lines: &mut HeaderList, step: &Json) -> Result<Json, CaseError> {
    match items_of(step)? {
        [Json::Text(step)] if step.equals_str("copy") => {
            *lines = lines.copy(alloc)?;
            lines_noted(alloc, lines)
        }
        [Json::Text(step), Json::List(others)] if step.equals_str("extend") => {
            lines.extend(lines_of(alloc, others.as_slice())?)?;
            lines_noted(alloc, lines)
        }
        [Json::Text(step), Json::Text(name)] => {
            value_told(alloc, looked_up(lines, step.as_str(), name)?)
        }
        [Json::Text(step), Json::Text(name), Json::Text(value)] => {
            change(alloc, lines, step.as_str(), name, value)?;
            lines_noted(alloc, lines)
        }
        _ => Err(CaseError::Expected("a step")),
    }
}

fn looked_up<'a>(
    lines: &'a HeaderList,
    step: &str,
    name: &Text,
) -> Result<Option<&'a HeaderValue>, CaseError> {
    match step {
        "first" => Ok(lines.first(name.as_str())),
        "last" => Ok(lines.last(name.as_str())),
        _ => Err(CaseError::Expected("a step at a name")),
    }
}

fn value_told(alloc: Global, value: Option<&HeaderValue>) -> Result<Json, CaseError> {
    match value {
        Some(value) => bytes_noted(alloc, value.as_bytes()),
        None => say(alloc, "absent"),
    }
}

fn change(
    alloc: Global,
    lines: &mut HeaderList,
    step: &str,
    name: &Text,
    value: &Text,
) -> Result<(), CaseError> {
    let (name, value) = (name_of(alloc, name)?, value_of(alloc, value)?);
    let changed = match step {
        "append" => lines.append(name, value),
        "insert" => lines.insert(name, value),
        _ => return Err(CaseError::Expected("a step with a line")),
    };
    Ok(changed?)
}
