//! Calls on the templates of paths.
use case_notation::{CaseError, Row, given_text, labelled, say};
use endpoint_notation::variables_at;
use path_templates::{PathSegment, Template};
use schema_values::{Json, Text};
use std::alloc::Global;

/// The segments of the template of the path of a case, or that it is none.
pub fn template_told(alloc: Global, case: &Json) -> Result<Json, CaseError> {
    match Template::parse(alloc, given_text(case, "path")?)? {
        Some(template) => segments_told(alloc, &template),
        None => say(alloc, "no template"),
    }
}

fn segments_told(alloc: Global, template: &Template) -> Result<Json, CaseError> {
    let mut told = Row::new(alloc);
    for segment in template.segments() {
        told.push(segment_told(alloc, segment));
    }
    told.done()
}

fn segment_told(alloc: Global, segment: &PathSegment) -> Result<Json, CaseError> {
    match segment {
        PathSegment::Literal(text) => say(alloc, text.as_str()),
        PathSegment::VarnameSegment(name) => variable_told(alloc, "variable", name),
        PathSegment::VarnameWildcard(name) => variable_told(alloc, "wildcard", name),
    }
}

fn variable_told(alloc: Global, kind: &str, name: &Text) -> Result<Json, CaseError> {
    labelled(alloc, kind, say(alloc, name.as_str()))
}

/// Whether the templates of the two paths of a case have one shape.
pub fn same_shape(alloc: Global, case: &Json) -> Result<Json, CaseError> {
    let shape = shape_at(alloc, case, "path")?;
    Ok(Json::Bool(shape == shape_at(alloc, case, "other")?))
}

fn shape_at(alloc: Global, case: &Json, name: &'static str) -> Result<Text, CaseError> {
    Ok(template_at(alloc, case, name)?.shape(alloc)?)
}

fn template_at(alloc: Global, case: &Json, name: &'static str) -> Result<Template, CaseError> {
    Template::parse(alloc, given_text(case, name)?)?.ok_or(CaseError::Expected("a template"))
}

/// Whether the variables of a case are those of the template of its path.
pub fn variables_match(alloc: Global, case: &Json) -> Result<Json, CaseError> {
    let variables = variables_at(alloc, case)?;
    let template = template_at(alloc, case, "path")?;
    Ok(Json::Bool(template.variables_match(&variables)))
}
