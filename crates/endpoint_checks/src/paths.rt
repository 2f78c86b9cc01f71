//! The causes that stand against the path and the method of an endpoint.
ghost use Rattle.std.specs.Prelude.{◌≡◌, ◌++◌, ◌↔◌, [], IfOk, IsSome, IsTrue, OnOk, codes};
ghost use Rattle.std.specs.Prelude.{option_and_then, option_map, unwrap_or};
ghost use Rattle.std.specs.Option.{option_copied};
ghost use Rattle.openapi_values.specs.Admits.{method_member};
ghost use Rattle.path_templates.specs.Segments.{segments_of, wildcard_of};
ghost use Rattle.path_templates.specs.Shapes.{path_shape};
ghost use Rattle.path_templates.specs.Templates.{names_of};
ghost use Rattle.endpoint_parameters.specs.Parameters.{parameters as parameters_of};
ghost use Rattle.endpoint_parameters.specs.Told.{IsTried, Says, quoted as quoted_text};
ghost use Rattle.endpoint_checks.specs.Paths.{HasBadMethod, HasBadTemplate, HasPathMismatch};
ghost use Rattle.endpoint_checks.specs.Paths.{HasVisibleWildcard, begins_with_slash};
ghost use Rattle.endpoint_checks.specs.Paths.{mismatch_message, path_wildcard, template_reason};
ghost use Rattle.endpoint_checks.specs.Paths.{unconsumed, unspecified};

use crate::names::{missing_in, push_between, push_listing};
use api_declarations::Declaration;
use endpoint_parameters::{Parameter, Place, names_in, quoted};
use http::Method;
use path_templates::Template;
use schema_values::{List, Text};
use std::alloc::{AllocError, Global};

/// What is told of an endpoint whose path is no template.
pub fn bad_template_told(
    alloc: Global,
    template: &Option<Template>,
    endpoint: &Declaration<'_>,
) -> Result<Option<Text>, AllocError>
    requires { template.now ≡ segments_of endpoint.now.path }
    ensures { IfOk result (IsTried (Says (HasBadTemplate endpoint.now)
        (quoted_text (template_reason endpoint.now.path) [] endpoint.now.path))) }
{
    if template.is_some() {
        return Ok(None);
    }
    Ok(Some(quoted(alloc, template_reason(endpoint.path), "", endpoint.path)?))
}

/// The shape of a path, if it is a template. Fails only for want of memory.
pub(crate) fn path_shape(alloc: Global, path: &Text) -> Result<Option<Text>, AllocError>
    ensures { IfOk result (λ shape. shape ≡ path_shape path.now) }
{
    match Template::parse(alloc, path)? {
        Some(template) => Ok(Some(template.shape(alloc)?)),
        None => Ok(None),
    }
}

fn template_reason(path: &Text) -> &'static str
    ensures { result.now ≡ template_reason path.now }
{
    if begins_with_slash(path) {
        "bad route path: "
    } else {
        "route paths must begin with a '/': "
    }
}

fn begins_with_slash(path: &Text) -> bool
    ensures { result ≡ begins_with_slash path.now }
{
    match path.as_str().chars().next() {
        Some(first) => first == '/',
        None => false,
    }
}

/// What is told of an endpoint whose method has no place in documents.
pub fn bad_method_told(
    alloc: Global,
    endpoint: &Declaration<'_>,
) -> Result<Option<Text>, AllocError>
    ensures { IfOk result (IsTried (Says (HasBadMethod endpoint.now)
        (codes "unexpected method `" ++ endpoint.now.method ++ codes "`"))) }
{
    if has_member(endpoint.method) {
        return Ok(None);
    }
    let mut message = Text::from_ascii(alloc, "unexpected method `")?;
    push_method(&mut message, endpoint.method)?;
    message.push_ascii("`")?;
    Ok(Some(message))
}

// Whether a path of a document may have an operation of a method.
fn has_member(method: &Method) -> bool
    ensures { IsTrue result ↔ IsSome (method_member method.now) }
{
    matches!(
        method.as_str(),
        "GET" | "PUT" | "POST" | "DELETE" | "OPTIONS" | "HEAD" | "PATCH" | "TRACE"
    )
}

/// Puts a method at the end of a message: a token, whose bytes are its characters.
pub(crate) fn push_method(message: &mut Text, method: &Method) -> Result<(), AllocError>
    ensures { OnOk result (message.new ≡ message.old ++ method.now) }
{
    message.push_ascii(method.as_str())
}

/// What is told of an endpoint whose path has other variables than its handler takes.
pub fn mismatch_told(
    alloc: Global,
    template: &Option<Template>,
    parameters: &[Parameter<'_>],
    endpoint: &Declaration<'_>,
) -> Result<Option<Text>, AllocError>
    requires template { template.now ≡ segments_of endpoint.now.path }
    requires parameters { parameters.now ≡ parameters_of endpoint.now.shape }
    ensures { IfOk result (IsTried (Says (HasPathMismatch endpoint.now)
        (mismatch_message (unconsumed endpoint.now) (unspecified endpoint.now)))) }
{
    let variables = variable_names(alloc, template)?;
    let taken = names_in(alloc, Place::Path, parameters)?;
    let unconsumed = missing_in(alloc, taken.as_slice(), variables.as_slice())?;
    let unspecified = missing_in(alloc, variables.as_slice(), taken.as_slice())?;
    if unconsumed.is_empty() && unspecified.is_empty() {
        return Ok(None);
    }
    Ok(Some(mismatch_message(alloc, unconsumed.as_slice(), unspecified.as_slice())?))
}

// The names of the variables of a template; none where there is none.
fn variable_names(alloc: Global, template: &Option<Template>) -> Result<List<Text>, AllocError>
    ensures { IfOk result (λ names. names ≡ unwrap_or (option_map names_of template.now) []) }
{
    match template {
        Some(template) => template.variable_names(alloc),
        None => Ok(List::new(alloc)),
    }
}

fn mismatch_message(
    alloc: Global,
    unconsumed: &[Text],
    unspecified: &[Text],
) -> Result<Text, AllocError>
    ensures { IfOk result (λ message. message ≡ mismatch_message unconsumed.now unspecified.now) }
{
    let mut message = Text::new(alloc);
    push_listing(
        alloc,
        &mut message,
        "path parameters are not consumed ",
        unconsumed,
    )?;
    push_between(&mut message, unconsumed, unspecified)?;
    push_listing(
        alloc,
        &mut message,
        "specified parameters do not appear in the path ",
        unspecified,
    )?;
    Ok(message)
}

/// The name of the wildcard in which a path ends, if it does.
pub fn wildcard(template: &Option<Template>) -> Option<&Text>
    ensures { option_copied result ≡ option_and_then wildcard_of template.now }
{
    match template {
        Some(template) => template.wildcard(),
        None => None,
    }
}

/// What is told of an endpoint that documents show though its path ends in a wildcard.
pub fn visible_wildcard_told(
    alloc: Global,
    wildcard: Option<&Text>,
    endpoint: &Declaration<'_>,
) -> Result<Option<Text>, AllocError>
    requires { option_copied wildcard ≡ path_wildcard endpoint.now.path }
    ensures { IfOk result (IsTried (Says (HasVisibleWildcard endpoint.now)
        (quoted_text (codes "a visible endpoint has a wildcard path: ") [] endpoint.now.path))) }
{
    if !endpoint.visible || wildcard.is_none() {
        return Ok(None);
    }
    Ok(Some(quoted(
        alloc,
        "a visible endpoint has a wildcard path: ",
        "",
        endpoint.path,
    )?))
}
