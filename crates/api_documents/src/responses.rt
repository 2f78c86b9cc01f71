// The responses of an operation.
ghost use Rattle.std.specs.Prelude.{◌≡◌, ◌++◌, [], IfOk, OnOk, map};
ghost use Rattle.std.specs.Option.{option_copied, option_map_or};
ghost use Rattle.typed_values.specs.Checks.{TablePasses};
ghost use Rattle.handler_shapes.specs.ShapeChecks.{ShapePasses};
ghost use Rattle.api_documents.specs.ErrorNames.{name_of_error};
ghost use Rattle.api_documents.specs.Responses.{code_text, content_of, error_responses, header_of};
ghost use Rattle.api_documents.specs.Responses.{headers_of, reference_to, responses_of, success_of};

use crate::bodies::{content, media};
use crate::error_names::{NamedError, listed_error, name_of_error};
use crate::parameters::query_parameters;
use endpoint_metadata::listed_fields;
use handler_shapes::{ApiEndpointErrorResponse, ApiEndpointResponse, ContentShape, HandlerShape};
use http::StatusCode;
use openapi_values::{HeaderObject, MediaType, Parameter, ResponseObject};
use schema_values::{Json, List, Text};
use std::alloc::{AllocError, Global};
use typed_values::{Desc, DescTable};

/// The success under its code, or as `default` where it has none, and the error that is listed.
pub(crate) fn responses(
    alloc: Global,
    named: &[NamedError<'_>],
    shape: &HandlerShape,
) -> Result<List<(Text, ResponseObject)>, AllocError>
    requires { ShapePasses shape.now }
    ensures { IfOk result (λ responses. responses ≡ responses_of named.now shape.now) }
{
    let mut responses = List::new(alloc);
    let code = code_text(alloc, shape.response.success)?;
    let success = success(alloc, &shape.table, &shape.response)?;
    responses.push((code, success))?;
    push_error(alloc, &mut responses, named, listed_error(shape))?;
    Ok(responses)
}

fn code_text(alloc: Global, code: Option<StatusCode>) -> Result<Text, AllocError>
    ensures { IfOk result (λ text. text ≡ code_text code) }
{
    match code {
        Some(code) => {
            let mut text = Text::new(alloc);
            text.push_number(alloc, i128::from(code.as_u16()))?;
            Ok(text)
        }
        None => Text::from_ascii(alloc, "default"),
    }
}

fn success(
    alloc: Global,
    table: &DescTable,
    response: &ApiEndpointResponse,
) -> Result<ResponseObject, AllocError>
    requires { TablePasses table.now }
    ensures { IfOk result (λ success. success ≡ success_of table.now response.now) }
{
    let description = Some(response.description.copy(alloc)?);
    let headers = headers(alloc, table, &response.headers)?;
    let content = success_content(alloc, table, &response.content)?;
    Ok(ResponseObject {
        description,
        headers,
        content,
        reference: None,
    })
}

fn success_content(
    alloc: Global,
    table: &DescTable,
    shape: &ContentShape,
) -> Result<List<(Text, MediaType)>, AllocError>
    requires { TablePasses table.now }
    ensures { IfOk result (λ content. content ≡ content_of table.now shape.now) }
{
    match shape {
        ContentShape::Json(desc, name) => content(alloc, "application/json", table, desc, name),
        ContentShape::Empty => Ok(List::new(alloc)),
        ContentShape::Freeform => media(alloc, "*/*", Json::Object(List::new(alloc))),
    }
}

fn headers(
    alloc: Global,
    table: &DescTable,
    desc: &Option<Desc>,
) -> Result<List<(Text, HeaderObject)>, AllocError>
    requires { TablePasses table.now }
    ensures { IfOk result (λ headers. headers ≡ headers_of table.now desc.now) }
{
    match desc {
        Some(desc) => {
            let parameters = query_parameters(alloc, table, listed_fields(table, desc))?;
            as_headers(alloc, parameters)
        }
        None => Ok(List::new(alloc)),
    }
}

// Parameters as headers of a response, under their names.
fn as_headers(
    alloc: Global,
    parameters: List<Parameter>,
) -> Result<List<(Text, HeaderObject)>, AllocError>
    ensures { IfOk result (λ headers. headers ≡ map header_of parameters) }
{
    let mut headers = List::new(alloc);
    for parameter in parameters.into_vec() {
        headers.push(header_of(alloc, parameter)?)?;
    }
    Ok(headers)
}

fn header_of(alloc: Global, parameter: Parameter) -> Result<(Text, HeaderObject), AllocError>
    ensures { IfOk result (λ header. header ≡ header_of parameter) }
{
    let style = Text::from_ascii(alloc, "simple")?;
    let header = HeaderObject {
        description: parameter.description,
        style,
        required: parameter.required,
        schema: parameter.schema,
    };
    Ok((parameter.name, header))
}

fn push_error(
    alloc: Global,
    responses: &mut List<(Text, ResponseObject)>,
    named: &[NamedError<'_>],
    error: Option<&ApiEndpointErrorResponse>,
) -> Result<(), AllocError>
    ensures { OnOk result (responses.new ≡ responses.old ++ option_map_or
        (λ error. error_responses (name_of_error named.now error)) (option_copied error.entry) []) }
{
    match error {
        Some(error) => push_references(alloc, responses, name_of_error(error, named)),
        None => Ok(()),
    }
}

// The response of an error, for each of its two classes.
fn push_references(
    alloc: Global,
    responses: &mut List<(Text, ResponseObject)>,
    name: &Text,
) -> Result<(), AllocError>
    ensures { OnOk result (responses.new ≡ responses.old ++ error_responses name.now) }
{
    responses.push((Text::from_ascii(alloc, "4XX")?, reference_to(alloc, name)?))?;
    responses.push((Text::from_ascii(alloc, "5XX")?, reference_to(alloc, name)?))
}

fn reference_to(alloc: Global, name: &Text) -> Result<ResponseObject, AllocError>
    ensures { IfOk result (λ response. response ≡ reference_to name.now) }
{
    let mut reference = Text::from_ascii(alloc, "#/components/responses/")?;
    reference.push_text(name)?;
    Ok(ResponseObject {
        description: None,
        headers: List::new(alloc),
        content: List::new(alloc),
        reference: Some(reference),
    })
}
