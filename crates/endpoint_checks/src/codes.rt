//! The causes that stand against the codes with which an endpoint answers.
ghost use Rattle.std.specs.Prelude.{◌≡◌, ◌++◌, ◌↔◌, ◌≤◌, ℕ, IfOk, IsTrue, codes};
ghost use Rattle.std.specs.Fmt.{decimal};
ghost use Rattle.endpoint_parameters.specs.Told.{IsTried, Says};
ghost use Rattle.endpoint_checks.specs.Codes.{HasErrorAsSuccess, LacksErrorType};

use api_declarations::Declaration;
use http::StatusCode;
use schema_values::Text;
use std::alloc::{AllocError, Global};

/// What is told of an endpoint whose code of success is that of an error.
pub fn bad_success_code_told(
    alloc: Global,
    endpoint: &Declaration<'_>,
) -> Result<Option<Text>, AllocError>
    ensures { IfOk result (IsTried (λ message. (code : ℕ) × HasErrorAsSuccess endpoint.now code
        × (message ≡ codes "success code " ++ decimal code ++ codes " is an error code"))) }
{
    let Some(code) = endpoint.shape.response.success else {
        return Ok(None);
    };
    if !is_error_code(code) {
        return Ok(None);
    }
    let mut message = Text::from_ascii(alloc, "success code ")?;
    message.push_number(alloc, i128::from(code.as_u16()))?;
    message.push_ascii(" is an error code")?;
    Ok(Some(message))
}

fn is_error_code(code: StatusCode) -> bool
    ensures { IsTrue result ↔ ((400 ≤ code) × (code ≤ 599)) }
{
    code.is_client_error() || code.is_server_error()
}

/// What is told of an endpoint whose success has a code, and whose errors have no type.
pub fn no_error_schema_told(
    alloc: Global,
    endpoint: &Declaration<'_>,
) -> Result<Option<Text>, AllocError>
    ensures { IfOk result (IsTried (Says (LacksErrorType endpoint.now)
        (codes "the error type has no schema"))) }
{
    if !lacks_error_type(endpoint) {
        return Ok(None);
    }
    Ok(Some(Text::from_ascii(alloc, "the error type has no schema")?))
}

fn lacks_error_type(endpoint: &Declaration<'_>) -> bool
    ensures { IsTrue result ↔ LacksErrorType endpoint.now }
{
    endpoint.shape.response.success.is_some() && endpoint.shape.error.is_none()
}
