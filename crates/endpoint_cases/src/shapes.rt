//! The errors of the handlers of cases.
ghost use Rattle.std.specs.Prelude.{◌≡◌, IfOk, IsTrue, codes};
ghost use Rattle.http_status.specs.ErrorBodies.{error_desc};
ghost use Rattle.api_respond.specs.Replies.{HasHttpErrors};
ghost use Rattle.endpoint_cases.specs.Errors.{IsDefined, IsNamed};

use api_types::ApiType;
use case_notation::CaseError;
use handler_shapes::{ApiEndpointErrorResponse, HandlerShape};
use http_status::HttpErrorResponseBody;
use schema_values::{Json, Text};
use std::alloc::{AllocError, Global};
use typed_values::AddError;

/// Gives a shape the errors of the library, where the endpoint notes no others. Tells whether it did.
#[tactic(auto, using(crate::proofs::LibraryErrors::is_named, crate::proofs::LibraryErrors::is_defined))]
pub fn set_errors(alloc: Global, noted: &Json, shape: &mut HandlerShape) -> Result<bool, CaseError>
    ensures named { IfOk result (λ library. IsTrue library → IsNamed shape.new) }
    ensures defined { IfOk result (λ library. IsTrue library → IsDefined shape.new) }
{
    match noted.get("error") {
        None => set_library_errors(alloc, shape),
        Some(_) => Ok(false),
    }
}

// The errors of the library, unless the table has another definition of their name.
fn set_library_errors(alloc: Global, shape: &mut HandlerShape) -> Result<bool, CaseError>
    ensures { IfOk result (λ library. IsTrue library → HasHttpErrors shape.new) }
{
    let errors = library_errors(alloc)?;
    match HttpErrorResponseBody::add_definitions(alloc, &mut shape.table) {
        Ok(()) => {
            shape.error = Some(errors);
            Ok(true)
        }
        Err(AddError::Clash(_)) => Ok(false),
        Err(AddError::OutOfMemory) => Err(CaseError::OutOfMemory),
    }
}

fn library_errors(alloc: Global) -> Result<ApiEndpointErrorResponse, AllocError>
    ensures { IfOk result (λ error. error ≡ record { desc = error_desc; name = codes "Error" }) }
{
    let name = Text::from_ascii(alloc, "Error")?;
    let desc = HttpErrorResponseBody::descriptor(alloc)?;
    Ok(ApiEndpointErrorResponse { desc, name })
}
