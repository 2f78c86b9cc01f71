//! What shapes are made of: definitions, slots and responses.
ghost use Rattle.std.specs.Prelude.{◌≡◌, ◌++◌, ◌∷◌, [], IfOk, IsTrue, None, OnOk, codes};
ghost use Rattle.schema_values.specs.Ascii.{all_ascii};
ghost use Rattle.descriptors.specs.Definitions.{entry_of};
ghost use Rattle.http_status.specs.ErrorBodies.{error_definition, error_desc};
ghost use Rattle.handler_shapes.specs.declared.shape.ContentShape.TheVariants as contents;
ghost use Rattle.handler_shapes.specs.declared.slot.Slot.TheVariants as taken;
ghost use Rattle.sample_types.specs.Shapes.{IsOnlyNew, json_of, shape_with, success_of};

use api_types::ApiType;
use handler_shapes::{
    ApiEndpointErrorResponse, ApiEndpointResponse, ContentShape, HandlerShape, Slot,
};
use http::StatusCode;
use http_status::HttpErrorResponseBody;
use schema_values::{List, Text};
use std::alloc::{AllocError, Global};
use typed_values::{AddError, DescTable};

/// A success that is JSON of a type.
pub(crate) fn json_of<T: ApiType>(
    alloc: Global,
    code: StatusCode,
    description: &str,
) -> Result<ApiEndpointResponse, AllocError>
    requires { IsTrue (all_ascii description.now) }
    ensures { IfOk result (λ response. response ≡ json_of T.desc_of T.name_of code description.now) }
{
    let description = Text::from_ascii(alloc, description)?;
    let name = T::type_name(alloc)?;
    Ok(ApiEndpointResponse {
        content: ContentShape::Json(T::descriptor(alloc)?, name),
        headers: None,
        success: Some(code),
        description,
    })
}

/// A success without content.
pub(crate) fn empty(
    alloc: Global,
    code: StatusCode,
    description: &str,
) -> Result<ApiEndpointResponse, AllocError>
    requires { IsTrue (all_ascii description.now) }
    ensures { IfOk result (λ response. response ≡ success_of contents.Empty code description.now) }
{
    Ok(ApiEndpointResponse {
        content: ContentShape::Empty,
        headers: None,
        success: Some(code),
        description: Text::from_ascii(alloc, description)?,
    })
}

/// The one slot of a body that is JSON of a type.
pub(crate) fn body_slot<T: ApiType>(alloc: Global) -> Result<List<Slot>, AllocError>
    ensures { IfOk result (λ slots. slots ≡ taken.TypedBody T.desc_of T.name_of ∷ []) }
{
    let name = T::type_name(alloc)?;
    only_slot(alloc, Slot::TypedBody(T::descriptor(alloc)?, name))
}

/// This slot alone.
pub(crate) fn only_slot(alloc: Global, slot: Slot) -> Result<List<Slot>, AllocError>
    ensures { IfOk result (λ slots. slots ≡ slot ∷ []) }
{
    let mut slots = List::new(alloc);
    slots.push(slot)?;
    Ok(slots)
}

/// The definition of the library's errors alone.
pub(crate) fn error_table(alloc: Global) -> Result<DescTable, AllocError>
    ensures { IfOk result (λ table. table ≡ error_definition ∷ []) }
{
    let mut table = DescTable::new(alloc);
    add::<HttpErrorResponseBody>(alloc, &mut table)?;
    Ok(table)
}

/// The one definition of a type, whose name is not that of the library's errors, and behind it that of these.
pub(crate) fn body_table<T: ApiType>(alloc: Global) -> Result<DescTable, AllocError>
    requires one { IsOnlyNew T.definitions_of [] }
    requires apart { entry_of T.definitions_of (codes "Error") ≡ None }
    ensures { IfOk result (λ table. table ≡ T.definitions_of ++ error_definition ∷ []) }
{
    let mut table = DescTable::new(alloc);
    add::<T>(alloc, &mut table)?;
    add::<HttpErrorResponseBody>(alloc, &mut table)?;
    Ok(table)
}

// Adds the one definition of a type.
fn add<T: ApiType>(alloc: Global, table: &mut DescTable) -> Result<(), AllocError>
    requires { IsOnlyNew T.definitions_of table.old }
    ensures { OnOk result (table.new ≡ table.old ++ T.definitions_of) }
{
    match T::add_definitions(alloc, table) {
        Ok(()) => Ok(()),
        Err(AddError::OutOfMemory) => Err(AllocError),
        // A name that is new clashes with none.
        Err(AddError::Clash(_)) => unreachable!(),
    }
}

/// A shape whose errors are those of the library.
pub(crate) fn shape_with(
    alloc: Global,
    table: DescTable,
    slots: List<Slot>,
    response: ApiEndpointResponse,
) -> Result<HandlerShape, AllocError>
    ensures { IfOk result (λ shape. shape ≡ shape_with table slots response) }
{
    let error = http_errors(alloc)?;
    Ok(HandlerShape {
        table,
        slots,
        response,
        error: Some(error),
    })
}

fn http_errors(alloc: Global) -> Result<ApiEndpointErrorResponse, AllocError>
    ensures { IfOk result (λ error. error ≡ record { desc = error_desc; name = codes "Error" }) }
{
    let name = Text::from_ascii(alloc, "Error")?;
    Ok(ApiEndpointErrorResponse {
        desc: HttpErrorResponseBody::descriptor(alloc)?,
        name,
    })
}
