//! Values of Rust types from the variables of a path.
ghost use Rattle.std.specs.Prelude.{◌≡◌, IfErr, IfOk};
ghost use Rattle.typed_values.specs.Checks.{TablePasses, DescPasses};
ghost use Rattle.typed_values.specs.Fits.{Fits};
ghost use Rattle.typed_values.specs.Faults.{Trouble, fault_of};
ghost use Rattle.flat_maps.specs.Flat.{FlatDenotes, flat_told};
ghost use Rattle.flat_maps.specs.Maps.{map_values};
ghost use Rattle.flat_maps.specs.TypedMaps.{HasOwnTable, own_table};
ghost use Rattle.api_extract.specs.PathParams.{IsPathRefusal, path_error};

use crate::refusals::message;
use api_types::ApiType;
use flat_maps::{decode_map, own_table};
use http_status::{HttpError, HttpRefusal};
use schema_values::VariableSet;
use std::alloc::{AllocError, Global};
use typed_values::{DecodeError, Desc, DescTable, Fault, Tree};

/// The value that the variables of a path denote (OpenAPI 3.0.3, Parameter Object): a struct that
/// takes unknown names. Where they denote none, an error 400 tells the first fault.
pub fn http_extract_path_params<T: ApiType>(
    alloc: Global,
    path_params: &VariableSet,
) -> Result<T, HttpRefusal>
    requires { HasOwnTable T.definitions_of T.desc_of }
    ensures value { IfOk result (λ value. FlatDenotes (own_table T.definitions_of) T.desc_of
        (map_values (λ value. value) path_params.now) (T.tree_of value)) }
    ensures refused { IfErr result (IsPathRefusal (flat_told (own_table T.definitions_of)
        (map_values (λ value. value) path_params.now) T.desc_of)) }
{
    let Ok(table) = own_table::<T>(alloc) else {
        return Err(HttpRefusal::OutOfMemory);
    };
    let desc = T::descriptor(alloc)?;
    let tree = decode_variables(alloc, &table, &desc, path_params)?;
    Ok(T::from_tree(alloc, &tree)?)
}

// The tree that variables denote, or the error of the first fault.
fn decode_variables(
    alloc: Global,
    table: &DescTable,
    desc: &Desc,
    variables: &VariableSet,
) -> Result<Tree, HttpRefusal>
    requires table { TablePasses table.now }
    requires desc { DescPasses table.now desc.now }
    ensures denotes { IfOk result
        (FlatDenotes table.now desc.now (map_values (λ value. value) variables.now)) }
    ensures fits { IfOk result (Fits table.now desc.now) }
    ensures refused { IfErr result (IsPathRefusal
        (flat_told table.now (map_values (λ value. value) variables.now) desc.now)) }
{
    match decode_map(alloc, table, desc, variables) {
        Ok(tree) => Ok(tree),
        Err(DecodeError::Fault(fault)) => Err(HttpRefusal::Http(path_error(alloc, &fault)?)),
        Err(DecodeError::OutOfMemory) => Err(HttpRefusal::OutOfMemory),
    }
}

fn path_error(alloc: Global, fault: &Fault) -> Result<HttpError, AllocError>
    ensures { (trouble : Trouble) → fault.now ≡ fault_of trouble
        → IfOk result (λ error. error ≡ path_error trouble) }
{
    let message = message(alloc, "bad parameter in URL path: ", fault)?;
    HttpError::for_bad_request(alloc, None, message)
}
