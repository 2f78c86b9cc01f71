//! The shapes of the operations: what each takes and gives.
ghost use Rattle.std.specs.Prelude.{◌≡◌, ◌∷◌, [], IfOk};
ghost use Rattle.handler_shapes.specs.declared.slot.Slot.TheVariants as taken;
ghost use Rattle.sample_types.specs.Shapes.{folder_count_shape, inner_shape, point_create_shape};
ghost use Rattle.sample_types.specs.Shapes.{point_drop_shape, point_probe_shape, raw_size_shape};
ghost use Rattle.sample_types.specs.Types.{label_path_desc, probe_header_desc, probe_query_desc};

use crate::point::{LabelPath, Point};
use crate::probe::{Probe, ProbeHeader, ProbeQuery};
use crate::shape_parts::{
    body_slot, body_table, empty, error_table, json_of, only_slot, shape_with,
};
use api_types::ApiType;
use handler_shapes::{HandlerShape, Slot};
use http::StatusCode;
use own_types::Folder;
use schema_values::List;
use std::alloc::{AllocError, Global};

/// The shape of `point_create`: a point is taken, and given back.
pub(crate) fn point_create_shape(alloc: Global) -> Result<HandlerShape, AllocError>
    ensures { IfOk result (λ shape. shape ≡ point_create_shape) }
{
    let table = body_table::<Point>(alloc)?;
    let slots = body_slot::<Point>(alloc)?;
    let response = json_of::<Point>(alloc, StatusCode::CREATED, "successful creation")?;
    shape_with(alloc, table, slots, response)
}

/// The shape of `point_probe`: a path, a query and headers are taken, and what they say is given.
pub(crate) fn point_probe_shape(alloc: Global) -> Result<HandlerShape, AllocError>
    ensures { IfOk result (λ shape. shape ≡ point_probe_shape) }
{
    let table = error_table(alloc)?;
    let slots = probe_slots(alloc)?;
    let response = json_of::<Probe>(alloc, StatusCode::OK, "successful operation")?;
    shape_with(alloc, table, slots, response)
}

fn probe_slots(alloc: Global) -> Result<List<Slot>, AllocError>
    ensures { IfOk result (λ slots. slots ≡ taken.Path label_path_desc
        ∷ taken.Query probe_query_desc ∷ taken.Header probe_header_desc ∷ []) }
{
    let mut slots = List::new(alloc);
    slots.push(Slot::Path(LabelPath::descriptor(alloc)?))?;
    slots.push(Slot::Query(ProbeQuery::descriptor(alloc)?))?;
    slots.push(Slot::Header(ProbeHeader::descriptor(alloc)?))?;
    Ok(slots)
}

/// The shape of `point_drop`: a label is taken from a path, and nothing is given.
pub(crate) fn point_drop_shape(alloc: Global) -> Result<HandlerShape, AllocError>
    ensures { IfOk result (λ shape. shape ≡ point_drop_shape) }
{
    let table = error_table(alloc)?;
    let slots = only_slot(alloc, Slot::Path(LabelPath::descriptor(alloc)?))?;
    let response = empty(alloc, StatusCode::NO_CONTENT, "successful deletion")?;
    shape_with(alloc, table, slots, response)
}

/// The shape of `raw_size`: the bytes of a body are taken, and a number is given.
pub(crate) fn raw_size_shape(alloc: Global) -> Result<HandlerShape, AllocError>
    ensures { IfOk result (λ shape. shape ≡ raw_size_shape) }
{
    let table = error_table(alloc)?;
    let slots = only_slot(alloc, Slot::RawBody)?;
    let response = json_of::<u64>(alloc, StatusCode::OK, "successful operation")?;
    shape_with(alloc, table, slots, response)
}

/// The shape of `folder_count`: a folder is taken, and a number is given.
pub(crate) fn folder_count_shape(alloc: Global) -> Result<HandlerShape, AllocError>
    ensures { IfOk result (λ shape. shape ≡ folder_count_shape) }
{
    let table = body_table::<Folder>(alloc)?;
    let slots = body_slot::<Folder>(alloc)?;
    let response = json_of::<u32>(alloc, StatusCode::OK, "successful operation")?;
    shape_with(alloc, table, slots, response)
}

/// The shape of `inner`: nothing is taken, and a truth value is given.
pub(crate) fn inner_shape(alloc: Global) -> Result<HandlerShape, AllocError>
    ensures { IfOk result (λ shape. shape ≡ inner_shape) }
{
    let table = error_table(alloc)?;
    let response = json_of::<bool>(alloc, StatusCode::OK, "successful operation")?;
    shape_with(alloc, table, List::new(alloc), response)
}
