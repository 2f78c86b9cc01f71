//! What references lead to, in any table: also in one that was not checked, where they may lead on
//! for ever.
ghost use Rattle.std.specs.Prelude.{◌≡◌, ◌↔◌, suc, IsTrue, Some, option_map};
ghost use Rattle.descriptors.specs.declared.desc.Desc.{out-Desc};
ghost use Rattle.std.specs.Option.{option_copied};
ghost use Rattle.flat_maps.specs.Flat.{flat_fields, resolved, resolved_at};
ghost use Rattle.handler_shapes.specs.ScalarTypes.{IsScalarType};
ghost use Rattle.handler_shapes.specs.SlotFields.{struct_fields};
ghost use Rattle.endpoint_parameters.specs.Parameters.{fields_of_resolved, fields_of_struct};
ghost use Rattle.endpoint_parameters.specs.Steps.{IsBehindOptions, IsScalarWithin, is_scalar_level};

use descriptors::{Desc, DescTable, Field};

/// A descriptor without the references that lead to it, where they end. Takes no memory.
pub(crate) fn resolved<'a>(table: &'a DescTable, desc: &'a Desc) -> Option<&'a Desc>
    ensures { option_copied result ≡ resolved table.now desc.now }
{
    resolved_within(table, desc, table.len())
}

// The same along so many references at most.
fn resolved_within<'a>(table: &'a DescTable, desc: &'a Desc, steps: usize) -> Option<&'a Desc>
    ensures { option_copied result ≡ resolved_at table.now (suc steps) desc.now }
{
    match desc {
        Desc::Ref(name) => {
            let definition = table.find(name)?;
            resolved_within(table, definition, steps.checked_sub(1)?)
        }
        _ => Some(desc),
    }
}

/// The fields of the struct that a descriptor is, or that references lead to; none where it is no
/// struct.
pub fn fields_of_struct<'a>(table: &'a DescTable, desc: &'a Desc) -> &'a [Field]
    ensures { result.now ≡ fields_of_struct table.now desc.now }
{
    match resolved(table, desc) {
        Some(desc) => fields_of(desc),
        None => &[],
    }
}

fn fields_of(desc: &Desc) -> &[Field]
    ensures { result.now ≡ fields_of_resolved (Some desc.now) }
{
    match desc {
        Desc::Struct { fields, .. } => fields.as_slice(),
        _ => &[],
    }
}

/// The fields of such a struct, where it takes unknown names.
pub fn open_fields<'a>(table: &'a DescTable, desc: &'a Desc) -> Option<&'a [Field]>
    ensures { option_map (λ fields. fields.now) result ≡ struct_fields table.now desc.now }
{
    match resolved(table, desc) {
        Some(desc) => open_fields_of(desc),
        None => None,
    }
}

fn open_fields_of(desc: &Desc) -> Option<&[Field]>
    ensures { option_map (λ fields. fields.now) result ≡ flat_fields (Some desc.now) }
{
    match desc {
        Desc::Struct {
            fields,
            deny_unknown,
        } => {
            if *deny_unknown {
                None
            } else {
                Some(fields.as_slice())
            }
        }
        _ => None,
    }
}

/// Whether the values of a descriptor are written as one text each, in any table. Takes no memory.
pub fn is_scalar(table: &DescTable, desc: &Desc) -> bool
    ensures { IsTrue result ↔ IsScalarType table.now desc.now }
{
    is_scalar_within(table, desc, table.len())
}

// The same along so many references at most.
fn is_scalar_within(table: &DescTable, desc: &Desc, steps: usize) -> bool
    ensures { IsTrue result ↔ IsScalarWithin table.now steps desc.now }
{
    match behind_options(desc) {
        Desc::Ref(name) => match table.find(name) {
            Some(definition) => match steps.checked_sub(1) {
                Some(left) => is_scalar_within(table, definition, left),
                None => false,
            },
            None => false,
        },
        other => is_scalar_form(other),
    }
}

// What stands behind the options that a descriptor begins with.
fn behind_options(desc: &Desc) -> &Desc
    ensures { IsBehindOptions desc.now result.now }
{
    match desc {
        Desc::Option(inner) => behind_options(inner.get()),
        _ => desc,
    }
}

fn is_scalar_form(desc: &Desc) -> bool
    ensures { result ≡ is_scalar_level (out-Desc desc.now) }
{
    matches!(
        desc,
        Desc::Bool | Desc::Char | Desc::Int { .. } | Desc::Text { .. } | Desc::Enumeration { .. }
    )
}
