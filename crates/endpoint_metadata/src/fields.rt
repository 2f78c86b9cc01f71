//! The fields of the structs that descriptors are, or that references lead to.
ghost use Rattle.std.specs.Prelude.{◌≡◌, ◌↔◌, IsTrue, option_map};
ghost use Rattle.std.specs.Option.{option_copied};
ghost use Rattle.descriptors.specs.declared.desc.Desc.{out-Desc};
ghost use Rattle.typed_values.specs.Checks.{TablePasses};
ghost use Rattle.flat_maps.specs.Flat.{resolved};
ghost use Rattle.endpoint_metadata.specs.Structs.{any_fields, fields_at, listed_fields, IsStruct};

use typed_values::{Desc, DescTable, Field};

/// The fields of the struct that a descriptor is, or that references lead to; what is no struct has
/// none.
pub fn listed_fields<'a>(table: &'a DescTable, desc: &'a Desc) -> &'a [Field]
    requires { TablePasses table.now }
    ensures { result.now ≡ listed_fields table.now desc.now }
{
    match any_fields(table, desc) {
        Some(fields) => fields,
        None => &[],
    }
}

/// Whether a descriptor is a struct, itself or behind references.
pub(crate) fn is_struct(table: &DescTable, desc: &Desc) -> bool
    requires { TablePasses table.now }
    ensures { IsTrue result ↔ IsStruct table.now desc.now }
{
    any_fields(table, desc).is_some()
}

fn any_fields<'a>(table: &'a DescTable, desc: &'a Desc) -> Option<&'a [Field]>
    requires { TablePasses table.now }
    ensures { option_map (λ fields. fields.now) result ≡ any_fields table.now desc.now }
{
    match resolved(table, desc) {
        Some(desc) => fields_at(desc),
        None => None,
    }
}

// The fields of a struct, whether it takes unknown names or not.
fn fields_at(desc: &Desc) -> Option<&[Field]>
    ensures { option_map (λ fields. fields.now) result ≡ fields_at (out-Desc desc.now) }
{
    match desc {
        Desc::Struct { fields, .. } => Some(fields.as_slice()),
        _ => None,
    }
}

// The descriptor itself, or what the references that it is lead to.
fn resolved<'a>(table: &'a DescTable, desc: &'a Desc) -> Option<&'a Desc>
    requires { TablePasses table.now }
    ensures { option_copied result ≡ resolved table.now desc.now }
{
    match desc {
        Desc::Ref(name) => match table.find(name) {
            Some(definition) => resolved(table, definition),
            None => None,
        },
        _ => Some(desc),
    }
}
