// What references lead to.
ghost use Rattle.std.specs.Prelude.{◌≡◌, Contains, IfSome, List, Some, option_map};
ghost use Rattle.std.specs.Option.{option_copied};
ghost use Rattle.descriptors.specs.declared.desc.Field.{Field};
ghost use Rattle.descriptors.specs.declared.table.Definition.{Definition};
ghost use Rattle.typed_values.specs.Checks.{TablePasses, DescPasses};
ghost use Rattle.flat_maps.specs.Flat.{flat_fields, resolved};
ghost use Rattle.flat_maps.specs.Held.{held};

use descriptors::{Desc, DescTable, Field};

/// The descriptor itself, or what the references that it is lead to.
pub(crate) fn resolve<'a>(table: &'a DescTable, desc: &'a Desc) -> Option<&'a Desc>
    requires table { TablePasses table.now }
    requires desc { DescPasses table.now desc.now }
    ensures resolved { option_copied result ≡ resolved table.now desc.now }
    ensures passes { IfSome result (λ desc. DescPasses table.now desc.now) }
{
    match desc {
        Desc::Ref(name) => match table.find(name) {
            Some(definition) => resolve(table, definition),
            None => None,
        },
        _ => Some(desc),
    }
}

/// What references lead to, and behind an option that stands there what they lead to from it.
pub(crate) fn held<'a>(table: &'a DescTable, desc: &'a Desc) -> Option<&'a Desc>
    requires table { TablePasses table.now }
    requires desc { DescPasses table.now desc.now }
    ensures { option_copied result ≡ held table.now desc.now }
{
    match resolve(table, desc) {
        Some(resolved) => match resolved {
            Desc::Option(inner) => resolve(table, inner.get()),
            _ => Some(resolved),
        },
        None => None,
    }
}

/// The fields of the struct that a descriptor is or that references lead to, where it takes unknown
/// names.
pub fn fields_of<'a>(table: &'a DescTable, desc: &'a Desc) -> Option<&'a [Field]>
    requires table { TablePasses table.now }
    requires desc { DescPasses table.now desc.now }
    ensures fields { option_map (λ fields. fields.now) result
        ≡ flat_fields (resolved table.now desc.now) }
    ensures passes { IfSome result (λ fields.
        (f : Field) → Contains fields.now f → DescPasses table.now f.desc) }
{
    match resolve(table, desc) {
        Some(resolved) => open_fields(resolved),
        None => None,
    }
}

// The fields of a struct that takes unknown names.
fn open_fields(desc: &Desc) -> Option<&[Field]>
    ensures fields { option_map (λ fields. fields.now) result ≡ flat_fields (Some desc.now) }
    ensures passes { (table : List Definition) → TablePasses table → DescPasses table desc.now
        → IfSome result (λ fields. (f : Field) → Contains fields.now f → DescPasses table f.desc) }
{
    match desc {
        Desc::Struct {
            fields,
            deny_unknown,
        } => {
            if *deny_unknown {
                None
            } else {
                Some(fields.as_slice())
            }
        }
        _ => None,
    }
}
