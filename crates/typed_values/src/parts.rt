// Whether what an error tells holds of a descriptor that stands in another.
ghost use Rattle.std.specs.Prelude.{◌≡◌, ◌↔◌, false, IsTrue, Some, Contains};
ghost use Rattle.typed_values.specs.declared.check.TableError.TheVariants.{BadPresence, BadRange};
ghost use Rattle.descriptors.specs.declared.desc.Desc.{Desc};
ghost use Rattle.descriptors.specs.declared.desc.Field.{Field};
ghost use Rattle.descriptors.specs.declared.desc.TaggedVariant.{TaggedVariant};
ghost use Rattle.descriptors.specs.declared.desc.Variant.{Variant};
ghost use Rattle.typed_values.specs.Causes.{AppliesToDesc};
ghost use Rattle.descriptors.specs.Definitions.{tagged_fields};
ghost use Rattle.typed_values.specs.Guarded.{IsGuarded};
ghost use Rattle.typed_values.specs.Lengths.{HasShortLengths};

use crate::check::TableError;
use crate::flaws::tells;
use descriptors::{Desc, DescTable, Field, TaggedVariant, Variant};

/// Whether an error applies to a descriptor or to one that stands in it.
#[cycle(applies)]
pub(crate) fn applies(error: TableError, table: &DescTable, desc: &Desc) -> bool
    requires { error ≡ BadPresence → IsGuarded table.now }
    ensures told { IsTrue result ↔ AppliesToDesc table.now desc.now error.entry }
    ensures lengths { error.entry ≡ BadRange → result ≡ false → HasShortLengths desc.now }
{
    if tells(error, table, desc) {
        return true;
    }
    match desc {
        Desc::Option(inner) => applies(error, table, inner.get()),
        Desc::List { item, .. } => applies(error, table, item.get()),
        Desc::Map(value) => applies(error, table, value.get()),
        Desc::Struct { fields, .. } => applies_to_some_field(error, table, fields.as_slice()),
        Desc::External { variants } => applies_to_some_payload(error, table, variants.as_slice()),
        Desc::Tagged { variants, .. } => applies_to_some_variant(error, table, variants.as_slice()),
        Desc::Untagged { alternatives } => applies_to_some(error, table, alternatives.as_slice()),
        _ => false,
    }
}

#[cycle(applies)]
fn applies_to_some_field(error: TableError, table: &DescTable, fields: &[Field]) -> bool
    requires { error ≡ BadPresence → IsGuarded table.now }
    ensures told { IsTrue result ↔
        ((f : Field) × Contains fields.now f × AppliesToDesc table.now f.desc error.entry) }
    ensures lengths { error.entry ≡ BadRange → result ≡ false → (f : Field) → Contains fields.now f
        → HasShortLengths f.desc }
{
    for field in fields {
        if applies(error, table, &field.desc) {
            return true;
        }
    }
    false
}

#[cycle(applies)]
fn applies_to_some_payload(error: TableError, table: &DescTable, variants: &[Variant]) -> bool
    requires { error ≡ BadPresence → IsGuarded table.now }
    ensures told { IsTrue result ↔ ((v : Variant) × (d : Desc) × Contains variants.now v
        × (v.payload ≡ Some d) × AppliesToDesc table.now d error.entry) }
    ensures lengths { error.entry ≡ BadRange → result ≡ false → (v : Variant) (d : Desc)
        → Contains variants.now v → v.payload ≡ Some d → HasShortLengths d }
{
    for variant in variants {
        if let Some(payload) = &variant.payload {
            if applies(error, table, payload) {
                return true;
            }
        }
    }
    false
}

#[cycle(applies)]
fn applies_to_some_variant(error: TableError, table: &DescTable, variants: &[TaggedVariant]) -> bool
    requires { error ≡ BadPresence → IsGuarded table.now }
    ensures told { IsTrue result ↔ ((v : TaggedVariant) × (f : Field) × Contains variants.now v
        × Contains (tagged_fields v) f × AppliesToDesc table.now f.desc error.entry) }
    ensures lengths { error.entry ≡ BadRange → result ≡ false → (v : TaggedVariant) (f : Field)
        → Contains variants.now v → Contains (tagged_fields v) f → HasShortLengths f.desc }
{
    for variant in variants {
        if applies_to_some_field(error, table, variant.fields.as_slice()) {
            return true;
        }
    }
    false
}

#[cycle(applies)]
fn applies_to_some(error: TableError, table: &DescTable, descs: &[Desc]) -> bool
    requires { error ≡ BadPresence → IsGuarded table.now }
    ensures told { IsTrue result ↔ ((d : Desc) × Contains descs.now d
        × AppliesToDesc table.now d error.entry) }
    ensures lengths { error.entry ≡ BadRange → result ≡ false → (d : Desc) → Contains descs.now d
        → HasShortLengths d }
{
    for desc in descs {
        if applies(error, table, desc) {
            return true;
        }
    }
    false
}
