// What an error tells of a single descriptor.
ghost use Rattle.std.specs.Prelude.{◌≡◌, ◌≢◌, ◌↔◌, IsTrue, map, Contains};
ghost use Rattle.std.specs.List.{AllByRecursion, list_any};
ghost use Rattle.schema_values.specs.Sound.{AreDistinct};
ghost use Rattle.typed_values.specs.declared.check.TableError.TheVariants.{BadPresence, BadRange};
ghost use Rattle.descriptors.specs.declared.desc.Field.{Field};
ghost use Rattle.descriptors.specs.declared.desc.TaggedVariant.{TaggedVariant};
ghost use Rattle.typed_values.specs.Causes.{Tells};
ghost use Rattle.typed_values.specs.Checks as meant;
ghost use Rattle.descriptors.specs.Definitions.{tagged_fields};
ghost use Rattle.typed_values.specs.Guarded.{IsGuarded};
ghost use Rattle.typed_values.specs.Lengths.{IsShort};
ghost use Rattle.typed_values.specs.Checks.{HasDoubledName, names_of_fields, IsDangling, IsEmptyChoice};
ghost use Rattle.typed_values.specs.Checks.{IsNullOfNull, HasTagClash, IsOption, IsBadField, HasBadPresence};

use crate::check::TableError;
use crate::fitting::is_value;
use crate::ranges::are_bounds_right;
use crate::search::takes_null;
use descriptors::{Desc, DescTable, Field, Presence, TaggedVariant, Variant};
use schema_values::{HasName, Text};

/// Whether what an error tells holds of a descriptor.
pub(crate) fn tells(error: TableError, table: &DescTable, desc: &Desc) -> bool
    requires { error ≡ BadPresence → IsGuarded table.now }
    ensures told { IsTrue result ↔ Tells error.entry table.now desc.now }
    ensures lengths { error.entry ≡ BadRange → IsShort desc.now }
{
    match error {
        TableError::DoubledName => has_doubled_name(desc),
        TableError::Dangling => is_dangling(table, desc),
        TableError::EmptyEnumeration => is_empty_choice(desc),
        TableError::NullOfNull => is_null_of_null(table, desc),
        TableError::TagClash => has_tag_clash(desc),
        TableError::BadRange => !are_bounds_right(desc),
        TableError::BadPresence => has_bad_presence(table, desc),
        TableError::BadName | TableError::Unguarded(_) => false,
    }
}

fn has_doubled_name(desc: &Desc) -> bool
    ensures { IsTrue result ↔ HasDoubledName desc.now }
{
    match desc {
        Desc::Struct { fields, .. } => !are_distinct(fields.as_slice()),
        Desc::Enumeration { names } => !are_distinct(names.as_slice()),
        Desc::External { variants } => !are_distinct(variants.as_slice()),
        Desc::Tagged { variants, .. } => {
            !are_distinct(variants.as_slice()) || has_doubled_field(variants.as_slice())
        }
        _ => false,
    }
}

fn has_doubled_field(variants: &[TaggedVariant]) -> bool
    ensures { IsTrue result ↔
        ((v : TaggedVariant) × Contains variants.now v × (AreDistinct (names_of_fields v) → ⊥)) }
{
    for variant in variants {
        if !are_distinct(variant.fields.as_slice()) {
            return true;
        }
    }
    false
}

fn are_distinct<T: HasName>(items: &[T]) -> bool
    ensures { IsTrue result ↔ AreDistinct (map T.name_of items.now) }
{
    let mut rest = items;
    while let Some((first, others)) = rest.split_first() {
        if !is_new_name(first.name(), others) {
            return false;
        }
        rest = others;
    }
    true
}

fn is_new_name<T: HasName>(name: &Text, items: &[T]) -> bool
    ensures { IsTrue result ↔ AllByRecursion (λ item. name.now ≢ T.name_of item) items.now }
{
    for item in items {
        if name.equals(item.name()) {
            return false;
        }
    }
    true
}

fn is_dangling(table: &DescTable, desc: &Desc) -> bool
    ensures { IsTrue result ↔ IsDangling table.now desc.now }
{
    match desc {
        Desc::Ref(name) => table.find(name).is_none(),
        _ => false,
    }
}

fn is_empty_choice(desc: &Desc) -> bool
    ensures { IsTrue result ↔ IsEmptyChoice desc.now }
{
    match desc {
        Desc::Untagged { alternatives } => alternatives.is_empty(),
        Desc::Enumeration { names } => names.is_empty(),
        Desc::External { variants } => !has_payload(variants.as_slice()),
        Desc::Tagged { variants, .. } => variants.is_empty(),
        _ => false,
    }
}

fn has_payload(variants: &[Variant]) -> bool
    ensures { result ≡ list_any meant.has_payload variants.now }
{
    variants.iter().any(|variant| variant.payload.is_some())
}

fn is_null_of_null(table: &DescTable, desc: &Desc) -> bool
    ensures { IsTrue result ↔ IsNullOfNull table.now desc.now }
{
    match desc {
        Desc::Option(inner) => takes_null(table, inner.get()),
        _ => false,
    }
}

fn has_tag_clash(desc: &Desc) -> bool
    ensures { IsTrue result ↔ HasTagClash desc.now }
{
    match desc {
        Desc::Tagged { tag, variants } => some_field_named(tag, variants.as_slice()),
        _ => false,
    }
}

fn some_field_named(name: &Text, variants: &[TaggedVariant]) -> bool
    ensures { IsTrue result ↔ ((v : TaggedVariant) × (f : Field) × Contains variants.now v
        × Contains (tagged_fields v) f × (f.name ≡ name.now)) }
{
    for variant in variants {
        if !is_new_name(name, variant.fields.as_slice()) {
            return true;
        }
    }
    false
}

fn has_bad_presence(table: &DescTable, desc: &Desc) -> bool
    requires { IsGuarded table.now }
    ensures { IsTrue result ↔ HasBadPresence table.now desc.now }
{
    match desc {
        Desc::Struct { fields, .. } => some_bad_field(table, fields.as_slice()),
        Desc::Tagged { variants, .. } => some_bad_variant(table, variants.as_slice()),
        _ => false,
    }
}

fn some_bad_variant(table: &DescTable, variants: &[TaggedVariant]) -> bool
    requires { IsGuarded table.now }
    ensures { IsTrue result ↔ ((v : TaggedVariant) × (f : Field) × Contains variants.now v
        × Contains (tagged_fields v) f × IsBadField table.now f) }
{
    for variant in variants {
        if some_bad_field(table, variant.fields.as_slice()) {
            return true;
        }
    }
    false
}

fn some_bad_field(table: &DescTable, fields: &[Field]) -> bool
    requires { IsGuarded table.now }
    ensures { IsTrue result ↔ ((f : Field) × Contains fields.now f × IsBadField table.now f) }
{
    for field in fields {
        if is_bad_field(table, field) {
            return true;
        }
    }
    false
}

fn is_bad_field(table: &DescTable, field: &Field) -> bool
    requires { IsGuarded table.now }
    ensures { IsTrue result ↔ IsBadField table.now field.now }
{
    match &field.presence {
        Presence::Required => false,
        Presence::Nullable => !is_option(&field.desc),
        Presence::Skipped => takes_null(table, &field.desc),
        Presence::Default(tree) => !is_value(table, &field.desc, tree),
    }
}

fn is_option(desc: &Desc) -> bool
    ensures { IsTrue result ↔ IsOption desc.now }
{
    matches!(desc, Desc::Option(_))
}
