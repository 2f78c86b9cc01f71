// The references that stand in descriptors.
ghost use Rattle.std.specs.Prelude.{◌≡◌, ◌++◌, OnOk};
ghost use Rattle.std.specs.List.{flat_map};
ghost use Rattle.api_documents.specs.References.{references, references_in_fields};
ghost use Rattle.api_documents.specs.References.{references_in_tagged, references_in_variant};

use schema_values::{List, Text};
use std::alloc::{AllocError, Global};
use typed_values::{Desc, Field, TaggedVariant, Variant};

/// Adds the names of the references that stand in a descriptor.
#[cycle(references)]
pub(crate) fn add_references(
    alloc: Global,
    names: &mut List<Text>,
    desc: &Desc,
) -> Result<(), AllocError>
    ensures { OnOk result (names.new ≡ names.old ++ references desc.now) }
{
    match desc {
        Desc::Any | Desc::Never | Desc::Null | Desc::Enumeration { .. } => Ok(()),
        Desc::Bool | Desc::Char | Desc::Int { .. } | Desc::Text { .. } => Ok(()),
        Desc::Map(value) => add_references(alloc, names, value.get()),
        Desc::Option(inner) => add_references(alloc, names, inner.get()),
        Desc::List { item, .. } => add_references(alloc, names, item.get()),
        Desc::Struct { fields, .. } => add_field_references(alloc, names, fields.as_slice()),
        Desc::External { variants } => add_payload_references(alloc, names, variants.as_slice()),
        Desc::Tagged { variants, .. } => add_variant_references(alloc, names, variants.as_slice()),
        Desc::Untagged { alternatives } => {
            add_alternative_references(alloc, names, alternatives.as_slice())
        }
        Desc::Ref(name) => names.push(name.copy(alloc)?),
    }
}

/// Adds those of the types of fields.
#[cycle(references)]
pub(crate) fn add_field_references(
    alloc: Global,
    names: &mut List<Text>,
    fields: &[Field],
) -> Result<(), AllocError>
    ensures { OnOk result (names.new ≡ names.old ++ references_in_fields fields.now) }
{
    for field in fields {
        add_references(alloc, names, &field.desc)?;
    }
    Ok(())
}

#[cycle(references)]
fn add_payload_references(
    alloc: Global,
    names: &mut List<Text>,
    variants: &[Variant],
) -> Result<(), AllocError>
    ensures { OnOk result (names.new ≡ names.old ++ flat_map references_in_variant variants.now) }
{
    for variant in variants {
        if let Some(payload) = &variant.payload {
            add_references(alloc, names, payload)?;
        }
    }
    Ok(())
}

#[cycle(references)]
fn add_variant_references(
    alloc: Global,
    names: &mut List<Text>,
    variants: &[TaggedVariant],
) -> Result<(), AllocError>
    ensures { OnOk result (names.new ≡ names.old ++ flat_map references_in_tagged variants.now) }
{
    for variant in variants {
        add_field_references(alloc, names, variant.fields.as_slice())?;
    }
    Ok(())
}

#[cycle(references)]
fn add_alternative_references(
    alloc: Global,
    names: &mut List<Text>,
    alternatives: &[Desc],
) -> Result<(), AllocError>
    ensures { OnOk result (names.new ≡ names.old ++ flat_map references alternatives.now) }
{
    for alternative in alternatives {
        add_references(alloc, names, alternative)?;
    }
    Ok(())
}
