// The tags of a document.
ghost use Rattle.std.specs.Prelude.{◌≡◌, IfOk, OnOk, map, option_map};
ghost use Rattle.std.specs.Option.{option_copied};
ghost use Rattle.semver.specs.Identifiers.{parts_of};
ghost use Rattle.api_documents.specs.Listed.{listed};
ghost use Rattle.api_documents.specs.Ordered.{in_text_order, with_texts};
ghost use Rattle.api_documents.specs.Tags.{external_docs, tag_names, tag_with, tags_of};

use api_declarations::Declaration;
use openapi_values::{ExternalDocs, TagObject};
use schema_values::{List, Text, copy_text};
use semver::Version;
use std::alloc::{AllocError, Global};
use std::collections::{BTreeMap, BTreeSet};
use tag_config::{TagDetails, TagExternalDocs};

/// The tags that are configured and those of the listed endpoints, in the order of their names.
pub(crate) fn tags(
    alloc: Global,
    configured: &BTreeMap<Text, TagDetails>,
    declarations: &[Declaration<'_>],
    version: &Version,
) -> Result<List<TagObject>, AllocError>
    ensures { IfOk result (λ tags. tags ≡ tags_of configured.now.entries
        (listed (parts_of version.now) declarations.now)) }
{
    let mut tags = List::new(alloc);
    for name in tag_names(alloc, configured, declarations, version)? {
        let tag = tag_of(alloc, configured.get(&name), name)?;
        tags.push(tag)?;
    }
    Ok(tags)
}

fn tag_names(
    alloc: Global,
    configured: &BTreeMap<Text, TagDetails>,
    declarations: &[Declaration<'_>],
    version: &Version,
) -> Result<BTreeSet<Text>, AllocError>
    ensures { IfOk result (λ names. names.keys ≡ tag_names configured.now.entries
        (listed (parts_of version.now) declarations.now)) }
{
    let mut names = configured_names(alloc, configured)?;
    for declaration in declarations {
        if declaration.is_listed(version) {
            add_names(alloc, &mut names, declaration.tags.as_slice())?;
        }
    }
    Ok(names)
}

fn configured_names(
    alloc: Global,
    configured: &BTreeMap<Text, TagDetails>,
) -> Result<BTreeSet<Text>, AllocError>
    ensures { IfOk result (λ names. names.keys
        ≡ in_text_order (map (λ entry. entry.0) configured.now.entries)) }
{
    let mut names = BTreeSet::new(alloc);
    for (name, _) in configured {
        names.insert(name.copy(alloc)?)?;
    }
    Ok(names)
}

fn add_names(alloc: Global, names: &mut BTreeSet<Text>, tags: &[Text]) -> Result<(), AllocError>
    ensures { OnOk result (names.new.keys ≡ with_texts names.old.keys tags.now) }
{
    for tag in tags {
        names.insert(tag.copy(alloc)?)?;
    }
    Ok(())
}

// A tag, with what is configured of it.
fn tag_of(alloc: Global, details: Option<&TagDetails>, name: Text) -> Result<TagObject, AllocError>
    ensures { IfOk result (λ tag. tag ≡ tag_with name (option_copied details.entry)) }
{
    match details {
        Some(details) => Ok(TagObject {
            description: copy_text(alloc, &details.description)?,
            external_docs: external_docs(alloc, &details.external_docs)?,
            name,
        }),
        None => Ok(TagObject {
            name,
            description: None,
            external_docs: None,
        }),
    }
}

fn external_docs(
    alloc: Global,
    docs: &Option<TagExternalDocs>,
) -> Result<Option<ExternalDocs>, AllocError>
    ensures { IfOk result (λ copy. copy ≡ option_map external_docs docs.now) }
{
    match docs {
        Some(docs) => Ok(Some(ExternalDocs {
            description: copy_text(alloc, &docs.description)?,
            url: docs.url.copy(alloc)?,
        })),
        None => Ok(None),
    }
}
