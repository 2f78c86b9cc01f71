//! Which tags endpoints may have.
ghost use Rattle.std.specs.Prelude.{◌≡◌, [], true, IfOk};

use crate::details::TagDetails;
use crate::policy::EndpointTagPolicy;
use schema_values::Text;
use std::alloc::{AllocError, Global};
use std::collections::BTreeMap;
use std::marker::Model;

/// Which tags endpoints may have, and what documents say of these. Contracts see the tags as a
/// list, in the order of their names.
#[derive(Drop)]
pub struct TagConfig {
    /// Whether endpoints may have other tags than these.
    pub allow_other_tags: bool,
    /// How many tags an endpoint has.
    pub policy: EndpointTagPolicy,
    /// The tags, with what documents say of them.
    pub tags: BTreeMap<Text, TagDetails>,
}

impl Model for TagConfig {
    ghost use Rattle.tag_config.specs.Configurations.{Configuration};

    ghost Value = { Configuration };

    ghost view = { λ config. record {
      allow_other_tags = config.allow_other_tags;
      policy = config.policy;
      tags = config.tags.entries;
    } };
}

impl TagConfig {
    /// Endpoints may have any tags, and documents say nothing of them. Takes no memory yet.
    pub fn default_config(alloc: Global) -> TagConfig
        ensures { result ≡ record {
          allow_other_tags = true;
          policy = EndpointTagPolicy.Any;
          tags = [];
        } }
    {
        TagConfig {
            allow_other_tags: true,
            policy: EndpointTagPolicy::Any,
            tags: BTreeMap::new(alloc),
        }
    }

    /// A configuration equal to this one.
    pub fn copy(&self, alloc: Global) -> Result<TagConfig, AllocError>
        ensures { IfOk result (λ copy. copy ≡ self.now) }
    {
        Ok(TagConfig {
            allow_other_tags: self.allow_other_tags,
            policy: self.policy,
            tags: copy_tags(alloc, &self.tags)?,
        })
    }
}

fn copy_tags(
    alloc: Global,
    tags: &BTreeMap<Text, TagDetails>,
) -> Result<BTreeMap<Text, TagDetails>, AllocError>
    ensures { IfOk result (λ copies. copies.entries ≡ tags.now.entries) }
{
    let mut copies = BTreeMap::new(alloc);
    for (name, details) in tags.iter() {
        copies.insert(name.copy(alloc)?, details.copy(alloc)?)?;
    }
    Ok(copies)
}
