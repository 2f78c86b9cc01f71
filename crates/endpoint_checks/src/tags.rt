//! The causes that stand against the tags of an endpoint.
ghost use Rattle.std.specs.Prelude.{◌≡◌, ◌++◌, ◌↔◌, ℕ, List as ListOf, IfOk, IsTrue, codes};
ghost use Rattle.endpoint_parameters.specs.Told.{IsTried, Says};
ghost use Rattle.endpoint_checks.specs.Tags.{HasUnknownTag, LacksOnlyTag, LacksTag};

use api_declarations::Declaration;
use endpoint_parameters::{Condition, first_of};
use schema_values::Text;
use std::alloc::{AllocError, Global};
use tag_config::{EndpointTagPolicy, TagConfig};

/// What is told of an endpoint that has no tag where at least one is asked for.
pub fn at_least_one_told(
    alloc: Global,
    config: &TagConfig,
    endpoint: &Declaration<'_>,
) -> Result<Option<Text>, AllocError>
    ensures { IfOk result (IsTried (Says (LacksTag config.now endpoint.now)
        (codes "At least one tag is required"))) }
{
    if !lacks_tag(config, endpoint) {
        return Ok(None);
    }
    Ok(Some(Text::from_ascii(alloc, "At least one tag is required")?))
}

fn lacks_tag(config: &TagConfig, endpoint: &Declaration<'_>) -> bool
    ensures { IsTrue result ↔ LacksTag config.now endpoint.now }
{
    endpoint.visible && config.policy == EndpointTagPolicy::AtLeastOne && endpoint.tags.is_empty()
}

/// What is told of an endpoint that has no tag or several where exactly one is asked for.
pub fn exactly_one_told(
    alloc: Global,
    config: &TagConfig,
    endpoint: &Declaration<'_>,
) -> Result<Option<Text>, AllocError>
    ensures { IfOk result (IsTried (Says (LacksOnlyTag config.now endpoint.now)
        (codes "Exactly one tag is required"))) }
{
    if !lacks_only_tag(config, endpoint) {
        return Ok(None);
    }
    Ok(Some(Text::from_ascii(alloc, "Exactly one tag is required")?))
}

fn lacks_only_tag(config: &TagConfig, endpoint: &Declaration<'_>) -> bool
    ensures { IsTrue result ↔ LacksOnlyTag config.now endpoint.now }
{
    endpoint.visible && config.policy == EndpointTagPolicy::ExactlyOne && endpoint.tags.len() != 1
}

/// A tag is not configured.
#[derive(Drop)]
struct Unknown<'s> {
    config: &'s TagConfig,
}

impl<'s> Condition<Text> for Unknown<'s> {
    ghost use Rattle.endpoint_checks.specs.Tags.{IsUnknownTag};

    ghost Holds = { λ s. IsUnknownTag s.config.now };

    fn holds(&self, tag: &Text) -> bool {
        let config = self.config;
        !config.tags.contains_key(tag)
    }
}

/// What is told of the first tag that is not configured, where others are not allowed.
pub fn invalid_tag_told(
    alloc: Global,
    config: &TagConfig,
    endpoint: &Declaration<'_>,
) -> Result<Option<Text>, AllocError>
    ensures { IfOk result (IsTried (λ message. (tag : ListOf ℕ)
        × HasUnknownTag config.now endpoint.now tag × (message ≡ codes "Invalid tag: " ++ tag))) }
{
    if !endpoint.visible || config.allow_other_tags {
        return Ok(None);
    }
    let Some(tag) = first_of(&Unknown { config }, endpoint.tags.as_slice()) else {
        return Ok(None);
    };
    let mut message = Text::from_ascii(alloc, "Invalid tag: ")?;
    message.push_text(tag)?;
    Ok(Some(message))
}
