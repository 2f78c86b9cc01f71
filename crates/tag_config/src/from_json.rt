//! Configurations from JSON.
ghost use Rattle.std.specs.Prelude.{◌≡◌, [], IfErr, IfOk, IsTrue};
ghost use Rattle.schema_values.specs.Ascii.{all_ascii};
ghost use Rattle.schema_values.specs.Sound.{IsSound};
ghost use Rattle.descriptors.specs.declared.desc.Desc.TheVariants as descs;
ghost use Rattle.descriptors.specs.declared.tree.Tree.TheVariants as trees;
ghost use Rattle.typed_values.specs.Answer.{IfFault, IsFaultOf};
ghost use Rattle.typed_values.specs.Checks.{DescPasses};
ghost use Rattle.typed_values.specs.Denotes.{JsonDenotes, below, refused, told};
ghost use Rattle.typed_values.specs.Fits.{Fits};
ghost use Rattle.typed_values.specs.declared.fault.FaultKind.TheVariants as kinds;
ghost use Rattle.typed_values.specs.declared.fault.Place.TheVariants as places;
ghost use Rattle.api_types.specs.Heads.{required};
ghost use Rattle.api_types.specs.StructTypes.{field_with};
ghost use Rattle.tag_config.specs.Configurations.{Configuration, DenotesConfiguration};
ghost use Rattle.tag_config.specs.Configurations.{IsConfigurationTree, TreesFit};
ghost use Rattle.tag_config.specs.Configurations.{configuration_desc, configuration_told};
ghost use Rattle.tag_config.specs.Configurations.{configuration_tree, is_doubled, name_by, stands};
ghost use Rattle.tag_config.specs.Details.{details_desc};

use crate::config::TagConfig;
use crate::details::TagDetails;
use crate::policy::EndpointTagPolicy;
use api_types::ApiType;
use schema_values::{Json, List, Text};
use std::alloc::{AllocError, Global};
use std::collections::BTreeMap;
use typed_values::{DecodeError, Desc, DescTable, Field, Presence, Stop, Tree, decode_json};

impl TagConfig {
    /// The configuration that sound JSON denotes: an object with `allow_other_tags`, `policy` (or,
    /// by its old name, `endpoint_tag_policy`) and `tags` (or `tag_definitions`). A field under
    /// both of its names is a fault. Where no configuration is denoted, the first fault is told.
    pub fn from_json(alloc: Global, json: &Json) -> Result<TagConfig, DecodeError>
        requires { IsSound json.now }
        ensures denotes { IfOk result (DenotesConfiguration json.now) }
        ensures fault { IfErr result (λ error. IfFault error
            (IsFaultOf (configuration_told json.now))) }
        ensures refused { IfErr result (λ error. IfFault error
            (λ _. (config : Configuration) → ¬ DenotesConfiguration json.now config)) }
    {
        if is_doubled(json, "policy", "endpoint_tag_policy") {
            return Err(doubled(alloc, "policy")?);
        }
        if is_doubled(json, "tags", "tag_definitions") {
            return Err(doubled(alloc, "tags")?);
        }
        let policy = name_by(json, "policy", "endpoint_tag_policy");
        let tags = name_by(json, "tags", "tag_definitions");
        decoded(alloc, policy, tags, json)
    }
}

// The configuration of an object whose two fields are named so.
fn decoded(alloc: Global, policy: &str, tags: &str, json: &Json) -> Result<TagConfig, DecodeError>
    requires sound { IsSound json.now }
    requires policy { IsTrue (all_ascii policy.now) }
    requires tags { IsTrue (all_ascii tags.now) }
    requires passes { DescPasses [] (configuration_desc policy.now tags.now) }
    ensures denotes { IfOk result (λ config. JsonDenotes [] (configuration_desc policy.now tags.now)
        json.now (configuration_tree config)) }
    ensures fault { IfErr result (λ error. IfFault error (IsFaultOf
        (told [] (configuration_desc policy.now tags.now) json.now
        (configuration_desc policy.now tags.now)))) }
{
    let tree = tree_of(alloc, policy, tags, json)?;
    Ok(configuration_of(alloc, &tree)?)
}

// The tree of an object whose two fields are named so.
fn tree_of(alloc: Global, policy: &str, tags: &str, json: &Json) -> Result<Tree, DecodeError>
    requires sound { IsSound json.now }
    requires policy { IsTrue (all_ascii policy.now) }
    requires tags { IsTrue (all_ascii tags.now) }
    requires passes { DescPasses [] (configuration_desc policy.now tags.now) }
    ensures denotes { IfOk result
        (JsonDenotes [] (configuration_desc policy.now tags.now) json.now) }
    ensures fits { IfOk result (Fits [] (configuration_desc policy.now tags.now)) }
    ensures fault { IfErr result (λ error. IfFault error (IsFaultOf
        (told [] (configuration_desc policy.now tags.now) json.now
        (configuration_desc policy.now tags.now)))) }
{
    let desc = configuration_desc(alloc, policy, tags)?;
    decode_json(alloc, &DescTable::new(alloc), &desc, json)
}

// Whether a field stands by both of its names.
fn is_doubled(json: &Json, new: &str, old: &str) -> bool
    requires new { IsTrue (all_ascii new.now) }
    requires old { IsTrue (all_ascii old.now) }
    ensures { result ≡ is_doubled (record { new = new.now; old = old.now }) json.now }
{
    stands(json, new) && stands(json, old)
}

// The name by which a field stands.
fn name_by<'a>(json: &Json, new: &'a str, old: &'a str) -> &'a str
    requires new { IsTrue (all_ascii new.now) }
    requires old { IsTrue (all_ascii old.now) }
    ensures name { result.now ≡ name_by (record { new = new.now; old = old.now }) json.now }
    ensures ascii { IsTrue (all_ascii result.now) }
{
    if stands(json, old) { old } else { new }
}

// Whether a member of a name stands.
fn stands(json: &Json, name: &str) -> bool
    requires { IsTrue (all_ascii name.now) }
    ensures { result ≡ stands name.now json.now }
{
    json.get(name).is_some()
}

// The fault of a field that stands by both of its names, at the new one.
fn doubled(alloc: Global, new: &str) -> Result<DecodeError, AllocError>
    requires { IsTrue (all_ascii new.now) }
    ensures { IfOk result (λ error. IfFault error (IsFaultOf
        (below (places.Name new.now) (refused (kinds.Doubled new.now))))) }
{
    let name = Text::from_ascii(alloc, new)?;
    let stop = Stop::doubled(alloc, &name).below_name(alloc, &name);
    Ok(stop.into_error(alloc))
}

// The descriptor of configurations whose two fields are named so.
pub(crate) fn configuration_desc(
    alloc: Global,
    policy: &str,
    tags: &str,
) -> Result<Desc, AllocError>
    requires policy { IsTrue (all_ascii policy.now) }
    requires tags { IsTrue (all_ascii tags.now) }
    ensures { IfOk result (λ desc. desc ≡ configuration_desc policy.now tags.now) }
{
    let mut fields = List::new(alloc);
    fields.push(field(alloc, "allow_other_tags", Desc::Bool)?)?;
    fields.push(field(alloc, policy, EndpointTagPolicy::descriptor(alloc)?)?)?;
    fields.push(field(alloc, tags, tags_desc(alloc)?)?)?;
    Ok(Desc::Struct {
        fields,
        deny_unknown: false,
    })
}

fn tags_desc(alloc: Global) -> Result<Desc, AllocError>
    ensures { IfOk result (λ desc. desc ≡ descs.Map details_desc) }
{
    <BTreeMap<Text, TagDetails> as ApiType>::descriptor(alloc)
}

fn field(alloc: Global, name: &str, desc: Desc) -> Result<Field, AllocError>
    requires { IsTrue (all_ascii name.now) }
    ensures { IfOk result (λ made. made ≡ field_with (required name.now) desc) }
{
    Ok(Field {
        name: Text::from_ascii(alloc, name)?,
        desc,
        presence: Presence::Required,
        description: None,
    })
}

// The configuration of a tree.
fn configuration_of(alloc: Global, tree: &Tree) -> Result<TagConfig, AllocError>
    requires { IsConfigurationTree tree.now }
    ensures { IfOk result (λ config. configuration_tree config ≡ tree.now) }
{
    match trees_in(tree) {
        [allow_other_tags, policy, tags] => Ok(TagConfig {
            allow_other_tags: bool::from_tree(alloc, allow_other_tags)?,
            policy: EndpointTagPolicy::from_tree(alloc, policy)?,
            tags: <BTreeMap<Text, TagDetails> as ApiType>::from_tree(alloc, tags)?,
        }),
        _ => unreachable!(),
    }
}

// The trees of the three fields.
fn trees_in(tree: &Tree) -> &[Tree]
    requires { IsConfigurationTree tree.now }
    ensures is { tree.now ≡ trees.Fields result.now }
    ensures fit { TreesFit result.now }
{
    match tree {
        Tree::Fields(trees) => trees.as_slice(),
        _ => unreachable!(),
    }
}
