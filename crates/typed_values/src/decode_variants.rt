// Decoding under external and tagged enumerations.
ghost use Rattle.std.specs.Prelude.{◌≤◌, false, length};
ghost use Rattle.schema_values.specs.declared.json_value.Json.{out-Json};
ghost use Rattle.typed_values.specs.Answer.{Tells};
ghost use Rattle.descriptors.specs.Definitions.{tagged_fields, variant_name};
ghost use Rattle.typed_values.specs.Denotes.{Told, told, below, external, tagged, at_tag, chosen};
ghost use Rattle.typed_values.specs.Denotes.{where_found, named_from, refused, with_payload, without_payload};
ghost use Rattle.typed_values.specs.Rows.{struct_row, told_struct, ArePayloadsOf, AreVariantsOf};
ghost use Rattle.typed_values.specs.declared.fault.FaultKind.TheVariants.{NotListed};
ghost use Rattle.typed_values.specs.declared.fault.Place.TheVariants.{Name};

use crate::fault::{FaultKind, Stop};
use crate::members::Members;
use crate::order::find_named;
use crate::scope::Decoder;
use crate::wrapped::{in_variant, variant};
use descriptors::{TaggedVariant, Tree, Variant};
use schema_values::{Json, Member, Text};
use std::alloc::Global;

/// Decodes a variant by its name alone.
fn decode_bare(alloc: Global, variants: &[Variant], name: &Text) -> Result<Tree, Stop>
    requires { length variants.now ≤ 4294967296 }
    ensures { Tells result (where_found (refused NotListed) without_payload
        (named_from variant_name 0 variants.now name.now)) }
{
    match find_named(variants, name) {
        Some((place, Variant { payload: None, .. })) => variant(alloc, place, Tree::Unit),
        _ => Err(Stop::refused(alloc, FaultKind::NotListed)),
    }
}

/// The answer of a payload, whose fault stands below the name of its variant.
fn below_name(alloc: Global, name: &Text, answer: Result<Tree, Stop>) -> Result<Tree, Stop>
    ensures { (told : Told) → Tells answer told → Tells result (below (Name name.now) told) }
{
    match answer {
        Ok(tree) => Ok(tree),
        Err(stop) => Err(stop.below_name(alloc, name)),
    }
}

impl Decoder<'_> {
    /// Decodes the name of a variant without payload, or an object of one member, which has the name of a
    /// variant with payload.
    #[cycle(decode)]
    pub(crate) fn decode_external(
        &self,
        alloc: Global,
        variants: &[Variant],
        json: &Json,
    ) -> Result<Tree, Stop>
        requires parts { ArePayloadsOf self.now.table.now self.now.whole.now variants.now }
        requires few { length variants.now ≤ 4294967296 }
        ensures { Tells result (external (told self.now.table.now self.now.whole.now) variants.now
            (out-Json json.now)) }
    {
        match json {
            Json::Text(name) => decode_bare(alloc, variants, name),
            Json::Object(members) => match members.as_slice() {
                [member] => self.decode_payload(alloc, variants, member),
                _ => Err(Stop::refused(alloc, FaultKind::WrongKind)),
            },
            _ => Err(Stop::refused(alloc, FaultKind::WrongKind)),
        }
    }

    /// Decodes a payload under the name of its variant.
    #[cycle(decode)]
    fn decode_payload(
        &self,
        alloc: Global,
        variants: &[Variant],
        member: &Member,
    ) -> Result<Tree, Stop>
        requires parts { ArePayloadsOf self.now.table.now self.now.whole.now variants.now }
        requires few { length variants.now ≤ 4294967296 }
        ensures { Tells result (where_found (refused NotListed)
            (with_payload (told self.now.table.now self.now.whole.now member.now.value))
            (named_from variant_name 0 variants.now member.now.name)) }
    {
        let Some((place, chosen)) = find_named(variants, &member.name) else {
            return Err(Stop::refused(alloc, FaultKind::NotListed));
        };
        let Some(payload) = &chosen.payload else {
            return Err(Stop::refused(alloc, FaultKind::NotListed));
        };
        let answer = self.decode_at(alloc, payload, &member.value);
        in_variant(alloc, place, below_name(alloc, &member.name, answer))
    }

    /// Decodes an object whose tag names a variant.
    #[cycle(decode)]
    pub(crate) fn decode_tagged(
        &self,
        alloc: Global,
        tag: &Text,
        variants: &[TaggedVariant],
        json: &Json,
    ) -> Result<Tree, Stop>
        requires parts { AreVariantsOf self.now.table.now self.now.whole.now variants.now }
        requires few { length variants.now ≤ 4294967296 }
        ensures { Tells result (tagged (λ json. json)
            (λ fields. struct_row self.now.table.now self.now.whole.now fields false (out-Json json.now))
            tag.now variants.now (out-Json json.now)) }
    {
        let Json::Object(members) = json else {
            return Err(Stop::refused(alloc, FaultKind::WrongKind));
        };
        let members = Members::new(alloc, members.as_slice())?;
        match members.value_named(tag) {
            Some(name) => self.decode_variant(alloc, tag, variants, name, &members),
            None => Err(Stop::missing(alloc, tag)),
        }
    }

    /// Decodes the fields of the variant that a tag names.
    #[cycle(decode)]
    fn decode_variant(
        &self,
        alloc: Global,
        tag: &Text,
        variants: &[TaggedVariant],
        name: &Json,
        members: &Members,
    ) -> Result<Tree, Stop>
        requires parts { AreVariantsOf self.now.table.now self.now.whole.now variants.now }
        requires few { length variants.now ≤ 4294967296 }
        ensures { Tells result (at_tag tag.now
            (λ place variant. chosen place (told_struct self.now.table.now self.now.whole.now
            (tagged_fields variant) false members.now.items.now)) variants.now name.now) }
    {
        let Json::Text(name) = name else {
            return Err(Stop::refused(alloc, FaultKind::WrongKind).below_name(alloc, tag));
        };
        let Some((place, chosen)) = find_named(variants, name) else {
            return Err(Stop::refused(alloc, FaultKind::NotListed).below_name(alloc, tag));
        };
        in_variant(
            alloc,
            place,
            self.decode_fields(alloc, chosen.fields.as_slice(), members),
        )
    }
}
