// Encoding under external and tagged enumerations.
ghost use Rattle.std.specs.Prelude.{◌≡◌, ◌∷◌, [], IfOk, IfSome};
ghost use Rattle.schema_values.specs.declared.json_value.Json.{Object, Text as Words};
ghost use Rattle.schema_values.specs.Member.{member};
ghost use Rattle.descriptors.specs.declared.tree.Tree.{out-Tree};
ghost use Rattle.descriptors.specs.Definitions.{tagged_fields, tagged_name};
ghost use Rattle.typed_values.specs.Encoding as meant;
ghost use Rattle.typed_values.specs.Encoding.{written_under};
ghost use Rattle.typed_values.specs.Fits.{struct_of};
ghost use Rattle.typed_values.specs.Parts.{IsPart};
ghost use Rattle.typed_values.specs.Rows.{AreFieldsOf, ArePayloadsOf, AreVariantsOf};

use crate::lists::only;
use crate::scope::Scope;
use descriptors::{TaggedVariant, Tree, Variant};
use schema_values::{Json, List, Member, Text};
use std::alloc::{AllocError, Global};

impl Scope<'_> {
    #[cycle(encode)]
    pub(crate) fn encode_external(
        &self,
        alloc: Global,
        variants: &[Variant],
        tree: &Tree,
    ) -> Result<Json, AllocError>
        requires { ArePayloadsOf self.now.table.now self.now.whole.now variants.now }
        ensures { IfOk result (λ json. json ≡ meant.external_written
            (written_under self.now.table.now self.now.whole.now) variants.now (out-Tree tree.now)) }
    {
        match tree {
            Tree::Variant(place, tree) => match variants.get(*place as usize) {
                Some(variant) => self.encode_variant(alloc, variant, tree.get()),
                None => Ok(Json::Null),
            },
            _ => Ok(Json::Null),
        }
    }

    /// The name of a variant, or an object of its name and its payload.
    #[cycle(encode)]
    fn encode_variant(
        &self,
        alloc: Global,
        variant: &Variant,
        tree: &Tree,
    ) -> Result<Json, AllocError>
        requires { IfSome variant.now.payload (IsPart self.now.table.now self.now.whole.now) }
        ensures { IfOk result (λ json. json ≡ meant.variant_written
            (written_under self.now.table.now self.now.whole.now tree.now) variant.now) }
    {
        match &variant.payload {
            None => Ok(Json::Text(variant.name.copy(alloc)?)),
            Some(payload) => {
                let value = self.encode_at(alloc, payload, tree)?;
                member_alone(alloc, &variant.name, value)
            }
        }
    }

    #[cycle(encode)]
    pub(crate) fn encode_tagged(
        &self,
        alloc: Global,
        tag: &Text,
        variants: &[TaggedVariant],
        tree: &Tree,
    ) -> Result<Json, AllocError>
        requires { AreVariantsOf self.now.table.now self.now.whole.now variants.now }
        ensures { IfOk result (λ json. json ≡ meant.tagged_written
            (written_under self.now.table.now self.now.whole.now) tag.now variants.now (out-Tree tree.now)) }
    {
        match tree {
            Tree::Variant(place, tree) => match variants.get(*place as usize) {
                Some(variant) => self.encode_tagged_variant(alloc, tag, variant, tree.get()),
                None => Ok(Json::Null),
            },
            _ => Ok(Json::Null),
        }
    }

    /// The fields of a variant, behind the tag.
    #[cycle(encode)]
    fn encode_tagged_variant(
        &self,
        alloc: Global,
        tag: &Text,
        variant: &TaggedVariant,
        tree: &Tree,
    ) -> Result<Json, AllocError>
        requires { AreFieldsOf self.now.table.now self.now.whole.now (tagged_fields variant.now) }
        ensures { IfOk result (λ json. json ≡ meant.with_tag tag.now (tagged_name variant.now)
            (written_under self.now.table.now self.now.whole.now tree.now (struct_of variant.now))) }
    {
        let Tree::Fields(trees) = tree else {
            return Ok(Json::Null);
        };
        let members = tag_alone(alloc, tag, &variant.name)?;
        let fields = variant.fields.as_slice();
        Ok(Json::Object(self.encode_fields(alloc, members, fields, trees.as_slice())?))
    }
}

/// An object of one member.
fn member_alone(alloc: Global, name: &Text, value: Json) -> Result<Json, AllocError>
    ensures { IfOk result (λ json. json ≡ Object (member name.now value ∷ [])) }
{
    let name = name.copy(alloc)?;
    Ok(Json::Object(only(alloc, Member { name, value })?))
}

/// A tag's member, whose value is a name.
fn tag_alone(alloc: Global, tag: &Text, name: &Text) -> Result<List<Member>, AllocError>
    ensures { IfOk result (λ members. members ≡ member tag.now (Words name.now) ∷ []) }
{
    only(
        alloc,
        Member {
            name: tag.copy(alloc)?,
            value: Json::Text(name.copy(alloc)?),
        },
    )
}
