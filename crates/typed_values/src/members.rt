ghost use Rattle.std.specs.Prelude.{◌≡◌, map, option_map, IfOk};
ghost use Rattle.std.proofs.Props.{props};
ghost use Rattle.typed_values.specs.Denotes as denotes;
ghost use Rattle.typed_values.specs.Denotes.{member_name as name_of};
ghost use Rattle.schema_values.specs.Order.{sorted_by};

use crate::order::first_named;
use descriptors::Field;
use schema_values::{Json, Member, Text, in_order};
use std::alloc::{AllocError, Global};

/// The members of an object, and the same in the order of their names, among which a name is looked up by
/// halves.
#[derive(Drop)]
pub(crate) struct Members<'a> {
    pub items: &'a [Member],
    sorted: Vec<&'a Member>,
    ghost ordered: { map (λ m. m.now) sorted.items ≡ sorted_by name_of items.now } by { Prim.hlevel props },
}

impl<'a> Members<'a> {
    /// The members of an object.
    pub(crate) fn new(alloc: Global, items: &'a [Member]) -> Result<Members<'a>, AllocError>
        ensures { IfOk result (λ members. members.items.now ≡ items.now) }
    {
        let sorted = in_order(alloc, items)?;
        Ok(Members { items, sorted })
    }

    /// The value of the first member of a name.
    pub(crate) fn value_named(&self, name: &Text) -> Option<&'a Json>
        ensures { option_map (λ value. value.now) result ≡ denotes.value_named self.now.items.now name.now }
    {
        let member = first_named(self.sorted.as_slice(), name)?;
        Some(&member.value)
    }

    /// The least of the members' names that no field has, where unknown names are denied.
    pub(crate) fn denied_name(
        &self,
        alloc: Global,
        deny_unknown: bool,
        fields: &[Field],
    ) -> Result<Option<&'a Text>, AllocError>
        ensures { IfOk result (λ denied. option_map (λ name. name.now) denied
            ≡ denotes.denied_name deny_unknown fields.now self.now.items.now) }
    {
        if !deny_unknown {
            return Ok(None);
        }
        let declared = in_order(alloc, fields)?;
        for member in self.sorted.iter() {
            if first_named(declared.as_slice(), &member.name).is_none() {
                return Ok(Some(&member.name));
            }
        }
        Ok(None)
    }
}
