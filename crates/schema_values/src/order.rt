//! What has names, in the order of its names.

ghost use Rattle.std.specs.Prelude.{◌≡◌, map, IfOk, OnErr, OnOk};
ghost use Rattle.schema_values.specs.Order.{sorted_by};

use crate::json_value::Member;
use crate::schema::Property;
use crate::text::Text;
use std::alloc::{AllocError, Global};

/// What has a name.
pub trait HasName {
    ghost use Rattle.std.specs.Prelude.{◌≡◌, List, ℕ};

    ghost name_of: { Self → List ℕ };

    /// The name.
    fn name(&self) -> &Text
        ensures { result.now ≡ name_of self.now };
}

impl HasName for Property {
    ghost use Rattle.schema_values.specs.Order.{property_name};

    ghost name_of = { property_name };

    fn name(&self) -> &Text {
        &self.name
    }
}

impl HasName for Text {
    ghost use Rattle.schema_values.specs.Order.{same_name};

    ghost name_of = { same_name };

    fn name(&self) -> &Text {
        self
    }
}

impl HasName for Member {
    ghost use Rattle.schema_values.specs.Member as member;

    ghost name_of = { member.name_of };

    fn name(&self) -> &Text {
        &self.name
    }
}

impl<T: HasName> HasName for &T {
    ghost name_of = { λ item. T.name_of item.now };

    fn name(&self) -> &Text {
        (**self).name()
    }
}

/// Puts items in the order of their names. Those of one name keep their order. Fails only for want of memory,
/// and then changes nothing.
pub fn sort_by_name<T: HasName + Drop>(items: &mut Vec<T>) -> Result<(), AllocError>
    ensures sorted { OnOk result (items.new.items ≡ sorted_by T.name_of items.old.items) }
    ensures err { OnErr result (items.new.items ≡ items.old.items) }
{
    items.sort_by(|first, second| first.name().cmp(second.name()))
}

/// The items in the order of their names, in one pass where they stand in it, as the members of a value that
/// was read do. Those of one name keep their order. Fails only for want of memory.
pub fn in_order<T: HasName>(alloc: Global, items: &[T]) -> Result<Vec<&T>, AllocError>
    ensures { IfOk result (λ ordered. map (λ item. item.now) ordered.items ≡ sorted_by T.name_of items.now) }
{
    let mut ordered = Vec::with_capacity(alloc, items.len())?;
    for item in items {
        ordered.push(item)?;
    }
    sort_by_name(&mut ordered)?;
    Ok(ordered)
}
