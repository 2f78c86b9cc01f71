// The fields of a struct, from what stands under their names.
ghost use Rattle.std.specs.Prelude.{Contains, IsOk, option_map};
ghost use Rattle.descriptors.specs.declared.desc.Field.{Field};
ghost use Rattle.typed_values.specs.Answer.{Tells};
ghost use Rattle.typed_values.specs.Checks.{TablePasses, DescPasses};
ghost use Rattle.typed_values.specs.declared.fault.Place.TheVariants.{Name};
ghost use Rattle.typed_values.specs.Denotes.{Told, below, by_presence, if_absent, if_present};
ghost use Rattle.flat_maps.specs.Flat.{IsNoneIfAbsent, fields_told, given_told, looked_up};
ghost use Rattle.flat_maps.specs.Lookups.{given_of};

use crate::given::{Given, LookUp, decode_given};
use descriptors::{DescTable, Field, Presence, Tree};
use scalar_texts::in_some;
use schema_values::List;
use std::alloc::Global;
use typed_values::Stop;

/// The trees of all fields in order.
pub(crate) fn decode_fields<L: LookUp>(
    alloc: Global,
    table: &DescTable,
    fields: &[Field],
    names: &L,
) -> Result<Tree, Stop>
    requires table { TablePasses table.now }
    requires fields { (f : Field) → Contains fields.now f → DescPasses table.now f.desc }
    ensures { Tells result (fields_told (looked_up table.now (L.names names.now)) fields.now) }
{
    let mut trees = List::new(alloc);
    for field in fields {
        let given = names.look_up(alloc, &field.name)?;
        let tree = decode_field(alloc, table, field, given)?;
        trees.push(tree)?;
    }
    Ok(Tree::Fields(trees))
}

fn decode_field(
    alloc: Global,
    table: &DescTable,
    field: &Field,
    given: Option<Given<'_>>,
) -> Result<Tree, Stop>
    requires table { TablePasses table.now }
    requires desc { DescPasses table.now field.now.desc }
    ensures { Tells result (by_presence field.now
        (option_map (given_told table.now field.now.desc) (option_map given_of given.entry))) }
{
    match given {
        Some(given) => present_field(alloc, field, decode_given(alloc, table, &field.desc, given)),
        None => absent_field(alloc, field),
    }
}

/// What a field that is there gives, by what its value denotes: a fault stands below its name.
pub fn present_field(alloc: Global, field: &Field, answer: Result<Tree, Stop>) -> Result<Tree, Stop>
    ensures { (told : Told) → Tells answer told
        → Tells result (if_present field.now.presence (below (Name field.now.name) told)) }
{
    match answer {
        Ok(tree) => match &field.presence {
            Presence::Required | Presence::Nullable | Presence::Default(_) => Ok(tree),
            Presence::Skipped => in_some(alloc, Ok(tree)),
        },
        Err(stop) => Err(stop.below_name(alloc, &field.name)),
    }
}

/// What an absent field gives, by its presence. A nullable or a skipped one takes no memory.
pub fn absent_field(alloc: Global, field: &Field) -> Result<Tree, Stop>
    ensures told { Tells result (if_absent field.now.presence field.now.name) }
    ensures without_memory { IsNoneIfAbsent field.now.presence → IsOk result }
{
    match &field.presence {
        Presence::Required => Err(Stop::missing(alloc, &field.name)),
        Presence::Nullable | Presence::Skipped => Ok(Tree::None),
        Presence::Default(tree) => Ok(tree.copy(alloc)?),
    }
}
