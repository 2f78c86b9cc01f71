//! Several definitions at once.
ghost use Rattle.std.specs.Prelude.{◌≡◌, IfOk, IfErr, OnErr, OnOk};
ghost use Rattle.descriptors.specs.Adding.{Adds, IsRefused};
ghost use Rattle.api_types.specs.Additions.{with_all, AreRefused};
ghost use Rattle.api_types.specs.Types.{HoldsAll};

use std::alloc::Global;
use typed_values::{AddError, Added, Definition, DescTable};

/// Adds definitions to a table: all of them, or none where one clashes or memory is wanting. The first clash
/// is told. The table is copied, so that it stays as it was after an error.
pub fn add_all(
    alloc: Global,
    table: &mut DescTable,
    definitions: &[Definition],
) -> Result<(), AddError>
    ensures added { OnOk result (table.new ≡ with_all table.old definitions.now) }
    ensures held { OnOk result (HoldsAll table.new definitions.now) }
    ensures refused { IfErr result (AreRefused table.old definitions.now) }
    ensures err { OnErr result (table.new ≡ table.old) }
{
    let mut all = table.copy(alloc)?;
    for definition in definitions {
        add_copy(alloc, &mut all, definition)?;
    }
    *table = all;
    Ok(())
}

fn add_copy(
    alloc: Global,
    table: &mut DescTable,
    definition: &Definition,
) -> Result<Added, AddError>
    ensures added { IfOk result (Adds table.old table.new definition.now) }
    ensures refused { IfErr result (IsRefused table.old definition.now) }
{
    let Definition {
        name,
        description,
        desc,
    } = definition.copy(alloc)?;
    table.add_described(name.as_str(), description, desc)
}
