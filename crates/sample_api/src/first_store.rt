//! The store that the sample begins with.
ghost use Rattle.std.specs.Prelude.{◌≡◌, codes, IfOk, IsTrue, OnOk};
ghost use Rattle.schema_values.specs.Ascii.{all_ascii};
ghost use Rattle.tree_store.specs.Tables.{changed, pairs_with};
ghost use Rattle.sample_types.specs.Labels.{is_label};
ghost use Rattle.sample_api.specs.FirstStore.{first_tables, numbered};

use api_types::ApiType;
use sample_types::{Point, PointLabel};
use schema_values::Text;
use std::alloc::{AllocError, Global};
use tree_store::Store;

/// The points `p1` to `p4`, each with its number, and on. Fails only for want of memory.
pub fn points_store(alloc: Global) -> Result<Store, AllocError>
    ensures { IfOk result (λ store. store ≡ first_tables) }
{
    let mut store = Store::new(alloc);
    put(alloc, &mut store, "p1", 1)?;
    put(alloc, &mut store, "p2", 2)?;
    put(alloc, &mut store, "p3", 3)?;
    put(alloc, &mut store, "p4", 4)?;
    Ok(store)
}

// Stores a point that is on under its label.
fn put(alloc: Global, store: &mut Store, label: &str, n: u8) -> Result<(), AllocError>
    requires ascii { IsTrue (all_ascii label.now) }
    requires label { IsTrue (is_label label.now) }
    ensures { OnOk result (store.new
        ≡ changed (codes "points") (pairs_with label.now (numbered label.now n)) store.old) }
{
    let text = Text::from_ascii(alloc, label)?;
    let point = Point {
        label: PointLabel::new(text).unwrap(),
        n: i32::from(n),
        on: true,
    };
    store.insert("points", label, point.to_tree(alloc)?)?;
    Ok(())
}
