//! Values of types of one's own, as Rust has them.
use api_types::{ApiType, table_of};
use own_types::{Color, Point};
use schema_values::{Boxed, Json};
use std::alloc::Global;
use std::test::Fail;
use type_wire::json_value;
use typed_values::Tree;

/// The value that a text of JSON is read as.
pub(crate) fn read<T: ApiType>(alloc: Global, text: &str) -> Option<T> {
    let table = table_of::<T>(alloc).ok()?;
    let json = Json::read(alloc, text.as_bytes()).ok()?;
    json_value(alloc, &table, &json).ok()
}

#[test]
fn a_color_stands_at_its_place(rt: HostRuntime) -> Result<(), Fail> {
    let alloc = rt.alloc();
    for (color, place) in [(Color::Red, 0), (Color::Green, 1), (Color::Blue, 2)] {
        let tree = Tree::Variant(place, Boxed::new(alloc, Tree::Unit)?);
        assert!(rt; color.to_tree(alloc)?.equals(&tree));
    }
    Ok(())
}

#[test]
fn a_name_is_read_as_its_color(rt: HostRuntime) {
    assert!(rt; matches!(read(rt.alloc(), "\"green\""), Some(Color::Green)));
}

#[test]
fn a_point_is_read_with_its_fields(rt: HostRuntime) {
    match read::<Point>(rt.alloc(), "{\"n\":1,\"label\":\"b\",\"more\":0}") {
        Some(point) => {
            assert_eq!(rt; point.label.text().as_str(), "b");
            assert!(rt; point.color.is_none());
            assert_eq!(rt; point.n, 1);
        }
        None => panic!(rt; "an absent color is none, and unknown names are allowed"),
    }
}
