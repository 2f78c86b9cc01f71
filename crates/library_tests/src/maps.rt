//! Values that no case of a map can name.
use api_types::{ApiType, table_of};
use flat_maps::{MapError, to_map};
use line_types::{LineDigits, LineFrame};
use schema_values::Text;
use std::alloc::Global;
use std::test::Fail;

// What a value is refused as that is no map of texts.
fn refused<T: ApiType>(alloc: Global, value: &T) -> Option<Text> {
    table_of::<T>(alloc).ok()?;
    match to_map(alloc, value) {
        Err(MapError::Refused(text)) => Some(text),
        _ => None,
    }
}

#[test]
fn a_struct_variant_is_no_map_of_texts(rt: HostRuntime) -> Result<(), Fail> {
    let alloc = rt.alloc();
    let hex = Text::from_ascii(alloc, "00ff")?;
    match refused(alloc, &LineFrame::Digits(LineDigits { hex })) {
        Some(text) => assert_eq!(rt; text.as_str(), "cannot serialize a struct variant"),
        None => assert!(rt; false),
    }
    Ok(())
}
