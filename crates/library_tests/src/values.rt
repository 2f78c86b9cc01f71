//! What tables show of their definitions, and values that are made without JSON.
use api_types::AnyValue;
use own_types::Label;
use schema_values::{Json, Text};
use std::alloc::{AllocError, Global};
use std::test::Fail;
use typed_values::{Desc, DescTable};

/// Whether a table shows one definition, of a flag that is described as a truth.
fn shows_a_flag(table: &DescTable) -> bool {
    table.len() == 1 && !table.is_empty() && finds_a_flag(table) && table.entry(1).is_none()
}

#[test]
fn a_copy_of_any_value_has_its_json(rt: HostRuntime) -> Result<(), Fail> {
    let alloc = rt.alloc();
    match AnyValue::new(Json::Int(-7)) {
        Ok(value) => assert!(rt; matches!(value.copy(alloc)?.json(), Json::Int(-7))),
        Err(_) => assert!(rt; false),
    }
    Ok(())
}

fn finds_a_flag(table: &DescTable) -> bool {
    let is_first = match table.entry(0) {
        Some((name, Some(description), Desc::Bool)) => {
            name.equals_str("Flag")
                && description.equals_str("a truth")
                && table.find(name).is_some()
        }
        _ => false,
    };
    is_first && matches!(table.get("Flag"), Some(Desc::Bool)) && table.get("flag").is_none()
}

#[test]
fn a_table_shows_its_definitions(rt: HostRuntime) -> Result<(), Fail> {
    let alloc = rt.alloc();
    let description = Some(Text::from_str(alloc, "a truth")?);
    let mut table = DescTable::new(alloc);
    assert!(rt; table.is_empty());
    assert!(rt; table.add_described("Flag", description, Desc::Bool).is_ok());
    assert!(rt; shows_a_flag(&table));
    Ok(())
}

#[test]
fn the_greatest_number_is_sound(rt: HostRuntime) {
    let greatest = 0xffff_ffff_ffff_ffff;
    match AnyValue::new(Json::Int(greatest)) {
        Ok(value) => {
            assert!(rt; value.json().equals(&Json::Int(greatest)));
            assert!(rt; value.into_json().equals(&Json::Int(greatest)));
        }
        Err(_) => panic!(rt; "the greatest number is sound"),
    }
    assert!(rt; AnyValue::new(Json::Int(greatest + 1)).is_err());
}

/// The text of a label, or behind a dash one that is none.
fn label_told(alloc: Global, text: &str) -> Result<Text, AllocError> {
    match Label::new(Text::from_str(alloc, text)?) {
        Ok(label) => label.text().copy(alloc),
        Err(refused) => {
            let mut told = Text::from_str(alloc, "-")?;
            told.push_text(&refused)?;
            Ok(told)
        }
    }
}

#[test]
fn a_text_that_is_no_label_is_handed_back(rt: HostRuntime) -> Result<(), Fail> {
    for (text, expected) in [
        ("a word", "a word"),
        ("", "-"),
        ("seventeen letters", "-seventeen letters"),
    ] {
        let told = label_told(rt.alloc(), text)?;
        assert_eq!(rt; told.as_str(), expected);
    }
    Ok(())
}
