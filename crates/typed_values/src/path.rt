ghost use Rattle.std.specs.Prelude.{◌≡◌, ◌++◌, IfOk, OnOk, reverse};
ghost use Rattle.typed_values.specs.Faults as faults;

use crate::fault::Place;
use schema_values::Text;
use std::alloc::{AllocError, Global};

/// The text of a path whose innermost place comes first.
pub(crate) fn path_text(alloc: Global, places: &[Place]) -> Result<Text, AllocError>
    ensures { IfOk result (λ text. text ≡ faults.path_text (reverse places.now)) }
{
    let mut text = Text::new(alloc);
    match places.split_last() {
        None => text.push_ascii(".")?,
        Some((Place::Name(name), inner)) => {
            text.push_text(name)?;
            push_places(alloc, &mut text, inner)?;
        }
        Some((Place::Item(_), _)) => push_places(alloc, &mut text, places)?,
    }
    Ok(text)
}

/// Writes places, the last one first.
fn push_places(alloc: Global, text: &mut Text, places: &[Place]) -> Result<(), AllocError>
    ensures { OnOk result (text.new ≡ text.old ++ faults.places_behind (reverse places.now)) }
{
    for i in (0..places.len()).rev() {
        push_place(alloc, text, &places[i])?;
    }
    Ok(())
}

fn push_place(alloc: Global, text: &mut Text, place: &Place) -> Result<(), AllocError>
    ensures { OnOk result (text.new ≡ text.old ++ faults.place_behind place.now) }
{
    match place {
        Place::Name(name) => {
            text.push('.')?;
            text.push_text(name)
        }
        Place::Item(k) => {
            text.push('[')?;
            text.push_number(alloc, *k as i128)?;
            text.push(']')
        }
    }
}
