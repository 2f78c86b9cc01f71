//! Parts of documents as cases note them: as they are written, with the names of OpenAPI 3.0.3 and
//! with the members in any order. A member may be left out where the written part may lack it.
use case_notation::{CaseError, Reader, truth_of};
use openapi_values::Part;
use schema_values::{Json, List, Member, Text};
use std::alloc::Global;

/// What cases note.
pub trait Noted {
    /// Reads the part that is noted.
    fn read(reader: &mut Reader, noted: &Json) -> Self;
}

impl Noted for Json {
    fn read(reader: &mut Reader, noted: &Json) -> Json {
        reader.copy_json(noted)
    }
}

impl Noted for Text {
    fn read(reader: &mut Reader, noted: &Json) -> Text {
        reader.text(noted)
    }
}

/// What a copy of a part is written as.
pub fn written<T: Noted + Part + Drop>(alloc: Global, noted: &Json) -> Result<Json, CaseError> {
    copy_written(alloc, &read_whole::<T>(alloc, noted)?)
}

fn copy_written<T: Part + Drop>(alloc: Global, part: &T) -> Result<Json, CaseError> {
    let copy = part.copy(alloc)?;
    Ok(copy.to_json(alloc)?)
}

fn read_whole<T: Noted + Drop>(alloc: Global, noted: &Json) -> Result<T, CaseError> {
    let mut reader = Reader::new(alloc);
    let part = T::read(&mut reader, noted);
    reader.finish(part)
}

/// The part of a name.
pub fn part_at<T: Noted>(reader: &mut Reader, noted: &Json, name: &'static str) -> T {
    match noted.get(name) {
        Some(part) => T::read(reader, part),
        None => {
            reader.expected(name);
            T::read(reader, &Json::Null)
        }
    }
}

/// The text of a name, where it stands.
pub fn text_at(reader: &mut Reader, noted: &Json, name: &str) -> Option<Text> {
    reader.maybe_text(noted.get(name))
}

/// Whether true stands under a name, where a truth value may stand.
pub fn is_true_at(reader: &mut Reader, noted: &Json, name: &str) -> bool {
    match noted.get(name) {
        Some(truth) => reader.or(truth_of(truth), false),
        None => false,
    }
}

/// The part of a name, where it stands.
pub fn maybe_at<T: Noted>(reader: &mut Reader, noted: &Json, name: &str) -> Option<T> {
    match noted.get(name) {
        Some(part) => Some(T::read(reader, part)),
        None => None,
    }
}

/// The parts in the list of a name. There need be none.
pub fn list_at<T: Noted + Drop>(reader: &mut Reader, noted: &Json, name: &str) -> List<T> {
    match noted.get(name) {
        Some(parts) => read_list(reader, parts),
        None => List::new(reader.alloc()),
    }
}

fn read_list<T: Noted + Drop>(reader: &mut Reader, noted: &Json) -> List<T> {
    let mut list = List::new(reader.alloc());
    for part in reader.items(noted) {
        let part = T::read(reader, part);
        reader.push(&mut list, part);
    }
    list
}

/// The parts by names in the object of a name. There need be none.
pub fn map_at<T: Noted + Drop>(reader: &mut Reader, noted: &Json, name: &str) -> List<(Text, T)> {
    match noted.get(name) {
        Some(parts) => read_map(reader, parts),
        None => List::new(reader.alloc()),
    }
}

fn read_map<T: Noted + Drop>(reader: &mut Reader, noted: &Json) -> List<(Text, T)> {
    let mut map = List::new(reader.alloc());
    for Member { name, value } in reader.members(noted) {
        let entry = (reader.copy(name), T::read(reader, value));
        reader.push(&mut map, entry);
    }
    map
}
