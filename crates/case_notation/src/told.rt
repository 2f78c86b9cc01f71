//! What is told: texts, objects and lists. What goes wrong with a part of an object or of a list is kept, the first
//! of it, and told at the end, so that nothing has to be handled in between.
use crate::error::CaseError;
use crate::reader::Reader;
use schema_values::{Json, List, Member, Text};
use std::alloc::{AllocError, Global};

/// A text.
pub fn say(alloc: Global, text: &str) -> Result<Json, CaseError> {
    text_told(Text::from_str(alloc, text))
}

/// A text that was made.
pub fn text_told(text: Result<Text, AllocError>) -> Result<Json, CaseError> {
    Ok(Json::Text(text?))
}

/// A string that was made.
pub fn string_told(text: Result<String, AllocError>) -> Result<Json, CaseError> {
    Ok(Json::Text(Text::from_string(text?)))
}

/// A text, or null where there is none.
pub fn text_or_null(alloc: Global, text: &Option<Text>) -> Result<Json, CaseError> {
    match text {
        Some(text) => say(alloc, text.as_str()),
        None => Ok(Json::Null),
    }
}

/// An object of one member.
pub fn labelled<E>(alloc: Global, name: &str, value: Result<Json, E>) -> Result<Json, CaseError>
where
    CaseError: From<E>,
{
    Record::new(alloc).put(name, value).done()
}

/// A list of two values.
pub fn both(
    alloc: Global,
    first: Result<Json, CaseError>,
    second: Result<Json, CaseError>,
) -> Result<Json, CaseError> {
    let mut row = Row::new(alloc);
    row.push(first);
    row.push(second);
    row.done()
}

/// An object, or the first thing that went wrong with it.
#[derive(Drop)]
pub struct Record {
    reader: Reader,
    members: List<Member>,
}

impl Record {
    /// An object of no members.
    pub fn new(alloc: Global) -> Record {
        Record {
            reader: Reader::new(alloc),
            members: List::new(alloc),
        }
    }

    /// The object with a member behind the others.
    pub fn put<E>(self, name: &str, value: Result<Json, E>) -> Record
    where
        CaseError: From<E>,
    {
        let mut record = self;
        record.add(name, value);
        record
    }

    /// The object with a text behind the other members.
    pub fn text(self, name: &str, text: &str) -> Record {
        let mut record = self;
        let text = record.reader.text_from(text);
        record.push(name, Json::Text(text));
        record
    }

    /// The object with a number behind the other members.
    pub fn number(self, name: &str, number: i128) -> Record {
        let mut record = self;
        record.push(name, Json::Int(number));
        record
    }

    /// The object with a truth value behind the other members.
    pub fn truth(self, name: &str, truth: bool) -> Record {
        let mut record = self;
        record.push(name, Json::Bool(truth));
        record
    }

    /// Puts a member behind the others.
    pub fn add<E>(&mut self, name: &str, value: Result<Json, E>)
    where
        CaseError: From<E>,
    {
        let value = self.reader.or(value, Json::Null);
        self.push(name, value);
    }

    fn push(&mut self, name: &str, value: Json) {
        let name = self.reader.text_from(name);
        self.reader.push(&mut self.members, Member { name, value });
    }

    /// The object, where nothing went wrong.
    pub fn done(self) -> Result<Json, CaseError> {
        self.reader.finish(Json::Object(self.members))
    }
}

/// A list, or the first thing that went wrong with it.
#[derive(Drop)]
pub struct Row {
    reader: Reader,
    items: List<Json>,
}

impl Row {
    /// A list of no items.
    pub fn new(alloc: Global) -> Row {
        Row {
            reader: Reader::new(alloc),
            items: List::new(alloc),
        }
    }

    /// Puts an item behind the others.
    pub fn push<E>(&mut self, item: Result<Json, E>)
    where
        CaseError: From<E>,
    {
        let item = self.reader.or(item, Json::Null);
        self.reader.push(&mut self.items, item);
    }

    /// The list, where nothing went wrong.
    pub fn done(self) -> Result<Json, CaseError> {
        self.reader.finish(Json::List(self.items))
    }
}
