//! Reads what is noted without stopping: the first flaw of it is kept and told at the end, and in place of what is
//! not there something empty is read.
use crate::error::CaseError;
use crate::parts::check_names;
use schema_values::{Boxed, Json, List, Member, Text};
use std::alloc::Global;

/// What reads, with the first flaw that it met.
#[derive(Drop)]
pub struct Reader {
    alloc: Global,
    flaw: Option<CaseError>,
}

impl Reader {
    /// A reader that has met no flaw.
    pub fn new(alloc: Global) -> Reader {
        Reader { alloc, flaw: None }
    }

    /// Where memory is taken from.
    pub fn alloc(&self) -> Global {
        self.alloc
    }

    /// Keeps a flaw, if it is the first.
    pub fn keep(&mut self, flaw: CaseError) {
        if self.flaw.is_none() {
            self.flaw = Some(flaw);
        }
    }

    /// Keeps that something else was expected.
    pub fn expected(&mut self, what: &'static str) {
        self.keep(CaseError::Expected(what));
    }

    /// What a step gave, or another value where it failed.
    pub fn or<T: Drop, E>(&mut self, outcome: Result<T, E>, other: T) -> T
    where
        CaseError: From<E>,
    {
        match outcome {
            Ok(value) => value,
            Err(error) => {
                self.keep(CaseError::from(error));
                other
            }
        }
    }

    /// Reads an object whose members all have one of these names.
    pub fn check_names(&mut self, noted: &Json, names: &[&str]) {
        self.or(check_names(noted, names), ())
    }

    /// A value in a box, or none where memory is wanting.
    pub fn boxed<T: Drop>(&mut self, value: T) -> Option<Boxed<T>> {
        match Boxed::new(self.alloc, value) {
            Ok(boxed) => Some(boxed),
            Err(error) => {
                self.keep(CaseError::from(error));
                None
            }
        }
    }

    /// A text of these characters.
    pub fn text_from(&mut self, text: &str) -> Text {
        self.or(Text::from_str(self.alloc, text), Text::new(self.alloc))
    }

    /// A copy of a text.
    pub fn copy(&mut self, text: &Text) -> Text {
        self.or(text.copy(self.alloc), Text::new(self.alloc))
    }

    /// A copy of a value.
    pub fn copy_json(&mut self, json: &Json) -> Json {
        self.or(json.copy(self.alloc), Json::Null)
    }

    /// A text.
    pub fn text(&mut self, noted: &Json) -> Text {
        match noted {
            Json::Text(text) => self.copy(text),
            _ => {
                self.expected("a text");
                Text::new(self.alloc)
            }
        }
    }

    /// The text under a name.
    pub fn text_at(&mut self, noted: &Json, name: &'static str) -> Text {
        match noted.get(name) {
            Some(text) => self.text(text),
            None => {
                self.expected(name);
                Text::new(self.alloc)
            }
        }
    }

    /// A text, or none where null or nothing stands.
    pub fn maybe_text(&mut self, noted: Option<&Json>) -> Option<Text> {
        match noted {
            None | Some(Json::Null) => None,
            Some(Json::Text(text)) => Some(self.copy(text)),
            Some(_) => {
                self.expected("a text or null");
                None
            }
        }
    }

    /// The items of a list.
    pub fn items<'a>(&mut self, noted: &'a Json) -> &'a [Json] {
        match noted {
            Json::List(items) => items.as_slice(),
            _ => {
                self.expected("a list");
                &[]
            }
        }
    }

    /// The members of an object.
    pub fn members<'a>(&mut self, noted: &'a Json) -> &'a [Member] {
        match noted {
            Json::Object(members) => members.as_slice(),
            _ => {
                self.expected("an object");
                &[]
            }
        }
    }

    /// The texts of a list.
    pub fn texts(&mut self, noted: &Json) -> List<Text> {
        let mut texts = List::new(self.alloc);
        for item in self.items(noted) {
            let text = self.text(item);
            self.push(&mut texts, text);
        }
        texts
    }

    /// The one further part of a list, or none.
    pub fn one_more<'a>(&mut self, rest: &'a [Json]) -> Option<&'a Json> {
        match rest {
            [] => None,
            [part] => Some(part),
            _ => {
                self.expected("no further part");
                None
            }
        }
    }

    /// Puts an item behind the others of a list.
    pub fn push<T: Drop>(&mut self, list: &mut List<T>, item: T) {
        self.or(list.push(item), ())
    }

    /// What was read, where there was no flaw.
    pub fn finish<T: Drop>(self, value: T) -> Result<T, CaseError> {
        match self.flaw {
            None => Ok(value),
            Some(flaw) => Err(flaw),
        }
    }
}
