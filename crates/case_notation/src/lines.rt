//! Lines of cases, and the lines that answer them.
//!
//! A case is an object on a line of its own. Its member `case` is its name, which no case before it
//! has, and what else stands in it says what is asked, under names that the program knows. A case
//! that is `like` an earlier one has that one's members too, but for those that it has itself. It is
//! answered by its name, a colon and the answer as compact JSON.
use crate::error::CaseError;
use crate::parts::given_text;
use crate::reader::Reader;
use crate::told::Record;
use schema_values::{Json, List, Member, Text};
use std::alloc::{AllocError, Global};
use std::io;

/// A program of cases.
pub trait AnswersCases {
    /// The names that the members of a case may have, `case` and `like` among them.
    fn members(&self) -> &'static [&'static str];

    /// What the call of a case answers.
    fn answer(&self, alloc: Global, case: &Json) -> Result<Json, CaseError>;
}

/// Answers each line of the input with one line.
pub fn run<R: AllocGlobal + Input + Print, P: AnswersCases>(rt: &R, program: &P) -> io::Result<()> {
    let mut cases = Cases::new(rt.alloc());
    for line in rt.lines(rt.alloc()) {
        cases.answer(rt, program, line?.as_str())?;
    }
    Ok(())
}

/// The cases that stand on the lines so far.
#[derive(Drop)]
struct Cases {
    cases: List<Json>,
}

impl Cases {
    /// No cases.
    fn new(alloc: Global) -> Cases {
        Cases {
            cases: List::new(alloc),
        }
    }

    /// Answers the next line.
    fn answer<R: AllocGlobal + Print, P: AnswersCases>(
        &mut self,
        rt: &R,
        program: &P,
        line: &str,
    ) -> io::Result<()> {
        let reply = self.reply(rt.alloc(), program, line)?;
        println!(rt; "{reply}")
    }

    /// The line that answers the next line: the name of its case and the answer, or `?` and what is
    /// wrong with the line. An empty line, and one that begins with `#`, is repeated.
    fn reply<P: AnswersCases>(
        &mut self,
        alloc: Global,
        program: &P,
        line: &str,
    ) -> Result<String, AllocError> {
        if line.is_empty() || line.starts_with("#") {
            return String::from_str(alloc, line);
        }
        match self.told(alloc, program, line) {
            Ok(reply) => Ok(reply),
            Err(error) => error.text(alloc),
        }
    }

    fn told<P: AnswersCases>(
        &mut self,
        alloc: Global,
        program: &P,
        line: &str,
    ) -> Result<String, CaseError> {
        let case = self.read(alloc, program.members(), line)?;
        let reply = answered(alloc, program, &case);
        self.cases.push(case)?;
        reply
    }

    /// The case on a line, with the members of the case that it is like.
    fn read(&self, alloc: Global, names: &[&str], line: &str) -> Result<Json, CaseError> {
        let mut reader = Reader::new(alloc);
        let case = reader.or(Json::read(alloc, line.as_bytes()), Json::Null);
        let completed = self.completed(&mut reader, names, &case);
        reader.finish(completed)
    }

    fn completed(&self, reader: &mut Reader, names: &[&str], case: &Json) -> Json {
        reader.check_names(case, names);
        self.check_new(reader, case);
        let others = self.members_like(reader, case);
        let joined = joined(reader.alloc(), case, reader.members(case), others);
        reader.or(joined, Json::Null)
    }

    fn check_new(&self, reader: &mut Reader, case: &Json) {
        match case.get("case") {
            Some(Json::Text(name)) if self.named(name).is_none() => {}
            _ => reader.expected("a new name under case"),
        }
    }

    /// The members of the case that a case is like.
    fn members_like(&self, reader: &mut Reader, case: &Json) -> &[Member] {
        let Some(name) = case.get("like") else {
            return &[];
        };
        match self.noted_case(name) {
            Some(earlier) => reader.members(earlier),
            None => {
                reader.expected("the name of an earlier case");
                &[]
            }
        }
    }

    fn noted_case(&self, noted: &Json) -> Option<&Json> {
        match noted {
            Json::Text(name) => self.named(name),
            _ => None,
        }
    }

    fn named(&self, name: &Text) -> Option<&Json> {
        for case in self.cases.as_slice() {
            if is_named(case, name) {
                return Some(case);
            }
        }
        None
    }
}

fn is_named(case: &Json, name: &Text) -> bool {
    match case.get("case") {
        Some(Json::Text(other)) => other.equals(name),
        _ => false,
    }
}

/// A case with its own members, and those of others that it does not have itself.
fn joined(
    alloc: Global,
    case: &Json,
    own: &[Member],
    others: &[Member],
) -> Result<Json, CaseError> {
    let mut joined = Record::new(alloc);
    for member in own {
        joined.add(member.name.as_str(), member.value.copy(alloc));
    }
    add_missing(alloc, &mut joined, others, case);
    joined.done()
}

fn add_missing(alloc: Global, joined: &mut Record, others: &[Member], case: &Json) {
    for member in others {
        if case.get(member.name.as_str()).is_none() {
            joined.add(member.name.as_str(), member.value.copy(alloc));
        }
    }
}

fn answered<P: AnswersCases>(alloc: Global, program: &P, case: &Json) -> Result<String, CaseError> {
    let name = given_text(case, "case")?;
    reply_of(alloc, name, &program.answer(alloc, case)?)
}

fn reply_of(alloc: Global, name: &Text, answer: &Json) -> Result<String, CaseError> {
    let answer = answer.compact(alloc)?;
    Ok(format!(in alloc; "{name}: {answer}")?)
}
