//! Header lines in order.
ghost use Rattle.std.specs.Prelude.{◌≡◌, [], ◌∷◌, ◌++◌, IfOk, IsOk, IsTrue, OnOk, OnErr};
ghost use Rattle.std.specs.List.{position};
ghost use Rattle.std.specs.Option.{option_copied};
ghost use Rattle.std.specs.Vec.{vec_capacity};
ghost use Rattle.header_lists.specs.HeaderLists.{extended, first_of, has_line, inserted};
ghost use Rattle.header_lists.specs.HeaderLists.{is_line_of, last_of, without};

use http_header::{HeaderName, HeaderValue};
use std::alloc::{AllocError, Global};
use std::marker::Model;

/// Header lines in order, without a greatest size (RFC 9110, sections 5.1 to 5.3).
///
/// Contracts see them as pairs of a name, by its bytes in lower case, and a value. Names are
/// compared without case.
#[derive(Drop)]
pub struct HeaderList {
    lines: Vec<(HeaderName, HeaderValue)>,
}

impl Model for HeaderList {
    ghost use Rattle.std.specs.Prelude.{List};
    ghost use Rattle.std.specs.Coded.{coded_list, coded×, coded_ℕ};
    ghost use Rattle.http_header.specs.FieldValue.{field_value_code};
    ghost use Rattle.header_lists.specs.HeaderLists.{Line};

    ghost Value = { List Line };

    ghost coded = { coded_list (coded× (coded_list coded_ℕ) field_value_code) };

    ghost view = { λ list. list.lines.items };
}

impl HeaderList {
    /// No lines.
    pub fn new(alloc: Global) -> HeaderList
        ensures { result ≡ [] }
    {
        HeaderList {
            lines: Vec::new(alloc),
        }
    }

    /// Adds a line behind the others. Fails only for want of memory.
    pub fn append(&mut self, name: HeaderName, value: HeaderValue) -> Result<(), AllocError>
        ensures ok { OnOk result (self.new ≡ self.old ++ (name, value) ∷ []) }
        ensures err { OnErr result (self.new ≡ self.old) }
    {
        self.lines.push((name, value))?;
        Ok(())
    }

    /// Puts a line in the place of the first one of its name, and drops the further ones; or adds
    /// it behind the others, where there is none of its name. Fails only for want of memory, which
    /// it takes only where there is none of its name.
    pub fn insert(&mut self, name: HeaderName, value: HeaderValue) -> Result<(), AllocError>
        ensures ok { OnOk result (self.new ≡ inserted name value self.old) }
        ensures err { OnErr result (self.new ≡ self.old) }
        ensures replaces { IsTrue (has_line name self.old) → IsOk result }
    {
        let Some(place) = place_of(self.lines.as_slice(), &name) else {
            return self.append(name, value);
        };
        // A line goes at least, so there is room for the new one.
        drop_lines(&mut self.lines, &name);
        self.lines.insert(place, (name, value))?;
        Ok(())
    }

    /// Drops each line whose name is that of a line of `other`, and adds the lines of `other`
    /// behind the rest. Each line is compared with those of `other`. Fails only for want of memory.
    pub fn extend(&mut self, other: HeaderList) -> Result<(), AllocError>
        ensures ok { OnOk result (self.new ≡ extended self.old other) }
        ensures err { OnErr result (self.new ≡ self.old) }
    {
        let HeaderList { lines: mut more } = other;
        self.lines.reserve(more.len())?;
        self.lines
            .retain(|line| !has_line(more.as_slice(), line.0.as_str()));
        self.lines.append(&mut more)?;
        Ok(())
    }

    /// The value of the first line of a name. It takes no memory.
    pub fn first(&self, name: &str) -> Option<&HeaderValue>
        ensures { option_copied result ≡ first_of name.now self.now }
    {
        for line in &self.lines {
            if is_line_of(line, name) {
                return Some(&line.1);
            }
        }
        None
    }

    /// The value of the last line of a name. It takes no memory.
    pub fn last(&self, name: &str) -> Option<&HeaderValue>
        ensures { option_copied result ≡ last_of name.now self.now }
    {
        let mut lines = self.lines.as_slice();
        while let Some((line, earlier)) = lines.split_last() {
            if is_line_of(line, name) {
                return Some(&line.1);
            }
            lines = earlier;
        }
        None
    }

    /// The lines in order.
    pub fn lines(&self) -> &[(HeaderName, HeaderValue)]
        ensures { result.now ≡ self.now }
    {
        self.lines.as_slice()
    }

    /// The same lines in the same order. Fails only for want of memory.
    pub fn copy(&self, alloc: Global) -> Result<HeaderList, AllocError>
        ensures { IfOk result (λ copy. copy ≡ self.now) }
    {
        let mut lines = Vec::with_capacity(alloc, self.lines.len())?;
        for line in &self.lines {
            lines.push((line.0.clone()?, line.1.clone()?))?;
        }
        Ok(HeaderList { lines })
    }
}

fn is_line_of(line: &(HeaderName, HeaderValue), name: &str) -> bool
    ensures { result ≡ is_line_of name.now line.now }
{
    line.0.as_str().eq_ignore_ascii_case(name)
}

fn has_line(lines: &[(HeaderName, HeaderValue)], name: &str) -> bool
    ensures { result ≡ has_line name.now lines.now }
{
    lines.iter().any(|line| is_line_of(line, name))
}

// The place of the first line of a name.
fn place_of(lines: &[(HeaderName, HeaderValue)], name: &HeaderName) -> Option<usize>
    ensures { result ≡ position (is_line_of name.now) lines.now }
{
    lines
        .iter()
        .position(|line| is_line_of(line, name.as_str()))
}

// Drops the lines of a name, and keeps the room.
fn drop_lines(lines: &mut Vec<(HeaderName, HeaderValue)>, name: &HeaderName)
    ensures others { lines.new.items ≡ without name.now lines.old.items }
    ensures capacity { vec_capacity lines.new ≡ vec_capacity lines.old }
{
    lines.retain(|line| !is_line_of(line, name.as_str()));
}
