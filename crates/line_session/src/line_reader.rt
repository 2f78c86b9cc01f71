//! Lines from a source, which is read in pieces.
ghost use Rattle.std.specs.Prelude.{◌≡◌, ◌≢◌, ◌+◌, ◌<◌, ◌≤◌, [], ◌∷◌, IfOk, OnOk, OnErr, MatchOption};
ghost use Rattle.std.specs.Prelude.{drop};
ghost use Rattle.std.specs.Io.KnownBytes.{IsAtEnd};
ghost use Rattle.schema_values.specs.Causes.{HasRisen, HasCause};

use crate::ends::{Failed, Source};
use std::alloc::{AllocError, Global};
use std::marker::Model;

/// What comes next of the lines of a source.
#[derive(Drop)]
pub enum NextLine {
    /// A line, with a newline behind it.
    Ended(Vec<u8>),
    /// What stands behind the last newline.
    End(Vec<u8>),
    /// The source failed.
    ReadFault,
    /// The next byte makes the line too long.
    TooLong,
    /// There is a byte more than may be handled.
    TooMuchInput,
    /// There was not enough memory.
    OutOfMemory,
}

// The most bytes that are asked for at once.
const PIECE: usize = 4096;

// Room that a line begins with: more than most have, so that they do not grow, and little beside a piece.
const FIRST_ROOM: usize = 256;

// An empty line, with that room where there is memory for it.
fn empty_line(alloc: Global) -> Vec<u8>
    ensures { result.items ≡ [] }
{
    Vec::with_capacity(alloc, FIRST_ROOM).unwrap_or(Vec::new(alloc))
}

/// Reads lines from a source in pieces, and handles them byte by byte.
#[derive(Drop)]
pub struct LineReader {
    piece: Vec<u8>,
    at: usize,
    filled: usize,
    budget: u64,
}

impl Model for LineReader {
    ghost use Rattle.std.specs.Prelude.{◌≡◌, ◌≤◌, slice_range, vec_len};
    ghost use Rattle.line_session.specs.Reading.{Reading};

    ghost Value = { Reading };

    ghost view = { λ a. record { pending = slice_range a.piece.items a.at a.filled; budget = a.budget } };

    ghost invariant = { λ a. (a.at ≤ a.filled) × (a.filled ≤ vec_len a.piece) × (vec_len a.piece ≡ 4096) };
}

impl LineReader {
    ghost use Rattle.line_session.specs.Reading.{Handles};
    ghost use Rattle.line_session.specs.Calls.{IsNextBy, PeeksBy};
    ghost use Rattle.line_session.specs.NextLine.{IsNext};

    /// A reader that has read nothing, and handles at most `budget` bytes. Fails only for want of memory.
    pub fn new(alloc: Global, budget: u64) -> Result<Self, AllocError>
        ensures pending { IfOk result (λ r. r.pending ≡ []) }
        ensures budget { IfOk result (λ r. r.budget ≡ budget) }
    {
        Ok(LineReader {
            piece: vec![in alloc; 0; PIECE]?,
            at: 0,
            filled: 0,
            budget,
        })
    }

    // The next byte, which stays pending; none at the end.
    fn peek<S: Source>(&mut self, source: &mut S) -> Result<Option<u8>, Failed>
        ensures handles { Handles self.old self.new (S.left source.old) (S.left source.new) [] }
        ensures next { IfOk result (λ next. MatchOption next
            ((self.new.pending ≡ []) × IsAtEnd (S.left source.new))
            (λ b. self.new.pending ≡ b ∷ drop 1 self.new.pending)) }
        ensures failed { OnErr result (self.new.pending ≡ []) }
        ensures cause { HasCause (S.faults source.old) (S.faults source.new) result }
        ensures counts { OnOk result (S.faults source.new ≡ S.faults source.old) }
        ensures calls { PeeksBy S.Source self.old self.new source.old source.new result }
    {
        if self.at == self.filled {
            return self.refill(source);
        }
        Ok(Some(self.piece[self.at]))
    }

    // Reads the next piece where none is pending, and gives its first byte; none at the end.
    fn refill<S: Source>(&mut self, source: &mut S) -> Result<Option<u8>, Failed>
        requires { self.old.pending ≡ [] }
        ensures handles { Handles self.old self.new (S.left source.old) (S.left source.new) [] }
        ensures next { IfOk result (λ next. MatchOption next
            ((self.new.pending ≡ []) × IsAtEnd (S.left source.new))
            (λ b. self.new.pending ≡ b ∷ drop 1 self.new.pending)) }
        ensures failed { OnErr result (self.new.pending ≡ []) }
        ensures cause { HasCause (S.faults source.old) (S.faults source.new) result }
        ensures counts { OnOk result (S.faults source.new ≡ S.faults source.old) }
        ensures calls { PeeksBy S.Source self.old self.new source.old source.new result }
    {
        self.at = 0;
        self.filled = 0;
        let count = source.read(&mut self.piece)?;
        if count == 0 {
            return Ok(None);
        }
        self.filled = count;
        Ok(Some(self.piece[0]))
    }

    // Handles the byte that is pending.
    fn advance(&mut self)
        requires pending { self.old.pending ≢ [] }
        requires budget { 0 < self.old.budget }
        ensures pending { self.new.pending ≡ drop 1 self.old.pending }
        ensures budget { self.new.budget + 1 ≡ self.old.budget }
    {
        self.at += 1;
        self.budget -= 1;
    }

    /// The next line, of at most `longest` bytes without its newline. Where none is whole, says why not.
    pub fn next_line<S: Source>(&mut self, alloc: Global, longest: u64, source: &mut S) -> NextLine
        ensures next { IsNext longest self.old self.new (S.left source.old) (S.left source.new) result }
        ensures later { S.faults source.old ≤ S.faults source.new }
        ensures failed { result ≡ NextLine.ReadFault → HasRisen (S.faults source.old) (S.faults source.new) }
        ensures counts { result ≢ NextLine.ReadFault → S.faults source.new ≡ S.faults source.old }
        ensures calls { IsNextBy S.Source longest self.old self.new source.old source.new result }
    {
        let mut line = empty_line(alloc);
        'bytes: loop {
            match self.peek(source) {
                Err(_) => return NextLine::ReadFault,
                Ok(None) => return NextLine::End(line),
                Ok(Some(byte)) => {
                    if self.budget == 0 {
                        return NextLine::TooMuchInput;
                    }
                    if byte == b'\n' {
                        self.advance();
                        return NextLine::Ended(line);
                    }
                    if line.len() as u64 >= longest {
                        return NextLine::TooLong;
                    }
                    if line.push(byte).is_err() {
                        return NextLine::OutOfMemory;
                    }
                    self.advance();
                }
            }
        }
    }
}
