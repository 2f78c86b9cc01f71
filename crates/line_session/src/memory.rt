//! Sources and sinks in memory: with a list of calls that fail, or with none.
ghost use Rattle.std.specs.Prelude.{◌≡◌, ◌≤◌, ◌<◌, ◌↔◌, Some, [], length, is_err, IfOk, IsErrOf, IsTrue};
ghost use Rattle.std.specs.Prelude.{OnOk};
ghost use Rattle.std.specs.Io.{ReadsAtMost, WritesAtMost};
ghost use Rattle.std.specs.Io.KnownBytes.{ReadConsumes, WriteAppends};
ghost use Rattle.schema_values.specs.Causes.{HasCause, HasRisen};
ghost use Rattle.line_session.specs.Memory.{CopiesFront, IsMemoryRead, IsMemoryWrite, ReadsWhole, WritesWhole};
ghost use Rattle.line_session.specs.Memory.{after_call, fresh, is_failing, one_more};

use crate::ends::{Failed, Sink, SinkError, Source};
use schema_values::List;
use std::alloc::Global;
use std::marker::Model;

/// Bytes to be read, and the numbers, from 0, of the calls that fail. Calls after the first 2^64-1 do not
/// fail.
#[derive(Drop)]
pub struct MemorySource {
    content: List<u8>,
    at: usize,
    failing: List<u64>,
    calls: u64,
    faults: u64,
}

/// Bytes to be read, by calls that never fail and give as many as are left and fit.
#[derive(Drop)]
pub struct SafeSource {
    content: List<u8>,
    at: usize,
}

/// Bytes that were written, and the numbers, from 0, of the calls that fail. Calls after the first 2^64-1
/// fail only for memory.
#[derive(Drop)]
pub struct MemorySink {
    content: Vec<u8>,
    failing: List<u64>,
    calls: u64,
    faults: u64,
}

/// Bytes that were written, by calls that fail only for memory.
#[derive(Drop)]
pub struct SafeSink {
    content: Vec<u8>,
}

impl Model for MemorySource {
    ghost use Rattle.std.specs.Prelude.{◌≤◌, drop, length};
    ghost use Rattle.line_session.specs.Memory.{MemoryState};

    ghost Value = { MemoryState };

    ghost view = { λ s. record {
      bytes = drop s.at s.content;
      failing = s.failing;
      calls = s.calls;
      faults = s.faults;
    } };

    ghost invariant = { λ s. s.at ≤ length s.content };
}

impl Model for SafeSource {
    ghost use Rattle.std.specs.Prelude.{◌≤◌, ℕ, List, drop, length};

    ghost Value = { List ℕ };

    ghost view = { λ s. drop s.at s.content };

    ghost invariant = { λ s. s.at ≤ length s.content };
}

impl Model for MemorySink {
    ghost use Rattle.line_session.specs.Memory.{MemoryState};

    ghost Value = { MemoryState };

    ghost view = { λ s. record {
      bytes = s.content.items;
      failing = s.failing;
      calls = s.calls;
      faults = s.faults;
    } };
}

impl Model for SafeSink {
    ghost use Rattle.std.specs.Prelude.{ℕ, List};

    ghost Value = { List ℕ };

    ghost view = { λ s. s.content.items };
}

impl MemorySource {
    /// A source of these bytes whose calls of these numbers fail.
    pub fn new(content: List<u8>, failing: List<u64>) -> Self
        ensures { result ≡ fresh content failing }
    {
        MemorySource {
            content,
            at: 0,
            failing,
            calls: 0,
            faults: 0,
        }
    }
}

impl SafeSource {
    /// A source of these bytes.
    pub fn new(content: List<u8>) -> Self
        ensures { result ≡ content }
    {
        SafeSource { content, at: 0 }
    }
}

impl MemorySink {
    /// A sink that has taken nothing, whose calls of these numbers fail.
    pub fn new(alloc: Global, failing: List<u64>) -> Self
        ensures { result ≡ fresh [] failing }
    {
        MemorySink {
            content: Vec::new(alloc),
            failing,
            calls: 0,
            faults: 0,
        }
    }

    /// The bytes that were taken, in order.
    pub fn taken(&self) -> &[u8]
        ensures { result.now ≡ self.now.bytes }
    {
        &self.content
    }
}

impl SafeSink {
    /// A sink that has taken nothing.
    pub fn new(alloc: Global) -> Self
        ensures { result ≡ [] }
    {
        SafeSink {
            content: Vec::new(alloc),
        }
    }

    /// The bytes that were taken, in order.
    pub fn taken(&self) -> &[u8]
        ensures { result.now ≡ self.now }
    {
        &self.content
    }
}

// Copies bytes from the front of `content` behind `at` into `buf`, as many as there are and fit.
fn copy_front(content: &[u8], at: usize, buf: &mut [u8]) -> usize
    requires { at ≤ length content.now }
    ensures { CopiesFront content.now at buf.new result }
{
    let rest = &content[at..];
    let count = rest.len().min(buf.len());
    buf[..count].copy_from_slice(&rest[..count]);
    count
}

// Whether the call with this number is one of those that fail. Counts the call.
fn is_failing(failing: &[u64], calls: &mut u64) -> bool
    ensures answer { result ≡ is_failing failing.now calls.old }
    ensures counted { calls.new ≡ one_more calls.old }
{
    let number = *calls;
    if number == u64::MAX {
        return false;
    }
    *calls = number + 1;
    failing.contains(&number)
}

impl Source for MemorySource {
    ghost left = { λ s. Some s.bytes };

    ghost faults = { λ s. s.faults };

    ghost read_gives = { λ old buf result new. IsMemoryRead old buf result new };

    fn read(&mut self, buf: &mut [u8]) -> Result<usize, Failed>
        ensures bound { ReadsAtMost result buf.new }
        ensures bytes { ReadConsumes (Some self.old.bytes) (Some self.new.bytes) result buf.new }
        ensures cause { HasCause self.old.faults self.new.faults result }
        ensures counts { OnOk result (self.new.faults ≡ self.old.faults) }

        // It fails at these calls and at no other, and the count rises by each.
        ensures exactly { is_err result ≡ is_failing self.old.failing self.old.calls }
        ensures after { self.new ≡ after_call self.old self.new.bytes }

        // It gives as many bytes as are left and fit.
        ensures whole { ReadsWhole self.old.bytes buf.new result }
    {
        if is_failing(self.failing.as_slice(), &mut self.calls) {
            self.faults = self.faults.saturating_add(1);
            return Err(Failed);
        }
        let count = copy_front(self.content.as_slice(), self.at, buf);
        self.at += count;
        Ok(count)
    }
}

impl Source for SafeSource {
    ghost left = { λ s. Some s };

    ghost faults = { λ s. 0 };

    ghost read_gives = { λ old buf result _. ReadsWhole old buf result };

    fn read(&mut self, buf: &mut [u8]) -> Result<usize, Failed> {
        let count = copy_front(self.content.as_slice(), self.at, buf);
        self.at += count;
        Ok(count)
    }
}

impl Sink for MemorySink {
    ghost taken = { λ s. Some s.bytes };

    ghost faults = { λ s. s.faults };

    ghost write_gives = { λ old piece result new. IsMemoryWrite old piece result new };

    fn write(&mut self, piece: &[u8]) -> Result<usize, SinkError>
        ensures bound { WritesAtMost result piece.now }
        ensures progress { 0 < length piece.now → IfOk result (λ n. 0 < n) }
        ensures bytes { WriteAppends (Some self.old.bytes) (Some self.new.bytes) result piece.now }
        ensures later { self.old.faults ≤ self.new.faults }
        ensures failed { IsErrOf result SinkError.Failed → HasRisen self.old.faults self.new.faults }
        ensures counts { ¬ IsErrOf result SinkError.Failed → self.new.faults ≡ self.old.faults }

        // It fails at these calls and at no other, and the count rises by each.
        ensures exactly { IsErrOf result SinkError.Failed
            ↔ IsTrue (is_failing self.old.failing self.old.calls) }
        ensures after { self.new ≡ after_call self.old self.new.bytes }

        // It takes the whole piece.
        ensures whole { WritesWhole piece.now result }
    {
        if is_failing(self.failing.as_slice(), &mut self.calls) {
            self.faults = self.faults.saturating_add(1);
            return Err(SinkError::Failed);
        }
        match self.content.extend_from_slice(piece) {
            Ok(()) => Ok(piece.len()),
            Err(_) => Err(SinkError::OutOfMemory),
        }
    }
}

impl Sink for SafeSink {
    ghost taken = { λ s. Some s };

    ghost faults = { λ s. 0 };

    ghost write_gives = { λ _ piece result _. WritesWhole piece result };

    fn write(&mut self, piece: &[u8]) -> Result<usize, SinkError> {
        match self.content.extend_from_slice(piece) {
            Ok(()) => Ok(piece.len()),
            Err(_) => Err(SinkError::OutOfMemory),
        }
    }
}
