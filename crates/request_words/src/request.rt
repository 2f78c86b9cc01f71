ghost use Rattle.std.specs.Prelude.{◌≡◌, IfOk};

use schema_values::{List, Text, VariableSet, copy_variables};
use std::alloc::{AllocError, Global};

/// A header line (RFC 9110, section 5).
#[derive(Drop)]
pub struct HeaderLine {
    /// Its name, in any case.
    pub name: Text,
    /// The bytes of its value.
    pub value: List<u8>,
}

impl HeaderLine {
    /// A line equal to this one.
    pub fn copy(&self, alloc: Global) -> Result<HeaderLine, AllocError>
        ensures { IfOk result (λ copy. copy ≡ self.now) }
    {
        Ok(HeaderLine {
            name: self.name.copy(alloc)?,
            value: List::from_bytes(alloc, self.value.as_slice())?,
        })
    }
}

/// A request as it comes in.
#[derive(Drop)]
pub struct WireRequest {
    /// The variables of its path.
    pub variables: VariableSet,
    /// The query of its target, empty where it has none.
    pub query: Text,
    /// Its header lines, in order.
    pub headers: List<HeaderLine>,
    /// The bytes of its body.
    pub body: List<u8>,
}

impl WireRequest {
    /// A request with the same variables, query, lines and body.
    pub fn copy(&self, alloc: Global) -> Result<WireRequest, AllocError>
        ensures variables { IfOk result (λ copy. copy.variables.entries ≡ self.now.variables.entries) }
        ensures query { IfOk result (λ copy. copy.query ≡ self.now.query) }
        ensures headers { IfOk result (λ copy. copy.headers ≡ self.now.headers) }
        ensures body { IfOk result (λ copy. copy.body ≡ self.now.body) }
    {
        Ok(WireRequest {
            variables: copy_variables(alloc, &self.variables)?,
            query: self.query.copy(alloc)?,
            headers: copy_lines(alloc, self.headers.as_slice())?,
            body: List::from_bytes(alloc, self.body.as_slice())?,
        })
    }
}

fn copy_lines(alloc: Global, lines: &[HeaderLine]) -> Result<List<HeaderLine>, AllocError>
    ensures { IfOk result (λ copies. copies ≡ lines.now) }
{
    let mut copies = List::new(alloc);
    for line in lines {
        copies.push(line.copy(alloc)?)?;
    }
    Ok(copies)
}
