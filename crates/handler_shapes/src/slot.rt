//! What a handler takes of a request.
ghost use Rattle.std.specs.Prelude.{◌≡◌, IfOk};

use schema_values::{List, Text};
use std::alloc::{AllocError, Global};
use typed_values::{Desc, DescTable};

/// What a handler takes of a request. Descriptors are read in the table of the handler's shape, but
/// for that of a selector, which has a table of its own.
#[derive(Drop)]
pub enum Slot {
    /// The variables of the path, as a struct.
    Path(Desc),
    /// The pairs of the query, as a struct.
    Query(Desc),
    /// The header lines, as a struct.
    Header(Desc),
    /// A page of results: the first one, by a scan, or a later one, by the selector of a token; and
    /// how many items it has at most.
    PagedQuery {
        /// The struct of a scan.
        scan: Desc,
        /// What a token holds.
        selector: Desc,
        /// The definitions that the selector refers to.
        selector_table: DescTable,
    },
    /// The body, decoded under a descriptor, and the name of its type.
    TypedBody(Desc, Text),
    /// The bytes of the body.
    RawBody,
    /// The body itself, read frame by frame.
    StreamBody,
}

impl Slot {
    /// A slot equal to this one. Fails only for want of memory.
    pub fn copy(&self, alloc: Global) -> Result<Slot, AllocError>
        ensures { IfOk result (λ copy. copy ≡ self.now) }
    {
        match self {
            Slot::Path(desc) => Ok(Slot::Path(desc.copy(alloc)?)),
            Slot::Query(desc) => Ok(Slot::Query(desc.copy(alloc)?)),
            Slot::Header(desc) => Ok(Slot::Header(desc.copy(alloc)?)),
            Slot::PagedQuery {
                scan,
                selector,
                selector_table,
            } => copy_pages(alloc, scan, selector, selector_table),
            Slot::TypedBody(desc, name) => {
                let name = name.copy(alloc)?;
                Ok(Slot::TypedBody(desc.copy(alloc)?, name))
            }
            Slot::RawBody => Ok(Slot::RawBody),
            Slot::StreamBody => Ok(Slot::StreamBody),
        }
    }
}

// A slot of pages with the same descriptors.
fn copy_pages(
    alloc: Global,
    scan: &Desc,
    selector: &Desc,
    selector_table: &DescTable,
) -> Result<Slot, AllocError>
    ensures { IfOk result (λ copy.
        copy ≡ Slot.PagedQuery scan.now selector.now selector_table.now) }
{
    Ok(Slot::PagedQuery {
        selector_table: selector_table.copy(alloc)?,
        scan: scan.copy(alloc)?,
        selector: selector.copy(alloc)?,
    })
}

// The same slots in the same order.
pub(crate) fn copy_slots(alloc: Global, slots: &[Slot]) -> Result<List<Slot>, AllocError>
    ensures { IfOk result (λ copy. copy ≡ slots.now) }
{
    let mut copies = List::new(alloc);
    for slot in slots {
        copies.push(slot.copy(alloc)?)?;
    }
    Ok(copies)
}
