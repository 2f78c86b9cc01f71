//! Values of all arguments of a handler, told one by one.
use crate::told::Told;
use case_notation::{CaseError, Row};
use schema_values::Json;
use std::alloc::Global;

impl Told for () {
    fn told(self, alloc: Global, _calls: u64) -> Result<Json, CaseError> {
        Row::new(alloc).done()
    }
}

impl<X: Told> Told for (X,) {
    fn told(self, alloc: Global, calls: u64) -> Result<Json, CaseError> {
        let (x,) = self;
        let mut told = Row::new(alloc);
        told.push(x.told(alloc, calls));
        told.done()
    }
}

impl<A: Told, X: Told> Told for (A, X) {
    fn told(self, alloc: Global, calls: u64) -> Result<Json, CaseError> {
        let (a, x) = self;
        let mut told = Row::new(alloc);
        told.push(a.told(alloc, calls));
        told.push(x.told(alloc, calls));
        told.done()
    }
}

impl<A: Told, B: Told, X: Told> Told for (A, B, X) {
    fn told(self, alloc: Global, calls: u64) -> Result<Json, CaseError> {
        let (a, b, x) = self;
        let mut told = Row::new(alloc);
        told.push(a.told(alloc, calls));
        told.push(b.told(alloc, calls));
        told.push(x.told(alloc, calls));
        told.done()
    }
}

impl<A: Told, B: Told, C: Told, X: Told> Told for (A, B, C, X) {
    fn told(self, alloc: Global, calls: u64) -> Result<Json, CaseError> {
        let (a, b, c, x) = self;
        let mut told = Row::new(alloc);
        told.push(a.told(alloc, calls));
        told.push(b.told(alloc, calls));
        told.push(c.told(alloc, calls));
        told.push(x.told(alloc, calls));
        told.done()
    }
}

impl<A: Told, B: Told, C: Told, D: Told, X: Told> Told for (A, B, C, D, X) {
    fn told(self, alloc: Global, calls: u64) -> Result<Json, CaseError> {
        let (a, b, c, d, x) = self;
        let mut told = Row::new(alloc);
        told.push(a.told(alloc, calls));
        told.push(b.told(alloc, calls));
        told.push(c.told(alloc, calls));
        told.push(d.told(alloc, calls));
        told.push(x.told(alloc, calls));
        told.done()
    }
}
