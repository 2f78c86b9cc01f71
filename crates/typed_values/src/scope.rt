ghost use Rattle.std.specs.Prelude.{◌≡◌};
ghost use Rattle.typed_values.specs.Checks.{TablePasses, DescPasses};
ghost use Rattle.typed_values.specs.Guarded.{IsGuarded};
ghost use Rattle.typed_values.specs.Once.{once_all_rest};
ghost use Rattle.typed_values.specs.Ranged.{AreRangesRight};
ghost use Rattle.typed_values.specs.Resting.{AllRest};

use descriptors::{Desc, DescTable};

/// A whole descriptor, and the guarded table in which its references are looked up.
#[derive(Clone, Copy)]
pub(crate) struct Scope<'a> {
    pub table: &'a DescTable,
    pub whole: &'a Desc,
    ghost all_rest: { AllRest table.now whole.now } by { once_all_rest table.now whole.now },
}

impl<'a> Scope<'a> {
    pub(crate) fn new(table: &'a DescTable, whole: &'a Desc) -> Scope<'a>
        requires { IsGuarded table.now }
        ensures table { result.table.now ≡ table.now }
        ensures whole { result.whole.now ≡ whole.now }
    {
        Scope { table, whole }
    }
}

/// A scope in which values are decoded: it has no more names, variants or alternatives than places.
#[derive(Clone, Copy)]
pub(crate) struct Decoder<'a> {
    pub table: &'a DescTable,
    pub whole: &'a Desc,
    ghost all_rest: { AllRest table.now whole.now } by { once_all_rest table.now whole.now },
    ghost ranged: { AreRangesRight table.now whole.now },
}

impl<'a> Decoder<'a> {
    pub(crate) fn new(table: &'a DescTable, whole: &'a Desc) -> Decoder<'a>
        requires table { TablePasses table.now }
        requires whole { DescPasses table.now whole.now }
        ensures table { result.table.now ≡ table.now }
        ensures whole { result.whole.now ≡ whole.now }
    {
        Decoder { table, whole }
    }
}
