//! Tuples of up to four shared extractors and an exclusive one.
ghost use Rattle.std.specs.Prelude.{◌≡◌, ◌⊎◌, ◌++◌, ◌∷◌, [], IfErr, IfOk, OnErr, OnOk};
ghost use Rattle.std.specs.List.{flat_map};
ghost use Rattle.api_types.specs.Additions.{with_all};
ghost use Rattle.api_types.specs.Types.{HoldsAll};
ghost use Rattle.handler_shapes.specs.Arguments.{ArgsStay};
ghost use Rattle.typed_extractors.specs.Selectors.{HaveOwnTables, selectors_in};
ghost use Rattle.typed_extractors.specs.SlotAdditions.{AreSlotsRefused, HaveTables};
ghost use Rattle.typed_extractors.specs.SlotsReach.{SlotsReachExactly};
ghost use Rattle.typed_extractors.specs.Taken.{AreTaken, ConvertsFirst, IsNothing, LeavesFirst};

use crate::common::{ExclusiveExtractor, RequestExtractor, SharedExtractor};
use handler_shapes::{Arg, Slot};
use schema_values::List;
use std::alloc::{AllocError, Global};
use typed_values::{AddError, DescTable};

impl RequestExtractor for () {
    ghost slots_of = { [] };

    ghost definitions_of = { [] };

    ghost converts = { IsNothing };

    ghost may_fail = { ⊥ };

    fn slots(alloc: Global, _table: &mut DescTable) -> Result<List<Slot>, AddError> {
        Ok(List::new(alloc))
    }

    fn from_args(_alloc: Global, _args: &mut [Arg]) -> Result<(), AllocError> {
        Ok(())
    }
}

impl<X: ExclusiveExtractor> RequestExtractor for (X,) {
    ghost slots_of = { X.slot_of ∷ [] };

    ghost definitions_of = { X.definitions_of ++ [] };

    ghost selectors_of = { X.selectors_of ++ [] };

    ghost converts = { λ args value. ConvertsFirst X.converts IsNothing args value.0 tt };

    ghost leaves = { LeavesFirst X.leaves ⟦<() as RequestExtractor>⟧.leaves };

    ghost may_fail = { X.may_fail ⊎ ⊥ };

    fn slots(alloc: Global, table: &mut DescTable) -> Result<List<Slot>, AddError> {
        slots_with::<X, ()>(alloc, table)
    }

    fn from_args(alloc: Global, args: &mut [Arg]) -> Result<(X,), AllocError> {
        let (x, ()) = first_of::<X, ()>(alloc, args)?;
        Ok((x,))
    }
}

impl<A: SharedExtractor, X: ExclusiveExtractor> RequestExtractor for (A, X) {
    ghost slots_of = { A.slot_of ∷ X.slot_of ∷ [] };

    ghost definitions_of = { A.definitions_of ++ (X.definitions_of ++ []) };

    ghost selectors_of = { A.selectors_of ++ (X.selectors_of ++ []) };

    ghost converts = { λ args value. ConvertsFirst A.converts ⟦<(X,) as RequestExtractor>⟧.converts
        args value.0 (record { 0 = value.1 }) };

    ghost leaves = { LeavesFirst A.leaves ⟦<(X,) as RequestExtractor>⟧.leaves };

    ghost may_fail = { A.may_fail ⊎ ⟦<(X,) as RequestExtractor>⟧.may_fail };

    fn slots(alloc: Global, table: &mut DescTable) -> Result<List<Slot>, AddError> {
        slots_with::<A, (X,)>(alloc, table)
    }

    fn from_args(alloc: Global, args: &mut [Arg]) -> Result<(A, X), AllocError> {
        let (a, (x,)) = first_of::<A, (X,)>(alloc, args)?;
        Ok((a, x))
    }
}

impl<A, B, X> RequestExtractor for (A, B, X)
where
    A: SharedExtractor,
    B: SharedExtractor,
    X: ExclusiveExtractor,
{
    ghost slots_of = { A.slot_of ∷ B.slot_of ∷ X.slot_of ∷ [] };

    ghost definitions_of = { A.definitions_of ++ (B.definitions_of ++ (X.definitions_of ++ [])) };

    ghost selectors_of = { A.selectors_of ++ (B.selectors_of ++ (X.selectors_of ++ [])) };

    ghost converts = { λ args value. ConvertsFirst A.converts
        ⟦<(B, X) as RequestExtractor>⟧.converts args value.0 (value.1, value.2) };

    ghost leaves = { LeavesFirst A.leaves ⟦<(B, X) as RequestExtractor>⟧.leaves };

    ghost may_fail = { A.may_fail ⊎ ⟦<(B, X) as RequestExtractor>⟧.may_fail };

    fn slots(alloc: Global, table: &mut DescTable) -> Result<List<Slot>, AddError> {
        slots_with::<A, (B, X)>(alloc, table)
    }

    fn from_args(alloc: Global, args: &mut [Arg]) -> Result<(A, B, X), AllocError> {
        let (a, (b, x)) = first_of::<A, (B, X)>(alloc, args)?;
        Ok((a, b, x))
    }
}

impl<A, B, C, X> RequestExtractor for (A, B, C, X)
where
    A: SharedExtractor,
    B: SharedExtractor,
    C: SharedExtractor,
    X: ExclusiveExtractor,
{
    ghost slots_of = { A.slot_of ∷ B.slot_of ∷ C.slot_of ∷ X.slot_of ∷ [] };

    ghost definitions_of = { A.definitions_of ++ (B.definitions_of ++ (C.definitions_of
        ++ (X.definitions_of ++ []))) };

    ghost selectors_of = { A.selectors_of ++ (B.selectors_of ++ (C.selectors_of
        ++ (X.selectors_of ++ []))) };

    ghost converts = { λ args value. ConvertsFirst A.converts
        ⟦<(B, C, X) as RequestExtractor>⟧.converts args value.0 (value.1, value.2, value.3) };

    ghost leaves = { LeavesFirst A.leaves ⟦<(B, C, X) as RequestExtractor>⟧.leaves };

    ghost may_fail = { A.may_fail ⊎ ⟦<(B, C, X) as RequestExtractor>⟧.may_fail };

    fn slots(alloc: Global, table: &mut DescTable) -> Result<List<Slot>, AddError> {
        slots_with::<A, (B, C, X)>(alloc, table)
    }

    fn from_args(alloc: Global, args: &mut [Arg]) -> Result<(A, B, C, X), AllocError> {
        let (a, (b, c, x)) = first_of::<A, (B, C, X)>(alloc, args)?;
        Ok((a, b, c, x))
    }
}

impl<A, B, C, D, X> RequestExtractor for (A, B, C, D, X)
where
    A: SharedExtractor,
    B: SharedExtractor,
    C: SharedExtractor,
    D: SharedExtractor,
    X: ExclusiveExtractor,
{
    ghost slots_of = { A.slot_of ∷ B.slot_of ∷ C.slot_of ∷ D.slot_of ∷ X.slot_of ∷ [] };

    ghost definitions_of = { A.definitions_of ++ (B.definitions_of ++ (C.definitions_of
        ++ (D.definitions_of ++ (X.definitions_of ++ [])))) };

    ghost selectors_of = { A.selectors_of ++ (B.selectors_of ++ (C.selectors_of
        ++ (D.selectors_of ++ (X.selectors_of ++ [])))) };

    ghost converts = { λ args value. ConvertsFirst A.converts
        ⟦<(B, C, D, X) as RequestExtractor>⟧.converts args value.0
        (value.1, value.2, value.3, value.4) };

    ghost leaves = { LeavesFirst A.leaves ⟦<(B, C, D, X) as RequestExtractor>⟧.leaves };

    ghost may_fail = { A.may_fail ⊎ ⟦<(B, C, D, X) as RequestExtractor>⟧.may_fail };

    fn slots(alloc: Global, table: &mut DescTable) -> Result<List<Slot>, AddError> {
        slots_with::<A, (B, C, D, X)>(alloc, table)
    }

    fn from_args(alloc: Global, args: &mut [Arg]) -> Result<(A, B, C, D, X), AllocError> {
        let (a, (b, c, d, x)) = first_of::<A, (B, C, D, X)>(alloc, args)?;
        Ok((a, b, c, d, x))
    }
}

// The slot of one part, and then those of the others. The table is copied, so that it stays as it
// was after an error.
fn slots_with<S: ExclusiveExtractor, R: RequestExtractor>(
    alloc: Global,
    table: &mut DescTable,
) -> Result<List<Slot>, AddError>
    ensures slots { IfOk result (λ slots. slots ≡ S.slot_of ∷ R.slots_of) }
    ensures reaches { OnOk result (SlotsReachExactly (S.definitions_of ++ R.definitions_of)
        (S.slot_of ∷ R.slots_of)) }
    ensures added { OnOk result (table.new
        ≡ with_all table.old (S.definitions_of ++ R.definitions_of)) }
    ensures held { OnOk result (HoldsAll table.new (S.definitions_of ++ R.definitions_of)) }
    ensures tables { OnOk result (HaveTables (S.selectors_of ++ R.selectors_of)) }
    ensures own_tables { OnOk result (HaveOwnTables (S.selectors_of ++ R.selectors_of)
        (flat_map selectors_in (S.slot_of ∷ R.slots_of))) }
    ensures refused { IfErr result (AreSlotsRefused table.old (S.definitions_of ++ R.definitions_of)
        (S.selectors_of ++ R.selectors_of)) }
    ensures err { OnErr result (table.new ≡ table.old) }
{
    let mut all = table.copy(alloc)?;
    let slots = add_slots::<S, R>(alloc, &mut all)?;
    *table = all;
    Ok(slots)
}

// The same, but that an error may leave the definitions of the first part in the table. The first
// slot stands in a list of its own, to which those of the others are appended.
fn add_slots<S: ExclusiveExtractor, R: RequestExtractor>(
    alloc: Global,
    table: &mut DescTable,
) -> Result<List<Slot>, AddError>
    ensures slots { IfOk result (λ slots. slots ≡ S.slot_of ∷ R.slots_of) }
    ensures reaches { OnOk result (SlotsReachExactly (S.definitions_of ++ R.definitions_of)
        (S.slot_of ∷ R.slots_of)) }
    ensures added { OnOk result (table.new
        ≡ with_all table.old (S.definitions_of ++ R.definitions_of)) }
    ensures held { OnOk result (HoldsAll table.new (S.definitions_of ++ R.definitions_of)) }
    ensures tables { OnOk result (HaveTables (S.selectors_of ++ R.selectors_of)) }
    ensures own_tables { OnOk result (HaveOwnTables (S.selectors_of ++ R.selectors_of)
        (flat_map selectors_in (S.slot_of ∷ R.slots_of))) }
    ensures refused { IfErr result (AreSlotsRefused table.old (S.definitions_of ++ R.definitions_of)
        (S.selectors_of ++ R.selectors_of)) }
{
    let first = alone(alloc, S::slot(alloc, table)?)?;
    let others = R::slots(alloc, table)?;
    Ok(joined(first, others)?)
}

fn alone(alloc: Global, slot: Slot) -> Result<List<Slot>, AllocError>
    ensures { IfOk result (λ slots. slots ≡ slot ∷ []) }
{
    let mut slots = List::new(alloc);
    slots.push(slot)?;
    Ok(slots)
}

fn joined(first: List<Slot>, others: List<Slot>) -> Result<List<Slot>, AllocError>
    ensures { IfOk result (λ slots. slots ≡ first ++ others) }
{
    let mut slots = first.into_vec();
    let mut others = others.into_vec();
    slots.append(&mut others)?;
    Ok(List::from_vec(slots))
}

// The value of the first argument, and then that of the others.
fn first_of<S: ExclusiveExtractor, R: RequestExtractor>(
    alloc: Global,
    args: &mut [Arg],
) -> Result<(S, R), AllocError>
    requires { AreTaken (S.slot_of ∷ R.slots_of) (S.definitions_of ++ R.definitions_of)
        (S.selectors_of ++ R.selectors_of) args.old }
    ensures converted { IfOk result (λ value. ConvertsFirst S.converts R.converts args.old
        value.0 value.1) }
    ensures stay { ArgsStay args.old args.new }
    ensures left { OnOk result (LeavesFirst S.leaves R.leaves args.old args.new) }
    ensures memory { OnErr result (S.may_fail ⊎ R.may_fail) }
{
    match args.split_first_mut() {
        Some((first, others)) => {
            let value = S::from_arg(alloc, first)?;
            let rest = R::from_args(alloc, others)?;
            Ok((value, rest))
        }
        None => unreachable!(),
    }
}
