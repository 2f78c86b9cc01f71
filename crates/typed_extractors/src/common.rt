//! The three kinds of extractors, and what the extractors of this library share.
ghost use Rattle.std.specs.Prelude.{◌≡◌, IfErr, IfOk, OnErr, OnOk};
ghost use Rattle.std.specs.List.{flat_map};
ghost use Rattle.api_types.specs.Additions.{AreRefused, with_all};
ghost use Rattle.api_types.specs.Types.{HoldsAll, ReachesExactly};
ghost use Rattle.handler_shapes.specs.Arguments.{ArgStays, ArgsStay};
ghost use Rattle.handler_shapes.specs.declared.arguments.Arg.TheVariants as arguments;
ghost use Rattle.typed_extractors.specs.Selectors.{HaveOwnTables, selectors_in};
ghost use Rattle.typed_extractors.specs.SlotAdditions.{AreSlotsRefused, HaveTables};
ghost use Rattle.typed_extractors.specs.SlotsReach.{SlotReachesExactly, SlotsReachExactly};
ghost use Rattle.typed_extractors.specs.Taken.{AreTaken, IsTaken, IsTreeOf};

use api_types::ApiType;
use handler_shapes::{Arg, Slot};
use schema_values::List;
use std::alloc::{AllocError, Global};
use typed_values::{AddError, Desc, DescTable};

/// What is made of one argument of a handler, in any place.
///
/// An extractor of one's own names a slot and a conversion; it reads nothing of the request.
pub trait SharedExtractor: Sized + Drop {
    ghost use Rattle.std.specs.Prelude.{⊤, List, []};
    ghost use Rattle.descriptors.specs.declared.table.Definition.{Definition};
    ghost use Rattle.handler_shapes.specs.declared.arguments.Arg.{Arg};
    ghost use Rattle.handler_shapes.specs.declared.slot.Slot.{Slot};

    /// The slot that it takes.
    ghost slot_of: { Slot };

    /// The definitions that the slot reaches in the table of a handler's shape, in the order in
    /// which they are added.
    ghost definitions_of: { List Definition };

    /// The definitions of each selector of the slot, which has a table of its own. Where this is
    /// not given, there is none.
    ghost selectors_of: { List (List Definition) } = { [] };

    /// The values that an argument converts to.
    ghost converts: { Arg → Self → Type 0 };

    /// What is left in the place of an argument that was converted, besides that trees and bytes
    /// stay. Where this is not given, nothing is said of it.
    ghost leaves: { Arg → Arg → Type 0 } = { λ before after. ⊤ };

    /// That memory may run out in a conversion. Where this is not given, it may.
    ghost may_fail: { Type 0 } = { ⊤ };

    /// The slot, with the descriptors of its types. Adds the definitions that it reaches to the
    /// table, and no others: all of them, or none where one clashes. The clash is told.
    fn slot(alloc: Global, table: &mut DescTable) -> Result<Slot, AddError>
        ensures slot { IfOk result (λ slot. slot ≡ slot_of) }
        ensures reaches { OnOk result (SlotReachesExactly definitions_of slot_of) }
        ensures added { OnOk result (table.new ≡ with_all table.old definitions_of) }
        ensures held { OnOk result (HoldsAll table.new definitions_of) }
        ensures tables { OnOk result (HaveTables selectors_of) }
        ensures own_tables { OnOk result (HaveOwnTables selectors_of (selectors_in slot_of)) }
        ensures refused { IfErr result (AreSlotsRefused table.old definitions_of selectors_of) }
        ensures err { OnErr result (table.new ≡ table.old) };

    /// The value of an argument that fits the slot. A tree and bytes stay in the argument; a body
    /// is taken out of it.
    fn from_arg(alloc: Global, arg: &mut Arg) -> Result<Self, AllocError>
        requires { IsTaken slot_of definitions_of selectors_of arg.old }
        ensures converted { IfOk result (λ value. converts arg.old value) }
        ensures stays { ArgStays arg.old arg.new }
        ensures left { OnOk result (leaves arg.old arg.new) }
        ensures memory { OnErr result may_fail };
}

/// What is made of one argument of a handler, in the last place, as a body is. Each shared
/// extractor is one.
///
/// An extractor of one's own names a slot and a conversion; it reads nothing of the request.
pub trait ExclusiveExtractor: Sized + Drop {
    ghost use Rattle.std.specs.Prelude.{⊤, List, []};
    ghost use Rattle.descriptors.specs.declared.table.Definition.{Definition};
    ghost use Rattle.handler_shapes.specs.declared.arguments.Arg.{Arg};
    ghost use Rattle.handler_shapes.specs.declared.slot.Slot.{Slot};

    /// The slot that it takes.
    ghost slot_of: { Slot };

    /// The definitions that the slot reaches in the table of a handler's shape, in the order in
    /// which they are added.
    ghost definitions_of: { List Definition };

    /// The definitions of each selector of the slot, which has a table of its own. Where this is
    /// not given, there is none.
    ghost selectors_of: { List (List Definition) } = { [] };

    /// The values that an argument converts to.
    ghost converts: { Arg → Self → Type 0 };

    /// What is left in the place of an argument that was converted, besides that trees and bytes
    /// stay. Where this is not given, nothing is said of it.
    ghost leaves: { Arg → Arg → Type 0 } = { λ before after. ⊤ };

    /// That memory may run out in a conversion. Where this is not given, it may.
    ghost may_fail: { Type 0 } = { ⊤ };

    /// The slot, with the descriptors of its types. Adds the definitions that it reaches to the
    /// table, and no others: all of them, or none where one clashes. The clash is told.
    fn slot(alloc: Global, table: &mut DescTable) -> Result<Slot, AddError>
        ensures slot { IfOk result (λ slot. slot ≡ slot_of) }
        ensures reaches { OnOk result (SlotReachesExactly definitions_of slot_of) }
        ensures added { OnOk result (table.new ≡ with_all table.old definitions_of) }
        ensures held { OnOk result (HoldsAll table.new definitions_of) }
        ensures tables { OnOk result (HaveTables selectors_of) }
        ensures own_tables { OnOk result (HaveOwnTables selectors_of (selectors_in slot_of)) }
        ensures refused { IfErr result (AreSlotsRefused table.old definitions_of selectors_of) }
        ensures err { OnErr result (table.new ≡ table.old) };

    /// The value of an argument that fits the slot. A tree and bytes stay in the argument; a body
    /// is taken out of it.
    fn from_arg(alloc: Global, arg: &mut Arg) -> Result<Self, AllocError>
        requires { IsTaken slot_of definitions_of selectors_of arg.old }
        ensures converted { IfOk result (λ value. converts arg.old value) }
        ensures stays { ArgStays arg.old arg.new }
        ensures left { OnOk result (leaves arg.old arg.new) }
        ensures memory { OnErr result may_fail };
}

impl<S: SharedExtractor> ExclusiveExtractor for S {
    ghost slot_of = { S.slot_of };

    ghost definitions_of = { S.definitions_of };

    ghost selectors_of = { S.selectors_of };

    ghost converts = { S.converts };

    ghost leaves = { S.leaves };

    ghost may_fail = { S.may_fail };

    fn slot(alloc: Global, table: &mut DescTable) -> Result<Slot, AddError> {
        <S as SharedExtractor>::slot(alloc, table)
    }

    fn from_arg(alloc: Global, arg: &mut Arg) -> Result<S, AllocError> {
        <S as SharedExtractor>::from_arg(alloc, arg)
    }
}

/// What is made of all arguments of a handler: a tuple of shared extractors and an exclusive one,
/// or nothing.
pub trait RequestExtractor: Sized + Drop {
    ghost use Rattle.std.specs.Prelude.{⊤, List, []};
    ghost use Rattle.descriptors.specs.declared.table.Definition.{Definition};
    ghost use Rattle.handler_shapes.specs.declared.arguments.Arg.{Arg};
    ghost use Rattle.handler_shapes.specs.declared.slot.Slot.{Slot};

    /// The slots of the parts, in order.
    ghost slots_of: { List Slot };

    /// The definitions that the slots reach in the table of a handler's shape, in the order in
    /// which they are added.
    ghost definitions_of: { List Definition };

    /// The definitions of each selector of the slots, which has a table of its own. Where this is
    /// not given, there is none.
    ghost selectors_of: { List (List Definition) } = { [] };

    /// The values that arguments convert to.
    ghost converts: { List Arg → Self → Type 0 };

    /// What is left in the places of arguments that were converted, besides that trees and bytes
    /// stay. Where this is not given, nothing is said of it.
    ghost leaves: { List Arg → List Arg → Type 0 } = { λ before after. ⊤ };

    /// That memory may run out in a conversion. Where this is not given, it may.
    ghost may_fail: { Type 0 } = { ⊤ };

    /// The slots, with the descriptors of their types. Adds the definitions that they reach to the
    /// table, and no others: all of them, or none where one clashes. The clash is told.
    fn slots(alloc: Global, table: &mut DescTable) -> Result<List<Slot>, AddError>
        ensures slots { IfOk result (λ slots. slots ≡ slots_of) }
        ensures reaches { OnOk result (SlotsReachExactly definitions_of slots_of) }
        ensures added { OnOk result (table.new ≡ with_all table.old definitions_of) }
        ensures held { OnOk result (HoldsAll table.new definitions_of) }
        ensures tables { OnOk result (HaveTables selectors_of) }
        ensures own_tables { OnOk result (HaveOwnTables selectors_of
            (flat_map selectors_in slots_of)) }
        ensures refused { IfErr result (AreSlotsRefused table.old definitions_of selectors_of) }
        ensures err { OnErr result (table.new ≡ table.old) };

    /// The value of arguments that fit the slots, one for each in order. Trees and bytes stay in
    /// the arguments; a body is taken out of its argument.
    fn from_args(alloc: Global, args: &mut [Arg]) -> Result<Self, AllocError>
        requires { AreTaken slots_of definitions_of selectors_of args.old }
        ensures converted { IfOk result (λ value. converts args.old value) }
        ensures stay { ArgsStay args.old args.new }
        ensures left { OnOk result (leaves args.old args.new) }
        ensures memory { OnErr result may_fail };
}

// Adds the definitions of a type to a table, and gives the type's descriptor.
pub(crate) fn described<T: ApiType>(alloc: Global, table: &mut DescTable) -> Result<Desc, AddError>
    ensures desc { IfOk result (λ desc. desc ≡ T.desc_of) }
    ensures reaches { OnOk result (ReachesExactly T.definitions_of T.desc_of) }
    ensures added { OnOk result (table.new ≡ with_all table.old T.definitions_of) }
    ensures held { OnOk result (HoldsAll table.new T.definitions_of) }
    ensures refused { IfErr result (AreRefused table.old T.definitions_of) }
    ensures err { OnErr result (table.new ≡ table.old) }
{
    T::reach();
    let desc = T::descriptor(alloc)?;
    T::add_definitions(alloc, table)?;
    Ok(desc)
}

// The value of a tree, which stays.
pub(crate) fn value_in<T: ApiType>(alloc: Global, arg: &mut Arg) -> Result<T, AllocError>
    requires { IsTreeOf T.definitions_of T.desc_of arg.old }
    ensures value { IfOk result (λ value. arg.old ≡ arguments.Tree (T.tree_of value)) }
    ensures stays { ArgStays arg.old arg.new }
{
    match arg {
        Arg::Tree(tree) => T::from_tree(alloc, tree),
        _ => unreachable!(),
    }
}
