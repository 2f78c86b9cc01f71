// Searches along references. A search meets each definition once, and its lists are frames of its own
// recursion.
ghost use Rattle.std.specs.Prelude.{◌↔◌, IsTrue, IfNone, IfSome, Contains};
ghost use Rattle.std.specs.Option.{option_copied};
ghost use Rattle.descriptors.specs.declared.desc.Desc.{Desc};
ghost use Rattle.typed_values.specs.Checks.{TakesNull};
ghost use Rattle.typed_values.specs.Guarded.{Names, LiesOnCycle};
ghost use Rattle.typed_values.specs.Search.{HoldsNull, Meets, all_met, on_path, IsMet, IsDone, IsNext};
ghost use Rattle.typed_values.specs.Search.{IsSearch, SomeLeads};

use descriptors::{Definition, Desc, DescTable};
use schema_values::Text;

/// What is sought: a reference of a name, or what takes null.
#[derive(Clone, Copy)]
enum Sought<'a> {
    Name(&'a Text),
    Null,
}

/// A definition met, and those met before.
#[derive(Clone, Copy)]
struct Met<'a> {
    definition: &'a Definition,
    before: Option<&'a Met<'a>>,
}

/// A descriptor on the way, and those before it.
#[derive(Clone, Copy)]
struct Path<'a> {
    desc: &'a Desc,
    before: Option<&'a Path<'a>>,
}

/// Whether null denotes something under a descriptor.
pub(crate) fn takes_null(table: &DescTable, desc: &Desc) -> bool
    ensures { IsTrue result ↔ TakesNull table.now desc.now }
{
    leads(table, Sought::Null, None, &Path { desc, before: None })
}

/// Whether references, options and alternatives alone lead from a definition back to it.
pub(crate) fn lies_on_cycle(table: &DescTable, definition: &Definition) -> bool
    ensures { IsTrue result ↔ LiesOnCycle table.now definition.now }
{
    let start = Path {
        desc: &definition.desc,
        before: None,
    };
    leads(table, Sought::Name(&definition.name), None, &start)
}

/// Whether a descriptor on the way leads to what is sought.
fn leads(table: &DescTable, sought: Sought, met: Option<&Met>, path: &Path) -> bool
    requires { IsSearch table.now sought (all_met (option_copied met)) (on_path path.now) }
    ensures { IsTrue result ↔ SomeLeads table.now sought.entry (on_path path.now) }
{
    if meets(sought, path.desc) {
        return true;
    }
    match next_met(table, met, path.desc) {
        Some(definition) => {
            let longer = Met {
                definition,
                before: met,
            };
            let deeper = Path {
                desc: &definition.desc,
                before: Some(path),
            };
            leads(table, sought, Some(&longer), &deeper)
        }
        None => match path.before {
            Some(before) => leads(table, sought, met, before),
            None => false,
        },
    }
}

/// The first definition that a descriptor names and that is not met.
fn next_met<'a>(table: &'a DescTable, met: Option<&Met>, desc: &Desc) -> Option<&'a Definition>
    ensures last { IfNone result (IsDone table.now (all_met (option_copied met.entry)) desc.now) }
    ensures next { IfSome result (λ e. IsNext table.now (all_met (option_copied met.entry)) desc.now e.now) }
{
    for definition in table.definitions() {
        if names(desc, &definition.name) && !is_met(met, &definition.name) {
            return Some(definition);
        }
    }
    None
}

fn is_met(met: Option<&Met>, name: &Text) -> bool
    ensures { IsTrue result ↔ IsMet (all_met (option_copied met.entry)) name.now }
{
    match met {
        Some(met) => met.definition.name.equals(name) || is_met(met.before, name),
        None => false,
    }
}

fn meets(sought: Sought, desc: &Desc) -> bool
    ensures { IsTrue result ↔ Meets sought.entry desc.now }
{
    match sought {
        Sought::Name(name) => names(desc, name),
        Sought::Null => holds_null(desc),
    }
}

/// Whether a descriptor names a definition, under options and alternatives alone.
#[cycle(names)]
fn names(desc: &Desc, name: &Text) -> bool
    ensures { IsTrue result ↔ Names name.now desc.now }
{
    match desc {
        Desc::Option(inner) => names(inner.get(), name),
        Desc::Untagged { alternatives } => some_names(alternatives.as_slice(), name),
        Desc::Ref(found) => found.equals(name),
        _ => false,
    }
}

#[cycle(names)]
fn some_names(alternatives: &[Desc], name: &Text) -> bool
    ensures { IsTrue result ↔ ((x : Desc) × Contains alternatives.now x × Names name.now x) }
{
    for alternative in alternatives {
        if names(alternative, name) {
            return true;
        }
    }
    false
}

/// Whether what takes null at once stands in a descriptor, under alternatives alone.
#[cycle(holds_null)]
fn holds_null(desc: &Desc) -> bool
    ensures { IsTrue result ↔ HoldsNull desc.now }
{
    match desc {
        Desc::Any | Desc::Null | Desc::Option(_) => true,
        Desc::Untagged { alternatives } => some_holds_null(alternatives.as_slice()),
        _ => false,
    }
}

#[cycle(holds_null)]
fn some_holds_null(alternatives: &[Desc]) -> bool
    ensures { IsTrue result ↔ ((x : Desc) × Contains alternatives.now x × HoldsNull x) }
{
    for alternative in alternatives {
        if holds_null(alternative) {
            return true;
        }
    }
    false
}
