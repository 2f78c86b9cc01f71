//! The names of the definitions on the way to a schema, which lie on the stack.

ghost use Rattle.std.specs.Prelude.{◌≡◌};
ghost use Rattle.schema_util.specs.Met.{names_met};
ghost use Rattle.schema_util.specs.References.{is_met as was_met};

/// A name that was met, and those before it.
#[derive(Clone, Copy)]
pub(crate) struct Met<'a> {
    pub(crate) name: &'a str,
    pub(crate) before: Option<&'a Met<'a>>,
}

/// Whether a name was met.
pub(crate) fn is_met(met: Option<&Met>, name: &str) -> bool
    ensures { result ≡ was_met (names_met met.entry) name.now }
{
    match met {
        Some(met) => met.name == name || is_met(met.before, name),
        None => false,
    }
}
