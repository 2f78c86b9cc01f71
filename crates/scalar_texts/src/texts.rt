//! One text under a descriptor.

ghost use Rattle.std.specs.Prelude.{IfOk, IfErr};
ghost use Rattle.std.specs.Str.{chars};
ghost use Rattle.descriptors.specs.declared.tree.Tree.{Tree};
ghost use Rattle.typed_values.specs.Answer.{Tells, IfFault, IsFaultOf};
ghost use Rattle.typed_values.specs.Checks.{TablePasses, DescPasses};
ghost use Rattle.typed_values.specs.Fits.{Fits};
ghost use Rattle.scalar_texts.specs.Texts.{TextDenotes, text_told};

use crate::numbers::number_of_text;
use crate::scalars::{character_of_text, in_some, name_of_text, truth_of_text, words_of_text};
use descriptors::{Desc, DescTable, Tree};
use std::alloc::Global;
use typed_values::{DecodeError, FaultKind, Stop};

/// Decodes a text, as a parameter or a form has it (OpenAPI 3.0.3, Parameter Object), under a
/// scalar descriptor, an option of one or a reference to one: the tree that it denotes, or the fault
/// that is told. Under any other descriptor a text is of another kind.
pub fn decode_text(
    alloc: Global,
    table: &DescTable,
    desc: &Desc,
    text: &str,
) -> Result<Tree, DecodeError>
    requires table { TablePasses table.now }
    requires desc { DescPasses table.now desc.now }
    ensures denotes { IfOk result (TextDenotes table.now desc.now (chars text.now)) }
    ensures fits { IfOk result (Fits table.now desc.now) }
    ensures fault { IfErr result (λ error. IfFault error
        (IsFaultOf (text_told table.now (chars text.now) desc.now))) }
    ensures refused { IfErr result (λ error. IfFault error
        (λ fault. (tree : Tree) → TextDenotes table.now desc.now (chars text.now) tree → ⊥)) }
{
    match tree_of_text(alloc, table, desc, text) {
        Ok(tree) => Ok(tree),
        Err(stop) => Err(stop.into_error(alloc)),
    }
}

/// The same, with a fault on its way out.
pub fn tree_of_text(alloc: Global, table: &DescTable, desc: &Desc, text: &str) -> Result<Tree, Stop>
    requires table { TablePasses table.now }
    requires desc { DescPasses table.now desc.now }
    ensures { Tells result (text_told table.now (chars text.now) desc.now) }
{
    match desc {
        Desc::Bool => truth_of_text(alloc, text),
        Desc::Char => character_of_text(alloc, text),
        Desc::Int { kind, min, max } => number_of_text(alloc, *kind, *min, *max, text),
        Desc::Text { min, max, .. } => words_of_text(alloc, *min, *max, text),
        Desc::Enumeration { names } => name_of_text(alloc, names.as_slice(), text),
        Desc::Option(inner) => in_some(alloc, tree_of_text(alloc, table, inner.get(), text)),
        Desc::Ref(name) => match table.find(name) {
            Some(definition) => tree_of_text(alloc, table, definition, text),
            None => Err(Stop::refused(alloc, FaultKind::WrongKind)),
        },
        _ => Err(Stop::refused(alloc, FaultKind::WrongKind)),
    }
}
