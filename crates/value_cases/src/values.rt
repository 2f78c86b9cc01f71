//! Calls that decode and encode values.
ghost use Rattle.typed_values.specs.Checks.{TablePasses, DescPasses};

use crate::case::value_of;
use crate::refusals::told;
use case_notation::{
    CaseError, Scope, checked_table, given, labelled, noted_desc, say, scope_of, text_told,
    tree_noted, tree_of,
};
use schema_values::Json;
use std::alloc::Global;
use typed_values::{
    DecodeError, DescTable, Fault, FaultKind, Tree, check_desc, decode_json, encode_json, fits,
};

/// What is told of the descriptor of a case.
pub fn desc_told(alloc: Global, case: &Json) -> Result<Json, CaseError> {
    desc_told_in(alloc, &checked_table(alloc, case)?, case)
}

fn desc_told_in(alloc: Global, table: &DescTable, case: &Json) -> Result<Json, CaseError>
    requires { TablePasses table.now }
{
    let desc = noted_desc(alloc, case)?;
    told(alloc, check_desc(table, &desc))
}

/// The tree that the value of a case denotes, as its copy is noted, or the fault that is told.
pub fn decode(alloc: Global, case: &Json) -> Result<Json, CaseError> {
    value_decoded(alloc, &scope_of(alloc, case)?, case)
}

fn value_decoded(alloc: Global, scope: &Scope, case: &Json) -> Result<Json, CaseError>
    requires table { TablePasses scope.now.table }
    requires desc { DescPasses scope.now.table scope.now.desc }
{
    match value_of(alloc, case)? {
        Some(json) => decoded_told(alloc, decode_json(alloc, &scope.table, &scope.desc, &json)),
        None => no_json(alloc),
    }
}

fn no_json(alloc: Global) -> Result<Json, CaseError> {
    labelled(alloc, "fault", text_told(FaultKind::NotJson.text(alloc)))
}

/// What decoding answered: a tree, as its copy is noted, or a fault.
pub fn decoded_told(alloc: Global, answer: Result<Tree, DecodeError>) -> Result<Json, CaseError> {
    match answer {
        Ok(tree) => copy_noted(alloc, &tree),
        Err(error) => refused(alloc, error),
    }
}

fn copy_noted(alloc: Global, tree: &Tree) -> Result<Json, CaseError> {
    let copy = tree.copy(alloc)?;
    labelled(alloc, "tree", tree_noted(alloc, &copy))
}

fn refused(alloc: Global, error: DecodeError) -> Result<Json, CaseError> {
    match error {
        DecodeError::Fault(fault) => copy_told(alloc, &fault),
        DecodeError::OutOfMemory => Err(CaseError::OutOfMemory),
    }
}

fn copy_told(alloc: Global, fault: &Fault) -> Result<Json, CaseError> {
    let copy = fault.copy(alloc)?;
    labelled(alloc, "fault", text_told(copy.text(alloc)))
}

/// What a copy of the tree of the value of a case is written as, or the fault that is told.
pub fn decode_and_encode(alloc: Global, case: &Json) -> Result<Json, CaseError> {
    value_encoded(alloc, &scope_of(alloc, case)?, case)
}

fn value_encoded(alloc: Global, scope: &Scope, case: &Json) -> Result<Json, CaseError>
    requires table { TablePasses scope.now.table }
    requires desc { DescPasses scope.now.table scope.now.desc }
{
    match value_of(alloc, case)? {
        Some(json) => json_told(alloc, scope, &json),
        None => no_json(alloc),
    }
}

fn json_told(alloc: Global, scope: &Scope, json: &Json) -> Result<Json, CaseError>
    requires table { TablePasses scope.now.table }
    requires desc { DescPasses scope.now.table scope.now.desc }
{
    match decode_json(alloc, &scope.table, &scope.desc, json) {
        Ok(tree) => copy_written(alloc, scope, &tree),
        Err(error) => refused(alloc, error),
    }
}

/// What a copy of the tree of a case is written as, where it fits.
pub fn encode(alloc: Global, case: &Json) -> Result<Json, CaseError> {
    tree_written(alloc, &scope_of(alloc, case)?, case)
}

fn tree_written(alloc: Global, scope: &Scope, case: &Json) -> Result<Json, CaseError>
    requires table { TablePasses scope.now.table }
    requires desc { DescPasses scope.now.table scope.now.desc }
{
    copy_written(alloc, scope, &tree_of(alloc, given(case, "tree")?)?)
}

fn copy_written(alloc: Global, scope: &Scope, tree: &Tree) -> Result<Json, CaseError>
    requires table { TablePasses scope.now.table }
    requires desc { DescPasses scope.now.table scope.now.desc }
{
    let copy = tree.copy(alloc)?;
    if fits(&scope.table, &scope.desc, &copy) {
        let json = encode_json(alloc, &scope.table, &scope.desc, &copy);
        labelled(alloc, "json", json)
    } else {
        say(alloc, "no fit")
    }
}
