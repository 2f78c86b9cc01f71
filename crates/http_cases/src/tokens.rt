//! Calls on page tokens.
ghost use Rattle.typed_values.specs.Checks.{TablePasses, DescPasses};

use crate::maps::tree_told;
use case_notation::{
    CaseError, Scope, both, given, given_text, labelled, say, scope_of, text_told, tree_of,
};
use page_tokens::{TokenError, read_token, write_token};
use schema_values::{Json, Text};
use std::alloc::Global;
use typed_values::fits;

/// The token of the tree of a case, under its descriptor, or what it is refused as.
pub fn token_written(alloc: Global, case: &Json) -> Result<Json, CaseError> {
    let tree = given(case, "tree")?;
    written(alloc, &scope_of(alloc, case)?, tree)
}

fn written(alloc: Global, scope: &Scope, noted: &Json) -> Result<Json, CaseError>
    requires table { TablePasses scope.now.table }
    requires desc { DescPasses scope.now.table scope.now.desc }
{
    let tree = tree_of(alloc, noted)?;
    if !fits(&scope.table, &scope.desc, &tree) {
        return Err(CaseError::Expected("a tree that fits"));
    }
    match write_token(alloc, &scope.table, &scope.desc, &tree) {
        Ok(token) => labelled(alloc, "token", text_told(Ok(token))),
        Err(error) => refused(alloc, error),
    }
}

/// The tree that the token of a case is read as, or what it is refused as.
pub fn token_read(alloc: Global, case: &Json) -> Result<Json, CaseError> {
    let token = given_text(case, "token")?;
    read(alloc, &scope_of(alloc, case)?, token)
}

fn read(alloc: Global, scope: &Scope, token: &Text) -> Result<Json, CaseError>
    requires table { TablePasses scope.now.table }
    requires desc { DescPasses scope.now.table scope.now.desc }
{
    match read_token(alloc, &scope.table, &scope.desc, token.as_str()) {
        Ok(tree) => tree_told(alloc, &tree),
        Err(error) => refused(alloc, error),
    }
}

fn refused(alloc: Global, error: TokenError) -> Result<Json, CaseError> {
    let why = match error {
        TokenError::TooLarge(length) => {
            both(alloc, say(alloc, "too large"), Ok(Json::Int(length.into())))
        }
        TokenError::NotBase64 => say(alloc, "not base64"),
        TokenError::Corrupted => say(alloc, "corrupted"),
        TokenError::OutOfMemory => Err(CaseError::OutOfMemory),
    };
    labelled(alloc, "refused", why)
}
