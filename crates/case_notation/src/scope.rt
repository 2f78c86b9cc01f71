//! The table and the descriptor of a case, which pass their checks.
ghost use Rattle.std.specs.Prelude.{IfOk};
ghost use Rattle.typed_values.specs.Checks.{TablePasses, DescPasses};

use crate::descs::desc_of;
use crate::error::CaseError;
use crate::flaws::flaw;
use crate::parts::given;
use crate::tables::table_of;
use schema_values::Json;
use std::alloc::Global;
use typed_values::{Desc, DescTable, check_desc, check_table};

/// A table, and a descriptor beside it.
#[derive(Drop)]
pub struct Scope {
    /// The definitions.
    pub table: DescTable,
    /// What a value of the case is meant to be of.
    pub desc: Desc,
}

/// The table and the descriptor of a case. They pass their checks.
pub fn scope_of(alloc: Global, case: &Json) -> Result<Scope, CaseError>
    ensures table { IfOk result (λ scope. TablePasses scope.table) }
    ensures desc { IfOk result (λ scope. DescPasses scope.table scope.desc) }
{
    let table = checked_table(alloc, case)?;
    let desc = checked_desc(alloc, &table, case)?;
    Ok(Scope { table, desc })
}

fn checked_desc(alloc: Global, table: &DescTable, case: &Json) -> Result<Desc, CaseError>
    requires { TablePasses table.now }
    ensures { IfOk result (λ desc. DescPasses table.now desc) }
{
    let desc = noted_desc(alloc, case)?;
    match check_desc(table, &desc) {
        Ok(()) => {}
        Err(error) => return Err(CaseError::Flawed(flaw(&error))),
    }
    Ok(desc)
}

/// The descriptor of a case, whatever is told of it.
pub fn noted_desc(alloc: Global, case: &Json) -> Result<Desc, CaseError> {
    desc_of(alloc, given(case, "desc")?)
}

/// The table of the definitions of a case.
pub fn checked_table(alloc: Global, case: &Json) -> Result<DescTable, CaseError>
    ensures { IfOk result (λ table. TablePasses table) }
{
    let table = table_of(alloc, case)?;
    match check_table(&table) {
        Ok(()) => {}
        Err(error) => return Err(CaseError::Flawed(flaw(&error))),
    }
    Ok(table)
}
