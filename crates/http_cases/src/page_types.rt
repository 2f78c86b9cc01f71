//! Calls on the types of pages.
use api_types::{ApiType, table_of};
use case_notation::{self, CaseError, Record, given_text, noted_desc, text_told};
use result_pages::{EmptyScanParams, PaginationOrder, ResultsPage};
use schema_values::Json;
use std::alloc::Global;
use typed_values::{Definition, Desc};

/// The name of the type of a case, and whether its descriptor and its definitions are those of the
/// case.
pub fn page_type_told(alloc: Global, case: &Json) -> Result<Json, CaseError> {
    match given_text(case, "type")?.as_str() {
        "uint32ResultsPage" => type_told::<ResultsPage<u32>>(alloc, case),
        "PaginationOrder" => type_told::<PaginationOrder>(alloc, case),
        "EmptyScanParams" => type_told::<EmptyScanParams>(alloc, case),
        _ => Err(CaseError::Expected("the name of a type")),
    }
}

fn type_told<T: ApiType>(alloc: Global, case: &Json) -> Result<Json, CaseError> {
    let is_same = has_descriptor::<T>(alloc, case)? && has_definitions::<T>(alloc, case)?;
    Record::new(alloc)
        .put("name", text_told(T::type_name(alloc)))
        .truth("same", is_same)
        .done()
}

fn has_descriptor<T: ApiType>(alloc: Global, case: &Json) -> Result<bool, CaseError> {
    is_noted(alloc, &T::descriptor(alloc)?, case)
}

fn is_noted(alloc: Global, desc: &Desc, case: &Json) -> Result<bool, CaseError> {
    Ok(noted_desc(alloc, case)?.equals(desc))
}

fn has_definitions<T: ApiType>(alloc: Global, case: &Json) -> Result<bool, CaseError> {
    let noted = case_notation::table_of(alloc, case)?;
    match table_of::<T>(alloc) {
        Ok(table) => Ok(same_definitions(table.definitions(), noted.definitions())),
        Err(_) => Err(CaseError::Expected("a type that passes its checks")),
    }
}

fn same_definitions(definitions: &[Definition], others: &[Definition]) -> bool {
    definitions.len() == others.len()
        && definitions
            .iter()
            .zip(others)
            .all(|(definition, other)| definition.equals(other))
}
