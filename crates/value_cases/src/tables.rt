//! Calls on tables of definitions.
use crate::refusals::told;
use api_types::add_all;
use case_notation::{
    CaseError, Reader, Row, definition_of, given, given_items, labelled, say, table_of, text_told,
};
use schema_values::{Json, List};
use std::alloc::Global;
use typed_values::{AddError, Added, Definition, DescTable, check_table};

/// What is told of the table of a case.
pub fn table_told(alloc: Global, case: &Json) -> Result<Json, CaseError> {
    let table = table_of(alloc, case)?;
    told(alloc, check_table(&table))
}

/// What is told of each of the definitions of a case, added one after another.
pub fn add(alloc: Global, case: &Json) -> Result<Json, CaseError> {
    let definitions = definitions_of(alloc, given(case, "definitions")?)?;
    all_added(alloc, &mut DescTable::new(alloc), definitions.as_slice())
}

/// What is told of each definition of a copy of the table of a case, added to that table.
pub fn copied_table(alloc: Global, case: &Json) -> Result<Json, CaseError> {
    let mut table = table_of(alloc, case)?;
    let copy = table.copy(alloc)?;
    all_added(alloc, &mut table, copy.definitions())
}

fn all_added(
    alloc: Global,
    table: &mut DescTable,
    definitions: &[Definition],
) -> Result<Json, CaseError> {
    let mut words = Row::new(alloc);
    for definition in definitions {
        words.push(copy_added(alloc, table, definition));
    }
    words.done()
}

fn copy_added(
    alloc: Global,
    table: &mut DescTable,
    definition: &Definition,
) -> Result<Json, CaseError> {
    added(alloc, table, definition.copy(alloc)?)
}

fn added(alloc: Global, table: &mut DescTable, definition: Definition) -> Result<Json, CaseError> {
    let Definition {
        name,
        description,
        desc,
    } = definition;
    match table.add_described(name.as_str(), description, desc) {
        Ok(Added::New) => say(alloc, "new"),
        Ok(Added::Same) => say(alloc, "same"),
        Err(error) => not_added(alloc, error),
    }
}

fn not_added(alloc: Global, error: AddError) -> Result<Json, CaseError> {
    match error {
        AddError::Clash(name) => labelled(alloc, "clash", text_told(Ok(name))),
        AddError::OutOfMemory => Err(CaseError::OutOfMemory),
    }
}

/// What is told of each list of definitions under `batches`, whose definitions are added together,
/// and how many the table has then.
pub fn add_together(alloc: Global, case: &Json) -> Result<Json, CaseError> {
    let batches = given_items(case, "batches")?;
    batches_told(alloc, &mut DescTable::new(alloc), batches)
}

fn batches_told(alloc: Global, table: &mut DescTable, batches: &[Json]) -> Result<Json, CaseError> {
    let mut answers = Row::new(alloc);
    for batch in batches {
        answers.push(batch_told(alloc, table, batch));
        answers.push::<CaseError>(Ok(Json::Int(table.len() as i128)));
    }
    answers.done()
}

fn batch_told(alloc: Global, table: &mut DescTable, batch: &Json) -> Result<Json, CaseError> {
    let definitions = definitions_of(alloc, batch)?;
    match add_all(alloc, table, definitions.as_slice()) {
        Ok(()) => say(alloc, "added"),
        Err(error) => not_added(alloc, error),
    }
}

fn definitions_of(alloc: Global, noted: &Json) -> Result<List<Definition>, CaseError> {
    let mut reader = Reader::new(alloc);
    let mut definitions = List::new(alloc);
    for noted in reader.items(noted) {
        reader.or(add_definition(alloc, noted, &mut definitions), ());
    }
    reader.finish(definitions)
}

fn add_definition(
    alloc: Global,
    noted: &Json,
    definitions: &mut List<Definition>,
) -> Result<(), CaseError> {
    definitions.push(definition_of(alloc, noted)?)?;
    Ok(())
}
