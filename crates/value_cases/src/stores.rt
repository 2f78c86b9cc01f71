//! Calls on a store of trees. A step is a list: its name, the name of a table, and what it takes.
use case_notation::{
    CaseError, Row, count_of, given_items, items_of, labelled, say, tree_noted, tree_of,
};
use schema_values::{Json, List, Text};
use std::alloc::Global;
use tree_store::Store;
use typed_values::{Pair, Tree};

/// What each of the steps of a case answers, at a store that is empty before the first.
pub fn store_told(alloc: Global, case: &Json) -> Result<Json, CaseError> {
    let steps = given_items(case, "steps")?;
    steps_told(alloc, &mut Store::new(alloc), steps)
}

fn steps_told(alloc: Global, store: &mut Store, steps: &[Json]) -> Result<Json, CaseError> {
    let mut answers = Row::new(alloc);
    for step in steps {
        answers.push(step_told(alloc, store, step));
    }
    answers.done()
}

fn step_told(alloc: Global, store: &mut Store, step: &Json) -> Result<Json, CaseError> {
    match items_of(step)? {
        [Json::Text(name)] if name.equals_str("copy") => copied(alloc, store),
        [Json::Text(name), Json::Text(table)] if name.equals_str("count") => {
            Ok(Json::Int(store.count(table.as_str()) as i128))
        }
        [Json::Text(name), Json::Text(table), Json::Text(key)] => {
            key_told(alloc, store, name.as_str(), table.as_str(), key.as_str())
        }
        [Json::Text(name), Json::Text(table), count] if name.equals_str("first") => {
            let pairs = store.first(alloc, table.as_str(), count_of(count)?)?;
            page_told(alloc, pairs)
        }
        [Json::Text(name), Json::Text(table), Json::Text(key), value] => {
            value_told(alloc, store, name.as_str(), table, key, value)
        }
        _ => Err(CaseError::Expected("a step")),
    }
}

// The store is its copy from now on.
fn copied(alloc: Global, store: &mut Store) -> Result<Json, CaseError> {
    *store = store.copy(alloc)?;
    say(alloc, "copied")
}

fn key_told(
    alloc: Global,
    store: &mut Store,
    name: &str,
    table: &str,
    key: &str,
) -> Result<Json, CaseError> {
    match name {
        "get" => tree_told(alloc, store.get(table, key)),
        "remove" => tree_told(alloc, store.remove(table, key).as_ref()),
        _ => Err(CaseError::Expected("a step at a key")),
    }
}

fn value_told(
    alloc: Global,
    store: &mut Store,
    name: &str,
    table: &Text,
    key: &Text,
    value: &Json,
) -> Result<Json, CaseError> {
    let (table, key) = (table.as_str(), key.as_str());
    match name {
        "insert" => {
            let old = store.insert(table, key, tree_of(alloc, value)?)?;
            tree_told(alloc, old.as_ref())
        }
        "after" => {
            let pairs = store.after(alloc, table, key, count_of(value)?)?;
            page_told(alloc, pairs)
        }
        _ => Err(CaseError::Expected("a step at a key with a value")),
    }
}

fn tree_told(alloc: Global, tree: Option<&Tree>) -> Result<Json, CaseError> {
    match tree {
        Some(tree) => labelled(alloc, "tree", tree_noted(alloc, tree)),
        None => say(alloc, "absent"),
    }
}

fn page_told(alloc: Global, pairs: List<Pair>) -> Result<Json, CaseError> {
    tree_noted(alloc, &Tree::Map(pairs))
}
