//! The stores of cases.
use case_notation::{CaseError, items_of, tree_noted};
use sample_api::points_store;
use schema_values::Json;
use std::alloc::Global;
use tree_store::Store;

/// The store that a case begins with: that of the sample, or an empty one.
pub fn store_of(alloc: Global, case: &Json) -> Result<Store, CaseError> {
    match case.get("sample") {
        Some(_) => Ok(points_store(alloc)?),
        None => Ok(Store::new(alloc)),
    }
}

/// The tree under a table and a key, null where there is none.
pub fn tree_at(alloc: Global, store: &Store, key: &Json) -> Result<Json, CaseError> {
    let [Json::Text(table), Json::Text(key)] = items_of(key)? else {
        return Err(CaseError::Expected("a table and a key"));
    };
    match store.get(table.as_str(), key.as_str()) {
        Some(tree) => tree_noted(alloc, tree),
        None => Ok(Json::Null),
    }
}
