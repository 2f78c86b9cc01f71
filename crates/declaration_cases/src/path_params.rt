//! The variables of a path as values of types: `Labelled`, which has a text, or `Rest`, which has a
//! list of texts.
ghost use Rattle.std.specs.Prelude.{◌∷◌, [], codes};
ghost use Rattle.api_types.specs.Heads.{required, struct_of};

use api_extract::http_extract_path_params;
use api_types::{ApiStruct, ApiType, StructHead, table_of};
use case_notation::{CaseError, Record, given_text, labelled, tree_noted};
use endpoint_notation::variables_at;
use http_status::{HttpError, HttpRefusal};
use schema_values::{Json, List, Text};
use std::alloc::{AllocError, Global};
use typed_values::Tree;

/// The tree of the value that the variables of a case have under its type, or the refusal.
pub fn path_params_told(alloc: Global, case: &Json) -> Result<Json, CaseError> {
    match given_text(case, "type")?.as_str() {
        "Labelled" => told::<Labelled>(alloc, case),
        "Rest" => told::<Rest>(alloc, case),
        _ => Err(CaseError::Expected("the name of a type")),
    }
}

fn told<T: ApiType>(alloc: Global, case: &Json) -> Result<Json, CaseError> {
    let variables = variables_at(alloc, case)?;
    match table_of::<T>(alloc) {
        Ok(_) => value_told(alloc, http_extract_path_params::<T>(alloc, &variables)),
        Err(_) => Err(CaseError::Expected("a type that passes its checks")),
    }
}

fn value_told<T: ApiType>(
    alloc: Global,
    answer: Result<T, HttpRefusal>,
) -> Result<Json, CaseError> {
    match answer {
        Ok(value) => labelled(alloc, "tree", tree_noted(alloc, &value.to_tree(alloc)?)),
        Err(HttpRefusal::Http(error)) => error_told(alloc, &error),
        Err(HttpRefusal::OutOfMemory) => Err(CaseError::OutOfMemory),
    }
}

fn error_told(alloc: Global, error: &HttpError) -> Result<Json, CaseError> {
    Record::new(alloc)
        .number("refused", error.status_code.as_u16().into())
        .text("message", error.external_message.as_str())
        .done()
}

/// A text.
#[derive(Drop)]
struct Labelled {
    label: Text,
}

impl ApiStruct for Labelled {
    type Fields = (Text, ());

    ghost struct_name = { codes "Labelled" };

    ghost head_of = { struct_of (required (codes "label") ∷ []) };

    ghost fields_of = { λ value. (value.label, tt) };

    fn name() -> &'static str {
        "Labelled"
    }

    fn in_place() -> bool {
        false
    }

    fn head(alloc: Global) -> Result<StructHead, AllocError> {
        StructHead::new(alloc).required(alloc, "label")
    }

    fn trees(&self, alloc: Global) -> Result<List<Tree>, AllocError> {
        let mut trees = List::new(alloc);
        trees.push(self.label.to_tree(alloc)?)?;
        Ok(trees)
    }

    fn each_fits(&self) {
        self.label.fits();
    }

    fn from_fields((label, ()): Self::Fields) -> Labelled {
        Labelled { label }
    }
}

/// A list of texts.
#[derive(Drop)]
struct Rest {
    rest: List<Text>,
}

impl ApiStruct for Rest {
    type Fields = (List<Text>, ());

    ghost struct_name = { codes "Rest" };

    ghost head_of = { struct_of (required (codes "rest") ∷ []) };

    ghost fields_of = { λ value. (value.rest, tt) };

    fn name() -> &'static str {
        "Rest"
    }

    fn in_place() -> bool {
        false
    }

    fn head(alloc: Global) -> Result<StructHead, AllocError> {
        StructHead::new(alloc).required(alloc, "rest")
    }

    fn trees(&self, alloc: Global) -> Result<List<Tree>, AllocError> {
        let mut trees = List::new(alloc);
        trees.push(self.rest.to_tree(alloc)?)?;
        Ok(trees)
    }

    fn each_fits(&self) {
        self.rest.fits();
    }

    fn from_fields((rest, ()): Self::Fields) -> Rest {
        Rest { rest }
    }
}
