//! What the schemas of descriptors admit of texts, in documents: exactly what denotes a tree.
#![tactic(auto)]

mod laws;

pub use laws::{
    fields_are_listed, forms_agree, headers_agree, page_parameters_are, pages_agree, queries_agree,
    texts_agree, variables_agree,
};
