//! Questions about schemas: what references lead to, what a struct's members are, and which types are
//! scalar. The modules `schema_util` and `type_util` of the Rust crate, without what writes documents. A
//! schema is that of OpenAPI 3.0.3, Schema Object; a reference is that of its Reference Object.
#![tactic(auto)]

mod description;
mod form;
mod laws;
mod met;
mod references;
mod scalar;
mod struct_members;

pub use description::{is_empty, schema_extensions, schema_extract_description};
pub use laws::{accepted_exactly, comes_to_once, first_fault_once, gives_once, list_fault_once};
pub use references::{ResolveError, resolve};
pub use scalar::{ScalarError, type_is_scalar, type_is_string, type_is_string_enum};
pub use struct_members::{Schema2StructError, StructMember, schema2struct};
