//! The OpenAPI document: its types, what its schemas admit, and what it admits.
#![tactic(auto)]

mod admits;
mod asked;
mod document;
mod info;
mod j2oas;
mod keyword_rules;
mod keywords;
mod laws;
mod media;
mod objects;
mod operation;
mod parameter;
mod part;
mod refusal;
mod resolved;
mod room;
mod schema_members;
mod schema_parts;
mod tags;
mod texts;
mod written;

pub use admits::json_admits;
pub use document::{Components, OpenApi};
pub use info::{Contact, Info, License};
pub use j2oas::{J2oasError, j2oas_schema};
pub use keywords::Keyword;
pub use laws::{
    admits_by_steps, contents_sound, definitions_stand, documents_sound, operations_admitted,
    operations_stand, responses_conform,
};
pub use media::{MediaType, RequestBody, ResponseObject};
pub use operation::{Operation, PathItem};
pub use parameter::{HeaderObject, Parameter};
pub use part::Part;
pub use request_words::{HeaderLine, WireRequest};
pub use resolved::resolved_schema;
pub use schema_members::{find_word, get_word, has_type_named};
pub use tags::{ExternalDocs, TagObject};
pub use texts::text_admits;
