ghost use Rattle.std.specs.Prelude.{◌≡◌, IfOk, option_map};
ghost use Rattle.openapi_values.specs.Operation.{pagination_json};

use crate::media::{RequestBody, ResponseObject};
use crate::objects::{add, add_list, add_map, add_option, add_part, true_json};
use crate::parameter::Parameter;
use crate::part::{Part, copy_list, copy_map, copy_option, list_json};
use schema_values::{Boxed, Json, List, Text};
use std::alloc::{AllocError, Global};

/// A method on a path (OpenAPI 3.0.3, Operation Object).
#[derive(Drop)]
pub struct Operation {
    /// The names of its tags.
    pub tags: List<Text>,
    /// What is said of it in short.
    pub summary: Option<Text>,
    /// What is said of it.
    pub description: Option<Text>,
    /// Its name in the API.
    pub operation_id: Text,
    /// What a request has beside its body.
    pub parameters: List<Parameter>,
    /// The body that a request has.
    pub request_body: Option<RequestBody>,
    /// Its responses, by status codes, `4XX`, `5XX` or `default`.
    pub responses: List<(Text, ResponseObject)>,
    /// Whether it may be gone later.
    pub deprecated: bool,
    /// Of an operation that answers in pages: the names that its first request must have. The extension
    /// `x-dropshot-pagination`.
    pub pagination: Option<List<Text>>,
}

/// The operations of a path, by methods (OpenAPI 3.0.3, Path Item Object).
#[derive(Drop)]
pub struct PathItem {
    /// The operation of `GET`.
    pub get: Option<Boxed<Operation>>,
    /// The operation of `PUT`.
    pub put: Option<Boxed<Operation>>,
    /// The operation of `POST`.
    pub post: Option<Boxed<Operation>>,
    /// The operation of `DELETE`.
    pub delete: Option<Boxed<Operation>>,
    /// The operation of `OPTIONS`.
    pub options: Option<Boxed<Operation>>,
    /// The operation of `HEAD`.
    pub head: Option<Boxed<Operation>>,
    /// The operation of `PATCH`.
    pub patch: Option<Boxed<Operation>>,
    /// The operation of `TRACE`.
    pub trace: Option<Boxed<Operation>>,
}

impl Part for Operation {
    ghost use Rattle.openapi_values.specs.Operation.{operation_json};

    ghost json = { operation_json };

    fn to_json(&self, alloc: Global) -> Result<Json, AllocError> {
        let mut members = List::new(alloc);
        add_list(alloc, &mut members, "tags", &self.tags)?;
        add_option(alloc, &mut members, "summary", &self.summary)?;
        add_option(alloc, &mut members, "description", &self.description)?;
        add_part(alloc, &mut members, "operationId", &self.operation_id)?;
        add_list(alloc, &mut members, "parameters", &self.parameters)?;
        add_option(alloc, &mut members, "requestBody", &self.request_body)?;
        add_map(alloc, &mut members, "responses", &self.responses)?;
        add(
            alloc,
            &mut members,
            "deprecated",
            true_json(self.deprecated),
        )?;
        let pagination = pagination(alloc, &self.pagination)?;
        add(alloc, &mut members, "x-dropshot-pagination", pagination)?;
        Ok(Json::Object(members))
    }

    fn copy(&self, alloc: Global) -> Result<Operation, AllocError> {
        let tags = copy_list(alloc, &self.tags)?;
        let operation_id = self.operation_id.copy(alloc)?;
        let parameters = copy_list(alloc, &self.parameters)?;
        let request_body = copy_option(alloc, &self.request_body)?;
        let responses = copy_map(alloc, &self.responses)?;
        let pagination = copy_names(alloc, &self.pagination)?;
        let (summary, description) = copy_pair(alloc, &self.summary, &self.description)?;
        Ok(Operation {
            tags,
            summary,
            description,
            operation_id,
            parameters,
            request_body,
            responses,
            deprecated: self.deprecated,
            pagination,
        })
    }
}

/// The names that a first page asks for, which stand also where there are none.
fn pagination(alloc: Global, names: &Option<List<Text>>) -> Result<Option<Json>, AllocError>
    ensures { IfOk result (λ json. json ≡ option_map pagination_json names.now) }
{
    let Some(names) = names else {
        return Ok(None);
    };
    let names = Json::List(list_json(alloc, names)?);
    let mut members = List::new(alloc);
    add(alloc, &mut members, "required", Some(names))?;
    Ok(Some(Json::Object(members)))
}

fn copy_names(alloc: Global, names: &Option<List<Text>>) -> Result<Option<List<Text>>, AllocError>
    ensures { IfOk result (λ copy. copy ≡ names.now) }
{
    match names {
        Some(names) => Ok(Some(copy_list(alloc, names)?)),
        None => Ok(None),
    }
}

impl Part for PathItem {
    ghost use Rattle.openapi_values.specs.Operation.{path_item_json};

    ghost json = { path_item_json };

    fn to_json(&self, alloc: Global) -> Result<Json, AllocError> {
        let mut members = List::new(alloc);
        add_option(alloc, &mut members, "get", &self.get)?;
        add_option(alloc, &mut members, "put", &self.put)?;
        add_option(alloc, &mut members, "post", &self.post)?;
        add_option(alloc, &mut members, "delete", &self.delete)?;
        add_option(alloc, &mut members, "options", &self.options)?;
        add_option(alloc, &mut members, "head", &self.head)?;
        add_option(alloc, &mut members, "patch", &self.patch)?;
        add_option(alloc, &mut members, "trace", &self.trace)?;
        Ok(Json::Object(members))
    }

    fn copy(&self, alloc: Global) -> Result<PathItem, AllocError> {
        let (get, put) = copy_pair(alloc, &self.get, &self.put)?;
        let (post, delete) = copy_pair(alloc, &self.post, &self.delete)?;
        let (options, head) = copy_pair(alloc, &self.options, &self.head)?;
        let (patch, trace) = copy_pair(alloc, &self.patch, &self.trace)?;
        Ok(PathItem {
            get,
            put,
            post,
            delete,
            options,
            head,
            patch,
            trace,
        })
    }
}

/// Copies of two parts.
fn copy_pair<T: Part + Drop>(
    alloc: Global,
    first: &Option<T>,
    second: &Option<T>,
) -> Result<(Option<T>, Option<T>), AllocError>
    ensures { IfOk result (λ copies. copies ≡ (first.now, second.now)) }
{
    let first = copy_option(alloc, first)?;
    let second = copy_option(alloc, second)?;
    Ok((first, second))
}
