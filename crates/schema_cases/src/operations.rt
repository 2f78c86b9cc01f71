//! Reads documents, their paths and their operations.
use crate::part_notation::{Noted, is_true_at, list_at, map_at, maybe_at, part_at, text_at};
use case_notation::Reader;
use openapi_values::{
    Components, HeaderObject, MediaType, OpenApi, Operation, Parameter, PathItem, RequestBody,
    ResponseObject,
};
use schema_values::{Boxed, Json, List, Text};

impl Noted for OpenApi {
    fn read(reader: &mut Reader, noted: &Json) -> OpenApi {
        reader.check_names(noted, &["openapi", "info", "paths", "components", "tags"]);
        OpenApi {
            openapi: part_at(reader, noted, "openapi"),
            paths: map_at(reader, noted, "paths"),
            tags: list_at(reader, noted, "tags"),
            components: part_at(reader, noted, "components"),
            info: part_at(reader, noted, "info"),
        }
    }
}

impl Noted for Components {
    fn read(reader: &mut Reader, noted: &Json) -> Components {
        reader.check_names(noted, &["responses", "schemas"]);
        Components {
            responses: map_at(reader, noted, "responses"),
            schemas: map_at(reader, noted, "schemas"),
        }
    }
}

/// The methods that a path may serve, as the names of their operations.
const METHODS: [&str; 8] = [
    "get", "put", "post", "delete", "options", "head", "patch", "trace",
];

impl Noted for PathItem {
    fn read(reader: &mut Reader, noted: &Json) -> PathItem {
        reader.check_names(noted, &METHODS);
        PathItem {
            get: operation_at(reader, noted, "get"),
            put: operation_at(reader, noted, "put"),
            post: operation_at(reader, noted, "post"),
            delete: operation_at(reader, noted, "delete"),
            options: operation_at(reader, noted, "options"),
            head: operation_at(reader, noted, "head"),
            patch: operation_at(reader, noted, "patch"),
            trace: operation_at(reader, noted, "trace"),
        }
    }
}

fn operation_at(reader: &mut Reader, noted: &Json, method: &str) -> Option<Boxed<Operation>> {
    match noted.get(method) {
        Some(operation) => {
            let operation = Operation::read(reader, operation);
            reader.boxed(operation)
        }
        None => None,
    }
}

impl Noted for Operation {
    fn read(reader: &mut Reader, noted: &Json) -> Operation {
        reader.check_names(
            noted,
            &[
                "tags",
                "summary",
                "description",
                "operationId",
                "parameters",
                "requestBody",
                "responses",
                "deprecated",
                "x-dropshot-pagination",
            ],
        );
        Operation {
            operation_id: part_at(reader, noted, "operationId"),
            summary: text_at(reader, noted, "summary"),
            description: text_at(reader, noted, "description"),
            tags: list_at(reader, noted, "tags"),
            parameters: list_at(reader, noted, "parameters"),
            request_body: maybe_at(reader, noted, "requestBody"),
            responses: map_at(reader, noted, "responses"),
            pagination: pagination_at(reader, noted),
            deprecated: is_true_at(reader, noted, "deprecated"),
        }
    }
}

fn pagination_at(reader: &mut Reader, noted: &Json) -> Option<List<Text>> {
    match noted.get("x-dropshot-pagination") {
        Some(pagination) => {
            reader.check_names(pagination, &["required"]);
            Some(list_at(reader, pagination, "required"))
        }
        None => None,
    }
}

impl Noted for Parameter {
    fn read(reader: &mut Reader, noted: &Json) -> Parameter {
        reader.check_names(noted, &["in", "name", "description", "required", "schema"]);
        Parameter {
            required: is_true_at(reader, noted, "required"),
            location: part_at(reader, noted, "in"),
            name: part_at(reader, noted, "name"),
            description: text_at(reader, noted, "description"),
            schema: part_at(reader, noted, "schema"),
        }
    }
}

impl Noted for HeaderObject {
    fn read(reader: &mut Reader, noted: &Json) -> HeaderObject {
        reader.check_names(noted, &["description", "style", "required", "schema"]);
        HeaderObject {
            required: is_true_at(reader, noted, "required"),
            description: text_at(reader, noted, "description"),
            style: part_at(reader, noted, "style"),
            schema: part_at(reader, noted, "schema"),
        }
    }
}

impl Noted for MediaType {
    fn read(reader: &mut Reader, noted: &Json) -> MediaType {
        reader.check_names(noted, &["schema"]);
        MediaType {
            schema: part_at(reader, noted, "schema"),
        }
    }
}

impl Noted for RequestBody {
    fn read(reader: &mut Reader, noted: &Json) -> RequestBody {
        reader.check_names(noted, &["content", "required"]);
        RequestBody {
            required: is_true_at(reader, noted, "required"),
            content: map_at(reader, noted, "content"),
        }
    }
}

impl Noted for ResponseObject {
    fn read(reader: &mut Reader, noted: &Json) -> ResponseObject {
        reader.check_names(noted, &["description", "headers", "content", "$ref"]);
        ResponseObject {
            description: text_at(reader, noted, "description"),
            headers: map_at(reader, noted, "headers"),
            content: map_at(reader, noted, "content"),
            reference: text_at(reader, noted, "$ref"),
        }
    }
}
