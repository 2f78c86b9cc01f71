//! The limits that a context tells its handler. `"request_body_max_bytes"` is the limit of the
//! endpoint, where null is none, `"limit"` what the client asks for; `"greatest"` and `"default"`
//! are the server's.
use api_respond::{RequestContext, RequestEndpointMetadata};
use case_notation::{CaseError, given, given_number};
use endpoint_notation::{info_of, number_or, request_id_of, u64_of};
use request_parts::{ApiEndpointBodyContentType, ServerConfig};
use schema_values::{Json, Text};
use std::alloc::Global;
use std::collections::BTreeMap;
use std::num::NonZeroU32;

/// How many items a page has at most.
pub fn page_limit(alloc: Global, case: &Json) -> Result<Json, CaseError> {
    let limit = match given(case, "limit")? {
        Json::Null => None,
        _ => Some(items_at(case, "limit")?),
    };
    let config = ServerConfig {
        default_request_body_max_bytes: 0,
        page_max_nitems: items_at(case, "greatest")?,
        page_default_nitems: items_at(case, "default")?,
    };
    let limit = context_of(alloc, config, None)?.page_limit(limit);
    Ok(Json::Int(limit.get().into()))
}

/// How many bytes a body has at most.
pub fn body_limit(alloc: Global, case: &Json) -> Result<Json, CaseError> {
    let limit = match given(case, "request_body_max_bytes")? {
        Json::Null => None,
        limit => Some(u64_of(limit)?),
    };
    let config = ServerConfig {
        default_request_body_max_bytes: number_or(case, "default", 0)?,
        page_max_nitems: NonZeroU32::MIN,
        page_default_nitems: NonZeroU32::MIN,
    };
    let limit = context_of(alloc, config, limit)?.request_body_max_bytes();
    Ok(Json::Int(limit.into()))
}

fn items_at(case: &Json, name: &'static str) -> Result<NonZeroU32, CaseError> {
    match u32::try_from(given_number(case, name)?) {
        Ok(number) => NonZeroU32::new(number).ok_or(CaseError::Expected("a number of items")),
        Err(_) => Err(CaseError::Expected("a number of items")),
    }
}

// The context of a request that says nothing.
fn context_of(
    alloc: Global,
    config: ServerConfig,
    request_body_max_bytes: Option<u64>,
) -> Result<Box<RequestContext>, CaseError> {
    let request_id = request_id_of(alloc, "123")?;
    let request = info_of(alloc, &Json::Null)?;
    let endpoint = RequestEndpointMetadata {
        operation_id: Text::new(alloc),
        variables: BTreeMap::new(alloc),
        body_content_type: ApiEndpointBodyContentType::Json,
        request_body_max_bytes,
    };
    let context = RequestContext {
        endpoint,
        request_id,
        request,
        config,
    };
    Ok(Box::new(alloc, context)?)
}
