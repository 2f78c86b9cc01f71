//! Values that arguments convert to, told as the arguments that they came of.
use api_types::ApiType;
use body_reading::StreamingBody;
use case_notation::{CaseError, Record};
use endpoint_notation::{arg_told, bytes_noted};
use handler_shapes::Arg;
use http_status::{HttpError, HttpRefusal};
use schema_values::Json;
use std::alloc::Global;
use typed_extractors::{Header, Path, Query, TypedBody, UntypedBody};

/// A value that arguments convert to.
pub trait Told: Sized + Drop {
    /// What is told of it. So many calls are made on a stream.
    fn told(self, alloc: Global, calls: u64) -> Result<Json, CaseError>;
}

impl<T: ApiType> Told for Path<T> {
    fn told(self, alloc: Global, calls: u64) -> Result<Json, CaseError> {
        let path = Path::from(self.into_inner());
        let tree = path.try_map(|value: T| value.to_tree(alloc))?;
        arg_told(alloc, tree.map(Arg::Tree).into_inner(), calls)
    }
}

impl<T: ApiType> Told for Query<T> {
    fn told(self, alloc: Global, calls: u64) -> Result<Json, CaseError> {
        let query = Query::from(self.into_inner());
        let tree = query.try_map(|value: T| value.to_tree(alloc))?;
        arg_told(alloc, tree.map(Arg::Tree).into_inner(), calls)
    }
}

impl<T: ApiType> Told for Header<T> {
    fn told(self, alloc: Global, calls: u64) -> Result<Json, CaseError> {
        let header = Header::from(self.into_inner());
        let tree = header.try_map(|value: T| value.to_tree(alloc))?;
        arg_told(alloc, tree.map(Arg::Tree).into_inner(), calls)
    }
}

impl<T: ApiType> Told for TypedBody<T> {
    fn told(self, alloc: Global, calls: u64) -> Result<Json, CaseError> {
        let body = TypedBody::from(self.into_inner());
        let tree = body.try_map(|value: T| value.to_tree(alloc))?;
        arg_told(alloc, tree.map(Arg::Tree).into_inner(), calls)
    }
}

/// The bytes, and the text of the body or the message of its refusal, of a copy.
impl Told for UntypedBody {
    fn told(self, alloc: Global, _calls: u64) -> Result<Json, CaseError> {
        bytes_told(alloc, &self.copy(alloc)?)
    }
}

fn bytes_told(alloc: Global, body: &UntypedBody) -> Result<Json, CaseError> {
    let told = Record::new(alloc).put("raw", bytes_noted(alloc, body.as_bytes()));
    match body.as_str(alloc) {
        Ok(text) => told.text("text", text).done(),
        Err(HttpRefusal::Http(error)) => refusal_told(told, &error),
        Err(HttpRefusal::OutOfMemory) => Err(CaseError::OutOfMemory),
    }
}

fn refusal_told(told: Record, error: &HttpError) -> Result<Json, CaseError> {
    told.number("refused", error.status_code.as_u16().into())
        .text("message", error.external_message.as_str())
        .done()
}

impl Told for StreamingBody {
    fn told(self, alloc: Global, calls: u64) -> Result<Json, CaseError> {
        arg_told(alloc, Arg::Stream(self), calls)
    }
}
