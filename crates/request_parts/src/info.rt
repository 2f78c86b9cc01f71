//! The head of a request.
ghost use Rattle.std.specs.Prelude.{◌≡◌, IfOk};

use crate::copies::copy_uri;
use header_lists::HeaderList;
use http::{Method, Version};
use http_uri::Uri;
use schema_values::Text;
use std::alloc::{AllocError, Global};

/// The head of a request (RFC 9112, sections 3 and 5), and where it comes from.
#[derive(Drop)]
pub struct RequestInfo {
    method: Method,
    uri: Uri,
    version: Version,
    headers: HeaderList,
    remote_addr: Text,
}

impl RequestInfo {
    /// The head of a request of these parts.
    pub fn new(
        method: Method,
        uri: Uri,
        version: Version,
        headers: HeaderList,
        remote_addr: Text,
    ) -> RequestInfo
        ensures { result ≡ record {
          method = method;
          uri = uri;
          version = version;
          headers = headers;
          remote_addr = remote_addr;
        } }
    {
        RequestInfo {
            method,
            uri,
            version,
            headers,
            remote_addr,
        }
    }

    /// The method.
    pub fn method(&self) -> &Method
        ensures { result.now ≡ self.now.method }
    {
        &self.method
    }

    /// The target.
    pub fn uri(&self) -> &Uri
        ensures { result.now ≡ self.now.uri }
    {
        &self.uri
    }

    /// The version of HTTP.
    pub fn version(&self) -> &Version
        ensures { result.now ≡ self.now.version }
    {
        &self.version
    }

    /// The header lines.
    pub fn headers(&self) -> &HeaderList
        ensures { result.now ≡ self.now.headers }
    {
        &self.headers
    }

    /// Where the request comes from.
    pub fn remote_addr(&self) -> &Text
        ensures { result.now ≡ self.now.remote_addr }
    {
        &self.remote_addr
    }

    /// A head equal to this one. Fails only for want of memory.
    pub fn copy(&self, alloc: Global) -> Result<RequestInfo, AllocError>
        ensures { IfOk result (λ copy. copy ≡ self.now) }
    {
        Ok(RequestInfo {
            method: self.method.clone()?,
            uri: copy_uri(&self.uri)?,
            version: self.version,
            headers: self.headers.copy(alloc)?,
            remote_addr: self.remote_addr.copy(alloc)?,
        })
    }
}
