//! Requests without their bodies.
ghost use Rattle.std.specs.Prelude.{◌≡◌, IfOk};

use crate::copies::copy_version;
use crate::info::RequestInfo;
use schema_values::{Text, VariableSet, copy_variables};
use semver::Version;
use std::alloc::{AllocError, Global};
use std::marker::Model;

/// A request without its body: what it asks for, its id and its head. Contracts see the parts of
/// the version, and the variables as the list of their entries, in the order of the names.
#[derive(Drop)]
pub struct RequestParts {
    /// The version of the API.
    pub version: Version,
    /// The template of the path.
    pub template: Text,
    /// What the variables of the path stand for.
    pub variables: VariableSet,
    /// The id of the request.
    pub request_id: Text,
    /// The head.
    pub info: RequestInfo,
}

impl Model for RequestParts {
    ghost use Rattle.semver.specs.Identifiers.{parts_of};
    ghost use Rattle.request_parts.specs.Requests.{Request};

    ghost Value = { Request };

    ghost view = { λ parts. record {
      version = parts_of parts.version;
      template = parts.template;
      variables = parts.variables.entries;
      request_id = parts.request_id;
      info = parts.info;
    } };
}

impl RequestParts {
    /// A request equal to this one. Fails only for want of memory.
    pub fn copy(&self, alloc: Global) -> Result<RequestParts, AllocError>
        ensures { IfOk result (λ copy. copy ≡ self.now) }
    {
        Ok(RequestParts {
            version: copy_version(&self.version)?,
            template: self.template.copy(alloc)?,
            variables: copy_variables(alloc, &self.variables)?,
            request_id: self.request_id.copy(alloc)?,
            info: self.info.copy(alloc)?,
        })
    }
}
