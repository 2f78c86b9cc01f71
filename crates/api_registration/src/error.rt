//! The errors that tell why endpoints were refused.
ghost use Rattle.std.specs.Prelude.{◌≡◌, IfOk};
ghost use Rattle.std.specs.Str.{chars};

use crate::cause::RegisterCause;
use schema_values::{List, Text};
use std::alloc::{AllocError, Global};
use std::fmt;
use thiserror::Error;

/// A refused endpoint: its operation id, the cause, and a message that tells it.
#[derive(Debug, Drop, Error)]
pub struct ApiDescriptionRegisterError {
    pub(crate) operation_id: Text,
    pub(crate) message: Text,
    pub(crate) cause: RegisterCause,
}

/// Writes the operation id and the message.
impl fmt::Display for ApiDescriptionRegisterError {
    ghost use Rattle.std.specs.Prelude.{Some};
    ghost use Rattle.api_registration.specs.Texts.{error_text};

    ghost output = { λ error. Some (error_text error) };

    fn fmt<W: fmt::Write>(&self, f: &mut fmt::Formatter<W>) -> fmt::Result {
        write!(
            f,
            "failed to register endpoint '{}': {}",
            self.operation_id, self.message
        )
    }
}

impl ApiDescriptionRegisterError {
    /// The operation id of the endpoint.
    pub fn operation_id(&self) -> &str
        ensures { self.now.operation_id ≡ chars result.now }
    {
        self.operation_id.as_str()
    }

    /// What tells the cause.
    pub fn message(&self) -> &str
        ensures { self.now.message ≡ chars result.now }
    {
        self.message.as_str()
    }

    /// The cause.
    pub fn cause(&self) -> RegisterCause
        ensures { result ≡ self.now.cause }
    {
        self.cause
    }

    /// An error equal to this one. Fails only for want of memory.
    pub fn copy(&self, alloc: Global) -> Result<ApiDescriptionRegisterError, AllocError>
        ensures { IfOk result (λ copy. copy ≡ self.now) }
    {
        Ok(ApiDescriptionRegisterError {
            operation_id: self.operation_id.copy(alloc)?,
            message: self.message.copy(alloc)?,
            cause: self.cause,
        })
    }
}

/// The endpoints that were refused, in the order in which they were to be registered.
#[derive(Debug, Drop, Error)]
pub struct ApiDescriptionBuildErrors {
    errors: List<ApiDescriptionRegisterError>,
}

impl ApiDescriptionBuildErrors {
    /// These errors.
    pub fn new(errors: List<ApiDescriptionRegisterError>) -> ApiDescriptionBuildErrors
        ensures { result.errors ≡ errors }
    {
        ApiDescriptionBuildErrors { errors }
    }

    /// The errors, in order.
    pub fn errors(&self) -> &[ApiDescriptionRegisterError]
        ensures { result.now ≡ self.now.errors }
    {
        self.errors.as_slice()
    }

    /// Errors equal to these. Fails only for want of memory.
    pub fn copy(&self, alloc: Global) -> Result<ApiDescriptionBuildErrors, AllocError>
        ensures { IfOk result (λ copy. copy ≡ self.now) }
    {
        let mut errors = List::new(alloc);
        for error in self.errors.as_slice() {
            errors.push(error.copy(alloc)?)?;
        }
        Ok(ApiDescriptionBuildErrors { errors })
    }
}

/// Writes a heading, and a line for each error.
impl fmt::Display for ApiDescriptionBuildErrors {
    ghost use Rattle.std.specs.Prelude.{Some};
    ghost use Rattle.api_registration.specs.Texts.{errors_text};

    ghost output = { λ refused. Some (errors_text refused) };

    fn fmt<W: fmt::Write>(&self, f: &mut fmt::Formatter<W>) -> fmt::Result {
        f.write_str("failed to register endpoints: \n")?;
        for error in self.errors.as_slice() {
            write!(
                f,
                "  - registering '{}' failed: {}\n",
                error.operation_id, error.message
            )?;
        }
        Ok(())
    }
}
