//! The header lines, as a value.
ghost use Rattle.std.specs.Prelude.{◌≡◌};
ghost use Rattle.handler_shapes.specs.declared.arguments.Arg.TheVariants as arguments;
ghost use Rattle.handler_shapes.specs.declared.slot.Slot.TheVariants as slots;

use crate::common::{SharedExtractor, described, value_in};
use api_types::ApiType;
use handler_shapes::{Arg, Slot};
use std::alloc::{AllocError, Global};
use std::marker::Model;
use typed_values::{AddError, DescTable};

/// The header lines, as a value. Contracts see the value.
#[derive(Drop)]
pub struct Header<T> {
    inner: T,
}

impl<T> Model for Header<T> {
    ghost Value = { T };

    ghost coded = { T.code };

    ghost view = { λ header. header.inner };
}

impl<T> Header<T> {
    /// The value.
    pub fn into_inner(self) -> T
        ensures { result ≡ self }
    {
        let Header { inner } = self;
        inner
    }

    /// What `f` makes of the value. It is called once.
    pub fn map<U, F: FnOnce(T) -> U>(self, f: F) -> Header<U>
        requires { F.pre f self }
        ensures { F.post f self result }
    {
        Header {
            inner: f(self.into_inner()),
        }
    }

    /// What `f` makes of the value, or the error that it answers. It is called once.
    pub fn try_map<U, E, F: FnOnce(T) -> Result<U, E>>(self, f: F) -> Result<Header<U>, E>
        requires { F.pre f self }
        ensures { F.post f self result }
    {
        match f(self.into_inner()) {
            Ok(inner) => Ok(Header { inner }),
            Err(error) => Err(error),
        }
    }
}

impl<T> From<T> for Header<T> {
    ghost use Rattle.std.specs.Prelude.{◌≡◌};

    ghost from_gives = { λ value header. header ≡ value };

    fn from(inner: T) -> Header<T> {
        Header { inner }
    }
}

impl<T: ApiType> SharedExtractor for Header<T> {
    ghost slot_of = { slots.Header T.desc_of };

    ghost definitions_of = { T.definitions_of };

    ghost converts = { λ arg value. arg ≡ arguments.Tree (T.tree_of value) };

    fn slot(alloc: Global, table: &mut DescTable) -> Result<Slot, AddError> {
        Ok(Slot::Header(described::<T>(alloc, table)?))
    }

    fn from_arg(alloc: Global, arg: &mut Arg) -> Result<Header<T>, AllocError> {
        Ok(Header {
            inner: value_in(alloc, arg)?,
        })
    }
}
