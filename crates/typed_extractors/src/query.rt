//! The pairs of the query, as a value.
ghost use Rattle.std.specs.Prelude.{◌≡◌};
ghost use Rattle.handler_shapes.specs.declared.arguments.Arg.TheVariants as arguments;
ghost use Rattle.handler_shapes.specs.declared.slot.Slot.TheVariants as slots;

use crate::common::{SharedExtractor, described, value_in};
use api_types::ApiType;
use handler_shapes::{Arg, Slot};
use std::alloc::{AllocError, Global};
use std::marker::Model;
use typed_values::{AddError, DescTable};

/// The pairs of the query, as a value. Contracts see the value.
#[derive(Drop)]
pub struct Query<T> {
    inner: T,
}

impl<T> Model for Query<T> {
    ghost Value = { T };

    ghost coded = { T.code };

    ghost view = { λ query. query.inner };
}

impl<T> Query<T> {
    /// The value.
    pub fn into_inner(self) -> T
        ensures { result ≡ self }
    {
        let Query { inner } = self;
        inner
    }

    /// What `f` makes of the value. It is called once.
    pub fn map<U, F: FnOnce(T) -> U>(self, f: F) -> Query<U>
        requires { F.pre f self }
        ensures { F.post f self result }
    {
        Query {
            inner: f(self.into_inner()),
        }
    }

    /// What `f` makes of the value, or the error that it answers. It is called once.
    pub fn try_map<U, E, F: FnOnce(T) -> Result<U, E>>(self, f: F) -> Result<Query<U>, E>
        requires { F.pre f self }
        ensures { F.post f self result }
    {
        match f(self.into_inner()) {
            Ok(inner) => Ok(Query { inner }),
            Err(error) => Err(error),
        }
    }
}

impl<T> From<T> for Query<T> {
    ghost use Rattle.std.specs.Prelude.{◌≡◌};

    ghost from_gives = { λ value query. query ≡ value };

    fn from(inner: T) -> Query<T> {
        Query { inner }
    }
}

impl<T: ApiType> SharedExtractor for Query<T> {
    ghost slot_of = { slots.Query T.desc_of };

    ghost definitions_of = { T.definitions_of };

    ghost converts = { λ arg value. arg ≡ arguments.Tree (T.tree_of value) };

    fn slot(alloc: Global, table: &mut DescTable) -> Result<Slot, AddError> {
        Ok(Slot::Query(described::<T>(alloc, table)?))
    }

    fn from_arg(alloc: Global, arg: &mut Arg) -> Result<Query<T>, AllocError> {
        Ok(Query {
            inner: value_in(alloc, arg)?,
        })
    }
}
