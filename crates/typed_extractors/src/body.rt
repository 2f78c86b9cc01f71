//! The body of a request: as a value, as bytes, or read content by content.
ghost use Rattle.std.specs.Prelude.{◌≡◌, [], IfErr, IfOk, IsUtf8, OnErr};
ghost use Rattle.http_bodies.specs.Bodies.{never_failing};
ghost use Rattle.body_reading.specs.Streams.{fresh_stream};
ghost use Rattle.handler_shapes.specs.declared.arguments.Arg.TheVariants as arguments;
ghost use Rattle.handler_shapes.specs.declared.slot.Slot.TheVariants as slots;
ghost use Rattle.typed_extractors.specs.Texts.{IsNotText, not_utf8};

use crate::common::{ExclusiveExtractor, described, value_in};
use api_types::ApiType;
use body_reading::StreamingBody;
use handler_shapes::{Arg, Slot};
use http_bodies::Body;
use http_status::{HttpError, HttpRefusal};
use schema_values::{List, Text};
use std::alloc::{AllocError, Global};
use std::marker::Model;
use std::mem;
use typed_values::{AddError, DescTable};

/// The body, as a value. Contracts see the value.
#[derive(Drop)]
pub struct TypedBody<T> {
    inner: T,
}

impl<T> Model for TypedBody<T> {
    ghost Value = { T };

    ghost coded = { T.code };

    ghost view = { λ body. body.inner };
}

impl<T> TypedBody<T> {
    /// The value.
    pub fn into_inner(self) -> T
        ensures { result ≡ self }
    {
        let TypedBody { inner } = self;
        inner
    }

    /// What `f` makes of the value. It is called once.
    pub fn map<U, F: FnOnce(T) -> U>(self, f: F) -> TypedBody<U>
        requires { F.pre f self }
        ensures { F.post f self result }
    {
        TypedBody {
            inner: f(self.into_inner()),
        }
    }

    /// What `f` makes of the value, or the error that it answers. It is called once.
    pub fn try_map<U, E, F: FnOnce(T) -> Result<U, E>>(self, f: F) -> Result<TypedBody<U>, E>
        requires { F.pre f self }
        ensures { F.post f self result }
    {
        match f(self.into_inner()) {
            Ok(inner) => Ok(TypedBody { inner }),
            Err(error) => Err(error),
        }
    }
}

impl<T> From<T> for TypedBody<T> {
    ghost use Rattle.std.specs.Prelude.{◌≡◌};

    ghost from_gives = { λ value body. body ≡ value };

    fn from(inner: T) -> TypedBody<T> {
        TypedBody { inner }
    }
}

impl<T: ApiType> ExclusiveExtractor for TypedBody<T> {
    ghost slot_of = { slots.TypedBody T.desc_of T.name_of };

    ghost definitions_of = { T.definitions_of };

    ghost converts = { λ arg value. arg ≡ arguments.Tree (T.tree_of value) };

    fn slot(alloc: Global, table: &mut DescTable) -> Result<Slot, AddError> {
        let name = T::type_name(alloc)?;
        Ok(Slot::TypedBody(described::<T>(alloc, table)?, name))
    }

    fn from_arg(alloc: Global, arg: &mut Arg) -> Result<TypedBody<T>, AllocError> {
        Ok(TypedBody {
            inner: value_in(alloc, arg)?,
        })
    }
}

/// The body, as bytes. Contracts see the bytes.
#[derive(Drop)]
pub struct UntypedBody {
    content: List<u8>,
}

impl Model for UntypedBody {
    ghost use Rattle.std.specs.Prelude.{List, ℕ};
    ghost use Rattle.std.specs.Coded.{coded_list, coded_ℕ};

    ghost Value = { List ℕ };

    ghost coded = { coded_list coded_ℕ };

    ghost view = { λ body. body.content };
}

impl UntypedBody {
    /// The bytes.
    pub fn as_bytes(&self) -> &[u8]
        ensures { result.now ≡ self.now }
    {
        self.content.as_slice()
    }

    /// A body equal to this one. Fails only for want of memory.
    pub fn copy(&self, alloc: Global) -> Result<UntypedBody, AllocError>
        ensures { IfOk result (λ copy. copy ≡ self.now) }
    {
        Ok(UntypedBody {
            content: List::from_bytes(alloc, self.content.as_slice())?,
        })
    }

    /// The bytes as text. They are refused exactly where they are not UTF-8, with status 400.
    pub fn as_str(&self, alloc: Global) -> Result<&str, HttpRefusal>
        ensures text { IfOk result (λ text. text.now ≡ self.now) }
        ensures utf8 { IfOk result (λ text. IsUtf8 self.now) }
        ensures cause { OnErr result (¬ IsUtf8 self.now) }
        ensures refused { IfErr result IsNotText }
    {
        match str::from_utf8(self.content.as_slice()) {
            Ok(text) => Ok(text),
            Err(_) => Err(not_text(alloc)),
        }
    }
}

// The refusal of bytes that are not UTF-8.
fn not_text(alloc: Global) -> HttpRefusal
    ensures { IsNotText result }
{
    match not_utf8(alloc) {
        Ok(error) => HttpRefusal::Http(error),
        Err(_) => HttpRefusal::OutOfMemory,
    }
}

fn not_utf8(alloc: Global) -> Result<HttpError, AllocError>
    ensures { IfOk result (λ error. error ≡ not_utf8) }
{
    let message = Text::from_ascii(alloc, "failed to parse body as UTF-8 string")?;
    HttpError::for_bad_request(alloc, None, message)
}

impl ExclusiveExtractor for UntypedBody {
    ghost use Rattle.std.specs.Prelude.{[]};

    ghost slot_of = { slots.RawBody };

    ghost definitions_of = { [] };

    ghost converts = { λ arg body. arg ≡ arguments.Raw body };

    fn slot(_alloc: Global, _table: &mut DescTable) -> Result<Slot, AddError> {
        Ok(Slot::RawBody)
    }

    fn from_arg(alloc: Global, arg: &mut Arg) -> Result<UntypedBody, AllocError> {
        match arg {
            Arg::Raw(bytes) => Ok(UntypedBody {
                content: List::from_bytes(alloc, bytes.as_slice())?,
            }),
            _ => unreachable!(),
        }
    }
}

impl ExclusiveExtractor for StreamingBody {
    ghost use Rattle.std.specs.Prelude.{[]};

    ghost slot_of = { slots.StreamBody };

    ghost definitions_of = { [] };

    ghost converts = { λ arg body. arg ≡ arguments.Stream body };

    ghost leaves = { λ before after. after ≡ arguments.Stream (fresh_stream (never_failing []) 0 0) };

    ghost may_fail = { ⊥ };

    fn slot(_alloc: Global, _table: &mut DescTable) -> Result<Slot, AddError> {
        Ok(Slot::StreamBody)
    }

    fn from_arg(_alloc: Global, arg: &mut Arg) -> Result<StreamingBody, AllocError> {
        match arg {
            Arg::Stream(body) => Ok(taken(body)),
            _ => unreachable!(),
        }
    }
}

// The reader of a body, in whose place one of an empty body stays.
fn taken(body: &mut StreamingBody) -> StreamingBody
    ensures taken { result ≡ body.old }
    ensures left { body.new ≡ fresh_stream (never_failing []) 0 0 }
{
    mem::replace(body, StreamingBody::new(Body::empty(), 0, 0))
}
