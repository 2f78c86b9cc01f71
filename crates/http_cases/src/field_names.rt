//! The names of the fields of structs of one field.
ghost use Rattle.std.specs.Prelude.{codes};

use crate::single::FieldName;

/// A field named as a header is, with letters in upper case.
pub struct HeaderA;

impl FieldName for HeaderA {
    ghost name_of = { codes "X-Header-A" };

    fn name() -> &'static str {
        "X-Header-A"
    }
}

/// The field `b`.
pub struct B;

impl FieldName for B {
    ghost name_of = { codes "b" };

    fn name() -> &'static str {
        "b"
    }
}

/// The field `prev`, which the next page begins behind.
pub struct Prev;

impl FieldName for Prev {
    ghost name_of = { codes "prev" };

    fn name() -> &'static str {
        "prev"
    }
}

/// The field `s`, which the next page begins behind.
pub struct S;

impl FieldName for S {
    ghost name_of = { codes "s" };

    fn name() -> &'static str {
        "s"
    }
}
