//! Equality of descriptors and of trees. It takes no memory.
ghost use Rattle.std.specs.Prelude.{◌≡◌, ◌↔◌, IsTrue};

use crate::desc::{Desc, Field, Named, Presence, TaggedVariant, Variant};
use crate::tree::{Pair, Tree};

impl Desc {
    /// Whether two descriptors are the same.
    pub fn equals(&self, other: &Desc) -> bool
        ensures { IsTrue result ↔ (self.now ≡ other.now) }
    {
        self == other
    }
}

impl Named {
    /// Whether two names are the same, with the same description.
    pub fn equals(&self, other: &Named) -> bool
        ensures { IsTrue result ↔ (self.now ≡ other.now) }
    {
        self == other
    }
}

impl Variant {
    /// Whether two variants are the same.
    pub fn equals(&self, other: &Variant) -> bool
        ensures { IsTrue result ↔ (self.now ≡ other.now) }
    {
        self == other
    }
}

impl TaggedVariant {
    /// Whether two variants are the same.
    pub fn equals(&self, other: &TaggedVariant) -> bool
        ensures { IsTrue result ↔ (self.now ≡ other.now) }
    {
        self == other
    }
}

impl Field {
    /// Whether two fields are the same.
    pub fn equals(&self, other: &Field) -> bool
        ensures { IsTrue result ↔ (self.now ≡ other.now) }
    {
        self == other
    }
}

impl Presence {
    /// Whether two presences are the same.
    pub fn equals(&self, other: &Presence) -> bool
        ensures { IsTrue result ↔ (self.now ≡ other.now) }
    {
        self == other
    }
}

impl Tree {
    /// Whether two trees are the same.
    pub fn equals(&self, other: &Tree) -> bool
        ensures { IsTrue result ↔ (self.now ≡ other.now) }
    {
        self == other
    }
}

impl Pair {
    /// Whether two pairs have the same key and the same value.
    pub fn equals(&self, other: &Pair) -> bool
        ensures { IsTrue result ↔ (self.now ≡ other.now) }
    {
        self == other
    }
}
