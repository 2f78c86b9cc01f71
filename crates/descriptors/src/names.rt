//! The name of each thing in a descriptor that has one.

use crate::desc::{Field, Named, TaggedVariant, Variant};
use schema_values::{HasName, Text};

impl HasName for Field {
    ghost use Rattle.descriptors.specs.Definitions.{field_name};

    ghost name_of = { field_name };

    fn name(&self) -> &Text {
        &self.name
    }
}

impl HasName for Named {
    ghost use Rattle.descriptors.specs.Definitions.{listed_name};

    ghost name_of = { listed_name };

    fn name(&self) -> &Text {
        &self.name
    }
}

impl HasName for Variant {
    ghost use Rattle.descriptors.specs.Definitions.{variant_name};

    ghost name_of = { variant_name };

    fn name(&self) -> &Text {
        &self.name
    }
}

impl HasName for TaggedVariant {
    ghost use Rattle.descriptors.specs.Definitions.{tagged_name};

    ghost name_of = { tagged_name };

    fn name(&self) -> &Text {
        &self.name
    }
}
