//! What a document says of a struct and of its fields, beside their types.
ghost use Rattle.std.specs.Prelude.{◌≡◌, [], IfOk, IsTrue};
ghost use Rattle.schema_values.specs.Ascii.{all_ascii};
ghost use Rattle.api_types.specs.Heads.{closed, described, described_struct, field_head, struct_of};
ghost use Rattle.api_types.specs.Heads.{nullable, required, skipped, with_default, with_field};
ghost use Rattle.api_types.specs.StructTypes.{field_with};

use schema_values::{List, Text, copy_text};
use std::alloc::{AllocError, Global};
use typed_values::{Desc, Field, Presence, Tree};

/// A field, without its type.
#[derive(Drop)]
pub struct FieldHead {
    /// What it is called.
    pub name: Text,
    /// Whether it may be absent, and what it is then.
    pub presence: Presence,
    /// What a document says of it.
    pub description: Option<Text>,
}

/// A struct, without its name and the types of its fields.
#[derive(Drop)]
pub struct StructHead {
    /// What a document says of it.
    pub description: Option<Text>,
    /// Whether other names than those of the fields are refused.
    pub deny_unknown: bool,
    /// The fields, in order.
    pub fields: List<FieldHead>,
}

impl FieldHead {
    /// A field of this name, which is ASCII. It has to be there.
    pub fn required(alloc: Global, name: &str) -> Result<FieldHead, AllocError>
        requires { IsTrue (all_ascii name.now) }
        ensures { IfOk result (λ head. head ≡ required name.now) }
    {
        FieldHead::new(alloc, name, Presence::Required)
    }

    /// An option of this name, which is ASCII. It may be absent or null, and is written as null.
    pub fn nullable(alloc: Global, name: &str) -> Result<FieldHead, AllocError>
        requires { IsTrue (all_ascii name.now) }
        ensures { IfOk result (λ head. head ≡ nullable name.now) }
    {
        FieldHead::new(alloc, name, Presence::Nullable)
    }

    /// An option of this name, which is ASCII. It may be absent, and is left out where it is none.
    pub fn skipped(alloc: Global, name: &str) -> Result<FieldHead, AllocError>
        requires { IsTrue (all_ascii name.now) }
        ensures { IfOk result (λ head. head ≡ skipped name.now) }
    {
        FieldHead::new(alloc, name, Presence::Skipped)
    }

    /// A field of this name, which is ASCII. It has this tree where it is absent.
    pub fn with_default(alloc: Global, name: &str, tree: Tree) -> Result<FieldHead, AllocError>
        requires { IsTrue (all_ascii name.now) }
        ensures { IfOk result (λ head. head ≡ with_default name.now tree) }
    {
        FieldHead::new(alloc, name, Presence::Default(tree))
    }

    /// The field with a description, which is ASCII.
    pub fn described(self, alloc: Global, text: &str) -> Result<FieldHead, AllocError>
        requires { IsTrue (all_ascii text.now) }
        ensures { IfOk result (λ head. head ≡ described text.now self) }
    {
        let description = Some(Text::from_ascii(alloc, text)?);
        Ok(FieldHead {
            name: self.name,
            presence: self.presence,
            description,
        })
    }

    fn new(alloc: Global, name: &str, presence: Presence) -> Result<FieldHead, AllocError>
        requires { IsTrue (all_ascii name.now) }
        ensures { IfOk result (λ head. head ≡ field_head name.now presence) }
    {
        Ok(FieldHead {
            name: Text::from_ascii(alloc, name)?,
            presence,
            description: None,
        })
    }

    /// The field of a descriptor.
    pub(crate) fn field(&self, alloc: Global, desc: Desc) -> Result<Field, AllocError>
        ensures { IfOk result (λ field. field ≡ field_with self.now desc) }
    {
        let FieldHead {
            name,
            presence,
            description,
        } = self.copy(alloc)?;
        Ok(Field {
            name,
            desc,
            presence,
            description,
        })
    }

    /// A field equal to this one.
    pub fn copy(&self, alloc: Global) -> Result<FieldHead, AllocError>
        ensures { IfOk result (λ copy. copy ≡ self.now) }
    {
        Ok(FieldHead {
            name: self.name.copy(alloc)?,
            description: copy_text(alloc, &self.description)?,
            presence: self.presence.copy(alloc)?,
        })
    }
}

impl StructHead {
    /// A struct without fields and without a description, which allows other names.
    pub fn new(alloc: Global) -> StructHead
        ensures { result ≡ struct_of [] }
    {
        StructHead {
            description: None,
            deny_unknown: false,
            fields: List::new(alloc),
        }
    }

    /// The struct with a description, which is ASCII.
    pub fn described(self, alloc: Global, text: &str) -> Result<StructHead, AllocError>
        requires { IsTrue (all_ascii text.now) }
        ensures { IfOk result (λ head. head ≡ described_struct text.now self) }
    {
        let description = Some(Text::from_ascii(alloc, text)?);
        Ok(StructHead {
            description,
            deny_unknown: self.deny_unknown,
            fields: self.fields,
        })
    }

    /// The struct, which refuses other names than those of its fields.
    pub fn closed(self) -> StructHead
        ensures { result ≡ closed self }
    {
        StructHead {
            description: self.description,
            deny_unknown: true,
            fields: self.fields,
        }
    }

    /// The struct with one more field of this name, which is ASCII. It has to be there.
    pub fn required(self, alloc: Global, name: &str) -> Result<StructHead, AllocError>
        requires { IsTrue (all_ascii name.now) }
        ensures { IfOk result (λ head. head ≡ with_field (required name.now) self) }
    {
        self.with(FieldHead::required(alloc, name)?)
    }

    /// The struct with one more option of this name, which is ASCII. It may be absent or null.
    pub fn nullable(self, alloc: Global, name: &str) -> Result<StructHead, AllocError>
        requires { IsTrue (all_ascii name.now) }
        ensures { IfOk result (λ head. head ≡ with_field (nullable name.now) self) }
    {
        self.with(FieldHead::nullable(alloc, name)?)
    }

    /// The struct with one more option of this name, which is ASCII. It is left out where it is none.
    pub fn skipped(self, alloc: Global, name: &str) -> Result<StructHead, AllocError>
        requires { IsTrue (all_ascii name.now) }
        ensures { IfOk result (λ head. head ≡ with_field (skipped name.now) self) }
    {
        self.with(FieldHead::skipped(alloc, name)?)
    }

    /// The struct with one more field.
    pub fn with(self, field: FieldHead) -> Result<StructHead, AllocError>
        ensures { IfOk result (λ head. head ≡ with_field field self) }
    {
        let StructHead {
            description,
            deny_unknown,
            mut fields,
        } = self;
        fields.push(field)?;
        Ok(StructHead {
            description,
            deny_unknown,
            fields,
        })
    }
}
