ghost use Rattle.std.specs.Prelude.{◌≡◌, IfOk};

use crate::tree::Tree;
use schema_values::{Boxed, List, Text, copy_text};
use std::alloc::{AllocError, Global};

/// A kind of whole numbers: its width in bits, and whether it has a sign.
#[derive(Clone, Copy, Debug, PartialEq, Eq)]
pub enum IntKind {
    /// From -2^7 to 2^7-1.
    I8,
    /// From -2^15 to 2^15-1.
    I16,
    /// From -2^31 to 2^31-1.
    I32,
    /// From -2^63 to 2^63-1.
    I64,
    /// From 0 to 2^8-1.
    U8,
    /// From 0 to 2^16-1.
    U16,
    /// From 0 to 2^32-1.
    U32,
    /// From 0 to 2^64-1.
    U64,
}

/// A descriptor of a type. Bounds are inclusive; lengths count characters or items.
#[derive(Drop, PartialEq, Eq)]
#[cycle(desc)]
pub enum Desc {
    /// Every value.
    Any,
    /// No value.
    Never,
    /// Null alone.
    Null,
    /// A truth value.
    Bool,
    /// A text of one character.
    Char,
    /// A whole number of a kind, within its bounds.
    Int {
        kind: IntKind,
        min: Option<i128>,
        max: Option<i128>,
    },
    /// A text whose number of characters is within its bounds. The format is shown and not tested.
    Text {
        min: Option<u32>,
        max: Option<u32>,
        format: Option<Text>,
    },
    /// One of some names.
    Enumeration {
        names: List<Named>,
    },
    /// `null`, or a value of the inner type.
    Option(Boxed<Desc>),
    /// A list whose number of items is within its bounds, each item of one descriptor.
    List {
        item: Boxed<Desc>,
        min: Option<u32>,
        max: Option<u32>,
    },
    /// An object whose values are all of the inner type.
    Map(Boxed<Desc>),
    /// An object of some fields, and of other names too unless they are denied.
    Struct {
        fields: List<Field>,
        deny_unknown: bool,
    },
    /// The name of a variant without payload, or an object of one member, whose name is that of a variant and
    /// whose value is of its payload.
    External {
        variants: List<Variant>,
    },
    /// An object in which the member `tag` names a variant, beside the fields of that variant.
    Tagged {
        tag: Text,
        variants: List<TaggedVariant>,
    },
    /// The first alternative that takes the value.
    Untagged {
        alternatives: List<Desc>,
    },
    /// The definition of this name in the table.
    Ref(Text),
}

/// A name of an enumeration.
#[derive(Drop, PartialEq, Eq)]
pub struct Named {
    /// The name.
    pub name: Text,
    /// What a document says of it.
    pub description: Option<Text>,
}

/// A variant of an external enumeration, with its payload if it has one.
#[derive(Drop, PartialEq, Eq)]
#[cycle(desc)]
pub struct Variant {
    /// Its name.
    pub name: Text,
    /// What a document says of it.
    pub description: Option<Text>,
    /// What stands under its name. Without any, the name itself is the value.
    pub payload: Option<Desc>,
}

/// A variant of a tagged enumeration. Its fields stand beside the tag.
#[derive(Drop, PartialEq, Eq)]
#[cycle(desc)]
pub struct TaggedVariant {
    /// Its name, which stands under the tag.
    pub name: Text,
    /// What a document says of it.
    pub description: Option<Text>,
    /// Its fields, in the order in which they are written.
    pub fields: List<Field>,
}

/// A field of a struct, or of a tagged variant.
#[derive(Drop, PartialEq, Eq)]
#[cycle(desc)]
pub struct Field {
    /// Its name.
    pub name: Text,
    /// The descriptor of its values.
    pub desc: Desc,
    /// Whether it may be absent, and what it is then.
    pub presence: Presence,
    /// What a document says of it.
    pub description: Option<Text>,
}

/// What stands for a field that is absent.
#[derive(Drop, PartialEq, Eq)]
pub enum Presence {
    /// The field must be there.
    Required,
    /// An option that is absent or null is `None`, and `None` is written as null.
    Nullable,
    /// An absent field is `None`, one that is there is `Some`, null is refused, and `None` is not written.
    Skipped,
    /// An absent field has this value, which fits the field's descriptor and is always written.
    Default(Tree),
}

impl Desc {
    /// A descriptor equal to this one.
    #[cycle(copy)]
    pub fn copy(&self, alloc: Global) -> Result<Desc, AllocError>
        ensures { IfOk result (λ copy. copy ≡ self.now) }
    {
        match self {
            Desc::Any => Ok(Desc::Any),
            Desc::Never => Ok(Desc::Never),
            Desc::Null => Ok(Desc::Null),
            Desc::Bool => Ok(Desc::Bool),
            Desc::Char => Ok(Desc::Char),
            Desc::Int { kind, min, max } => Ok(copy_int(*kind, min, max)),
            Desc::Text { min, max, format } => Ok(Desc::Text {
                min: *min,
                max: *max,
                format: copy_text(alloc, format)?,
            }),
            Desc::Enumeration { names } => Ok(Desc::Enumeration {
                names: copy_names(alloc, names.as_slice())?,
            }),
            Desc::Option(inner) => Ok(Desc::Option(inner.get().copy_boxed(alloc)?)),
            Desc::List { item, min, max } => Ok(Desc::List {
                item: item.get().copy_boxed(alloc)?,
                min: *min,
                max: *max,
            }),
            Desc::Map(value) => Ok(Desc::Map(value.get().copy_boxed(alloc)?)),
            Desc::Struct {
                fields,
                deny_unknown,
            } => Ok(Desc::Struct {
                fields: copy_fields(alloc, fields.as_slice())?,
                deny_unknown: *deny_unknown,
            }),
            Desc::External { variants } => Ok(Desc::External {
                variants: copy_variants(alloc, variants.as_slice())?,
            }),
            Desc::Tagged { tag, variants } => Ok(Desc::Tagged {
                tag: tag.copy(alloc)?,
                variants: copy_tagged(alloc, variants.as_slice())?,
            }),
            Desc::Untagged { alternatives } => Ok(Desc::Untagged {
                alternatives: copy_descs(alloc, alternatives.as_slice())?,
            }),
            Desc::Ref(name) => Ok(Desc::Ref(name.copy(alloc)?)),
        }
    }

    #[cycle(copy)]
    fn copy_boxed(&self, alloc: Global) -> Result<Boxed<Desc>, AllocError>
        ensures { IfOk result (λ copy. copy ≡ self.now) }
    {
        Boxed::new(alloc, self.copy(alloc)?)
    }
}

impl Named {
    /// A name equal to this one.
    pub fn copy(&self, alloc: Global) -> Result<Named, AllocError>
        ensures { IfOk result (λ copy. copy ≡ self.now) }
    {
        Ok(Named {
            name: self.name.copy(alloc)?,
            description: copy_text(alloc, &self.description)?,
        })
    }
}

impl Variant {
    /// A variant equal to this one.
    #[cycle(copy)]
    pub fn copy(&self, alloc: Global) -> Result<Variant, AllocError>
        ensures { IfOk result (λ copy. copy ≡ self.now) }
    {
        Ok(Variant {
            name: self.name.copy(alloc)?,
            description: copy_text(alloc, &self.description)?,
            payload: match &self.payload {
                Some(payload) => Some(payload.copy(alloc)?),
                None => None,
            },
        })
    }
}

impl TaggedVariant {
    /// A variant equal to this one.
    #[cycle(copy)]
    pub fn copy(&self, alloc: Global) -> Result<TaggedVariant, AllocError>
        ensures { IfOk result (λ copy. copy ≡ self.now) }
    {
        Ok(TaggedVariant {
            name: self.name.copy(alloc)?,
            description: copy_text(alloc, &self.description)?,
            fields: copy_fields(alloc, self.fields.as_slice())?,
        })
    }
}

impl Field {
    /// A field equal to this one.
    #[cycle(copy)]
    pub fn copy(&self, alloc: Global) -> Result<Field, AllocError>
        ensures { IfOk result (λ copy. copy ≡ self.now) }
    {
        let name = self.name.copy(alloc)?;
        let description = copy_text(alloc, &self.description)?;
        let presence = self.presence.copy(alloc)?;
        let desc = self.desc.copy(alloc)?;
        Ok(Field {
            name,
            desc,
            presence,
            description,
        })
    }
}

impl Presence {
    /// A presence equal to this one.
    pub fn copy(&self, alloc: Global) -> Result<Presence, AllocError>
        ensures { IfOk result (λ copy. copy ≡ self.now) }
    {
        match self {
            Presence::Required => Ok(Presence::Required),
            Presence::Nullable => Ok(Presence::Nullable),
            Presence::Skipped => Ok(Presence::Skipped),
            Presence::Default(tree) => Ok(Presence::Default(tree.copy(alloc)?)),
        }
    }
}

fn copy_names(alloc: Global, names: &[Named]) -> Result<List<Named>, AllocError>
    ensures { IfOk result (λ copies. copies ≡ names.now) }
{
    let mut copies = List::new(alloc);
    for name in names {
        copies.push(name.copy(alloc)?)?;
    }
    Ok(copies)
}

#[cycle(copy)]
fn copy_variants(alloc: Global, variants: &[Variant]) -> Result<List<Variant>, AllocError>
    ensures { IfOk result (λ copies. copies ≡ variants.now) }
{
    let mut copies = List::new(alloc);
    for variant in variants {
        copies.push(variant.copy(alloc)?)?;
    }
    Ok(copies)
}

#[cycle(copy)]
fn copy_tagged(alloc: Global, variants: &[TaggedVariant]) -> Result<List<TaggedVariant>, AllocError>
    ensures { IfOk result (λ copies. copies ≡ variants.now) }
{
    let mut copies = List::new(alloc);
    for variant in variants {
        copies.push(variant.copy(alloc)?)?;
    }
    Ok(copies)
}

#[cycle(copy)]
fn copy_fields(alloc: Global, fields: &[Field]) -> Result<List<Field>, AllocError>
    ensures { IfOk result (λ copies. copies ≡ fields.now) }
{
    let mut copies = List::new(alloc);
    for field in fields {
        copies.push(field.copy(alloc)?)?;
    }
    Ok(copies)
}

#[cycle(copy)]
fn copy_descs(alloc: Global, descs: &[Desc]) -> Result<List<Desc>, AllocError>
    ensures { IfOk result (λ copies. copies ≡ descs.now) }
{
    let mut copies = List::new(alloc);
    for desc in descs {
        copies.push(desc.copy(alloc)?)?;
    }
    Ok(copies)
}

fn copy_int(kind: IntKind, min: &Option<i128>, max: &Option<i128>) -> Desc
    ensures { result ≡ Desc.Int kind min.now max.now }
{
    Desc::Int {
        kind,
        min: *min,
        max: *max,
    }
}
