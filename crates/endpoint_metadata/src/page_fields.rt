//! The fields that pages have beside those of what they scan.
ghost use Rattle.std.specs.Prelude.{◌≡◌, ◌∷◌, Some, IfOk, IsTrue, map};
ghost use Rattle.schema_values.specs.Ascii.{all_ascii};
ghost use Rattle.schema_values.specs.Order.{sorted_by};
ghost use Rattle.descriptors.specs.Definitions.{field_name};
ghost use Rattle.descriptors.specs.declared.desc.Desc.{Option as OptionOf};
ghost use Rattle.descriptors.specs.declared.desc.Presence.TheVariants.{Nullable};
ghost use Rattle.written_texts.specs.PageParameters.{limit_field, token_field};

use schema_values::{Boxed, Text, sort_by_name};
use std::alloc::{AllocError, Global};
use typed_values::{Desc, Field, IntKind, Presence};

/// How many items a page has at most.
pub(crate) fn limit_field(alloc: Global) -> Result<Boxed<Field>, AllocError>
    ensures { IfOk result (λ field. field ≡ limit_field) }
{
    let text = "Maximum number of items returned by a single call";
    let count = Desc::Int {
        kind: IntKind::U32,
        min: Some(1),
        max: None,
    };
    optional_field(alloc, "limit", text, count)
}

/// Where the page before ended.
pub(crate) fn token_field(alloc: Global) -> Result<Boxed<Field>, AllocError>
    ensures { IfOk result (λ field. field ≡ token_field) }
{
    let text = "Token returned by previous call to retrieve the subsequent page";
    let token = Desc::Text {
        min: None,
        max: None,
        format: None,
    };
    optional_field(alloc, "page_token", text, token)
}

// A field that may be absent, or null.
fn optional_field(
    alloc: Global,
    name: &str,
    description: &str,
    desc: Desc,
) -> Result<Boxed<Field>, AllocError>
    requires name { IsTrue (all_ascii name.now) }
    requires description { IsTrue (all_ascii description.now) }
    ensures { IfOk result (λ field. field ≡ record {
      name = name.now;
      desc = OptionOf desc;
      presence = Nullable;
      description = Some description.now;
    }) }
{
    let desc = Boxed::new(alloc, desc)?;
    let name = Text::from_ascii(alloc, name)?;
    let description = Text::from_ascii(alloc, description)?;
    let field = Field {
        name,
        desc: Desc::Option(desc),
        presence: Presence::Nullable,
        description: Some(description),
    };
    Boxed::new(alloc, field)
}

/// Two fields and some more, in the order of their names.
pub(crate) fn with_more<'a>(
    alloc: Global,
    limit: &'a Field,
    token: &'a Field,
    more: &'a [Field],
) -> Result<Vec<&'a Field>, AllocError>
    ensures { IfOk result (λ fields. map (λ field. field.now) fields.items
        ≡ sorted_by field_name (limit.now ∷ token.now ∷ more.now)) }
{
    let mut fields = Vec::new(alloc);
    fields.push(limit)?;
    fields.push(token)?;
    for field in more {
        fields.push(field)?;
    }
    sort_by_name(&mut fields)?;
    Ok(fields)
}
