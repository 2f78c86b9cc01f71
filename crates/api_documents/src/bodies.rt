// The body that an operation takes.
ghost use Rattle.std.specs.Prelude.{◌≡◌, IfOk, IsTrue, OnOk, ◌++◌, ◌∷◌, []};
ghost use Rattle.schema_values.specs.Ascii.{all_ascii};
ghost use Rattle.typed_values.specs.Checks.{TablePasses};
ghost use Rattle.typed_values.specs.SchemaTable.{schema_json_titled};
ghost use Rattle.endpoint_metadata.specs.Shown.{binary_body, binary_schema, body_documented};
ghost use Rattle.api_documents.specs.Bodies.{body_of, media, text_member};

use handler_shapes::Slot;
use openapi_values::{MediaType, RequestBody};
use request_parts::ApiEndpointBodyContentType;
use schema_values::{Json, List, Member, Text};
use std::alloc::{AllocError, Global};
use typed_values::{Desc, DescTable};
use written_schemas::titled_schema;

/// The body of an operation: that of its first slot of a body.
pub(crate) fn body_of(
    alloc: Global,
    kind: ApiEndpointBodyContentType,
    table: &DescTable,
    slots: &[Slot],
) -> Result<Option<RequestBody>, AllocError>
    requires { TablePasses table.now }
    ensures { IfOk result (λ body. body ≡ body_of kind table.now slots.now) }
{
    for slot in slots {
        if let Some(body) = slot_body(alloc, kind, table, slot)? {
            return Ok(Some(body));
        }
    }
    Ok(None)
}

fn slot_body(
    alloc: Global,
    kind: ApiEndpointBodyContentType,
    table: &DescTable,
    slot: &Slot,
) -> Result<Option<RequestBody>, AllocError>
    requires { TablePasses table.now }
    ensures { IfOk result (λ body. body ≡ body_documented kind table.now slot.now) }
{
    match slot {
        Slot::TypedBody(desc, name) => {
            let content = content(alloc, kind.mime_type(), table, desc, name)?;
            Ok(Some(required(content)))
        }
        Slot::RawBody | Slot::StreamBody => Ok(Some(binary_body(alloc)?)),
        Slot::Path(_) | Slot::Query(_) | Slot::Header(_) | Slot::PagedQuery { .. } => Ok(None),
    }
}

fn required(content: List<(Text, MediaType)>) -> RequestBody
    ensures content { result.content ≡ content }
    ensures required { IsTrue result.required }
{
    RequestBody {
        content,
        required: true,
    }
}

// A body of any bytes.
fn binary_body(alloc: Global) -> Result<RequestBody, AllocError>
    ensures { IfOk result (λ body. body ≡ binary_body) }
{
    let schema = binary_schema(alloc)?;
    Ok(required(media(alloc, "application/octet-stream", schema)?))
}

fn binary_schema(alloc: Global) -> Result<Json, AllocError>
    ensures { IfOk result (λ schema. schema ≡ binary_schema) }
{
    let mut members = List::new(alloc);
    push_word(alloc, &mut members, "type", "string")?;
    push_word(alloc, &mut members, "format", "binary")?;
    Ok(Json::Object(members))
}

fn push_word(
    alloc: Global,
    members: &mut List<Member>,
    name: &str,
    word: &str,
) -> Result<(), AllocError>
    requires name { IsTrue (all_ascii name.now) }
    requires word { IsTrue (all_ascii word.now) }
    ensures { OnOk result (members.new ≡ members.old ++ text_member name.now word.now ∷ []) }
{
    let name = Text::from_ascii(alloc, name)?;
    let value = Json::Text(Text::from_ascii(alloc, word)?);
    members.push(Member { name, value })
}

/// A schema under one media type.
pub(crate) fn media(
    alloc: Global,
    media_type: &str,
    schema: Json,
) -> Result<List<(Text, MediaType)>, AllocError>
    requires { IsTrue (all_ascii media_type.now) }
    ensures { IfOk result (λ content. content ≡ media media_type.now schema) }
{
    let media_type = Text::from_ascii(alloc, media_type)?;
    let mut content = List::new(alloc);
    content.push((media_type, MediaType { schema }))?;
    Ok(content)
}

/// The schema of a type, with its name as title, under one media type.
pub(crate) fn content(
    alloc: Global,
    media_type: &str,
    table: &DescTable,
    desc: &Desc,
    name: &Text,
) -> Result<List<(Text, MediaType)>, AllocError>
    requires ascii { IsTrue (all_ascii media_type.now) }
    requires table { TablePasses table.now }
    ensures { IfOk result (λ content. content ≡ media media_type.now
        (schema_json_titled table.now name.now desc.now)) }
{
    let schema = titled_schema(alloc, table, desc, name)?;
    media(alloc, media_type, schema)
}
