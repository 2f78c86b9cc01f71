//! The body of an error's response: its JSON, and what it is in a document.
ghost use Rattle.std.specs.Prelude.{◌≡◌, [], ◌∷◌, ◌++◌, codes, IfOk, OnOk, IsTrue};
ghost use Rattle.schema_values.specs.Ascii.{all_ascii};
ghost use Rattle.schema_values.specs.declared.json_value.Json.{Text as Words};
ghost use Rattle.schema_values.specs.Member.{member};
ghost use Rattle.api_types.specs.Heads.{described_struct, required, skipped, struct_of};
ghost use Rattle.http_status.specs.ErrorBodies.{code_members, error_body_json, error_definition};

use api_types::{ApiStruct, ApiType, Skipped, StructHead, definition_of};
use schema_values::{Json, List, Member, Text, copy_text};
use std::alloc::{AllocError, Global};
use typed_values::{Definition, Tree};

/// The body of an error's response.
#[derive(Debug, Drop)]
pub struct HttpErrorResponseBody {
    /// The id of the request.
    pub request_id: Text,
    /// The code for programs, if there is one.
    pub error_code: Option<Text>,
    /// The message for the client.
    pub message: Text,
}

impl HttpErrorResponseBody {
    /// The body as JSON: its fields in order, without the code where there is none. Fails only for
    /// want of memory.
    pub fn to_json(self, alloc: Global) -> Result<Json, AllocError>
        ensures { IfOk result (λ json. json ≡ error_body_json self) }
    {
        let HttpErrorResponseBody {
            request_id,
            error_code,
            message,
        } = self;
        let mut members = List::new(alloc);
        push_text(alloc, &mut members, "request_id", request_id)?;
        push_code(alloc, &mut members, error_code)?;
        push_text(alloc, &mut members, "message", message)?;
        Ok(Json::Object(members))
    }

    /// A body equal to this one. Fails only for want of memory.
    pub fn copy(&self, alloc: Global) -> Result<HttpErrorResponseBody, AllocError>
        ensures { IfOk result (λ copy. copy ≡ self.now) }
    {
        Ok(HttpErrorResponseBody {
            request_id: self.request_id.copy(alloc)?,
            error_code: copy_text(alloc, &self.error_code)?,
            message: self.message.copy(alloc)?,
        })
    }
}

impl ApiStruct for HttpErrorResponseBody {
    type Fields = (Text, (Skipped<Text>, (Text, ())));

    ghost struct_name = { codes "Error" };

    ghost head_of = { described_struct (codes "Error information from a response.")
        (struct_of (required (codes "request_id") ∷ skipped (codes "error_code")
        ∷ required (codes "message") ∷ [])) };

    ghost fields_of = { λ body.
        (body.request_id, (record { value = body.error_code }, (body.message, tt))) };

    fn name() -> &'static str {
        "Error"
    }

    fn in_place() -> bool {
        false
    }

    fn head(alloc: Global) -> Result<StructHead, AllocError> {
        StructHead::new(alloc)
            .described(alloc, "Error information from a response.")?
            .required(alloc, "request_id")?
            .skipped(alloc, "error_code")?
            .required(alloc, "message")
    }

    fn trees(&self, alloc: Global) -> Result<List<Tree>, AllocError> {
        let mut trees = List::new(alloc);
        trees.push(self.request_id.to_tree(alloc)?)?;
        trees.push(self.error_code.to_tree(alloc)?)?;
        trees.push(self.message.to_tree(alloc)?)?;
        Ok(trees)
    }

    fn each_fits(&self) {
        self.request_id.fits();
        self.error_code.fits();
        self.message.fits();
    }

    fn from_fields(
        (request_id, (error_code, (message, ()))): Self::Fields,
    ) -> HttpErrorResponseBody {
        HttpErrorResponseBody {
            request_id,
            error_code: error_code.value,
            message,
        }
    }
}

// Adds the member of a code where there is one.
fn push_code(
    alloc: Global,
    members: &mut List<Member>,
    code: Option<Text>,
) -> Result<(), AllocError>
    ensures { OnOk result (members.new ≡ members.old ++ code_members code) }
{
    match code {
        Some(code) => push_text(alloc, members, "error_code", code),
        None => Ok(()),
    }
}

// Adds a member of this name, which is ASCII, and this text.
fn push_text(
    alloc: Global,
    members: &mut List<Member>,
    name: &str,
    text: Text,
) -> Result<(), AllocError>
    requires { IsTrue (all_ascii name.now) }
    ensures { OnOk result (members.new ≡ members.old ++ member name.now (Words text) ∷ []) }
{
    let name = Text::from_ascii(alloc, name)?;
    members.push(Member {
        name,
        value: Json::Text(text),
    })
}

/// The definition of the body of errors: the request's id, a code where there is one, and a
/// message. Fails only for want of memory.
pub fn error_definition(alloc: Global) -> Result<Definition, AllocError>
    ensures { IfOk result (λ definition. definition ≡ error_definition) }
{
    definition_of::<HttpErrorResponseBody>(alloc)
}
