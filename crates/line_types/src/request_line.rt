//! Request lines.
ghost use Rattle.std.specs.Prelude.{◌≡◌, ◌∷◌, [], codes, true, IfOk, IsTrue};
ghost use Rattle.schema_values.specs.Ascii.{all_ascii};
ghost use Rattle.descriptors.specs.declared.tree.Tree.TheVariants as trees;
ghost use Rattle.api_types.specs.Heads.{required, struct_of, with_default, with_field};

use crate::frame::LineFrame;
use crate::header::LineHeader;
use crate::variable::LineVariable;
use api_types::{ApiStruct, ApiType, FieldHead, StructHead};
use schema_values::{List, Text};
use std::alloc::{AllocError, Global};
use std::collections::BTreeMap;
use typed_values::Tree;

/// What a request line holds. Its JSON may have other names, which are ignored.
#[derive(Drop)]
pub struct RequestLine {
    /// The method.
    pub method: Text,
    /// The template of the path.
    pub template: Text,
    /// The id of the request.
    pub request_id: Text,
    /// The target, `/` where none is given.
    pub uri: Text,
    /// What the variables of the path stand for, none where none are given.
    pub variables: BTreeMap<Text, LineVariable>,
    /// The header lines, none where none are given.
    pub headers: List<LineHeader>,
    /// The frames of the body, none where none are given.
    pub frames: List<LineFrame>,
}

impl ApiStruct for RequestLine {
    type Fields = (
        Text,
        (
            Text,
            (
                Text,
                (
                    Text,
                    (
                        BTreeMap<Text, LineVariable>,
                        (List<LineHeader>, (List<LineFrame>, ())),
                    ),
                ),
            ),
        ),
    );

    ghost struct_name = { codes "RequestLine" };

    ghost is_in_place = { true };

    ghost head_of = { struct_of (required (codes "method") ∷ required (codes "template")
        ∷ required (codes "request_id")
        ∷ with_default (codes "uri") (trees.Text (codes "/"))
        ∷ with_default (codes "variables") (trees.Map [])
        ∷ with_default (codes "headers") (trees.List [])
        ∷ with_default (codes "frames") (trees.List []) ∷ []) };

    ghost fields_of = { λ line. (
      line.method,
      (
        line.template,
        (
          line.request_id,
          (
            line.uri,
            (line.variables, (line.headers, (line.frames, tt))),
          ),
        ),
      ),
    ) };

    fn name() -> &'static str {
        "RequestLine"
    }

    fn in_place() -> bool {
        true
    }

    fn head(alloc: Global) -> Result<StructHead, AllocError> {
        let head = StructHead::new(alloc)
            .required(alloc, "method")?
            .required(alloc, "template")?
            .required(alloc, "request_id")?;
        let head = with_target(alloc, head)?;
        let head = defaulted(alloc, head, "variables", Tree::Map(List::new(alloc)))?;
        let head = defaulted(alloc, head, "headers", Tree::List(List::new(alloc)))?;
        defaulted(alloc, head, "frames", Tree::List(List::new(alloc)))
    }

    fn trees(&self, alloc: Global) -> Result<List<Tree>, AllocError> {
        let mut trees = List::new(alloc);
        trees.push(self.method.to_tree(alloc)?)?;
        trees.push(self.template.to_tree(alloc)?)?;
        trees.push(self.request_id.to_tree(alloc)?)?;
        trees.push(self.uri.to_tree(alloc)?)?;
        trees.push(self.variables.to_tree(alloc)?)?;
        trees.push(self.headers.to_tree(alloc)?)?;
        trees.push(self.frames.to_tree(alloc)?)?;
        Ok(trees)
    }

    fn each_fits(&self) {
        self.method.fits();
        self.template.fits();
        self.request_id.fits();
        self.uri.fits();
        self.variables.fits();
        self.headers.fits();
        self.frames.fits();
    }

    fn from_fields(
        (
            method,
            (template, (request_id, (uri, (variables, (headers, (frames, ())))))),
        ): Self::Fields,
    ) -> RequestLine {
        RequestLine {
            method,
            template,
            request_id,
            uri,
            variables,
            headers,
            frames,
        }
    }
}

// The struct with one more field, of the target: the root where it is absent.
fn with_target(alloc: Global, head: StructHead) -> Result<StructHead, AllocError>
    ensures { IfOk result (λ made. made
        ≡ with_field (with_default (codes "uri") (trees.Text (codes "/"))) head) }
{
    let root = Text::from_ascii(alloc, "/")?;
    defaulted(alloc, head, "uri", Tree::Text(root))
}

// The struct with one more field of this name, which has this tree where it is absent.
fn defaulted(
    alloc: Global,
    head: StructHead,
    name: &str,
    tree: Tree,
) -> Result<StructHead, AllocError>
    requires { IsTrue (all_ascii name.now) }
    ensures { IfOk result (λ made. made ≡ with_field (with_default name.now tree) head) }
{
    head.with(FieldHead::with_default(alloc, name, tree)?)
}
