//! Templates of paths.
ghost use Rattle.std.specs.Prelude.{◌≡◌, ◌↔◌, ◌++◌, IfOk, IsTrue, OnOk, bytes_eq, find, map};
ghost use Rattle.std.specs.Prelude.{option_map};
ghost use Rattle.std.specs.Str.{chars};
ghost use Rattle.schema_values.specs.SoundTest.{are_distinct};
ghost use Rattle.path_templates.specs.Segments.{segments_of, wildcard_of};
ghost use Rattle.path_templates.specs.Shapes.{nameless, shape_of};
ghost use Rattle.path_templates.specs.Templates.{IsReadAs, behind_slashes, is_wildcard};
ghost use Rattle.path_templates.specs.Templates.{names_of, trimmed};
ghost use Rattle.path_templates.specs.Variables.{VariablesMatch};

use crate::characters::characters;
use crate::segment::PathSegment;
use crate::segments::segments_trimmed;
use crate::variables::{all_given, all_named};
use schema_values::{List, Text, VariableSet};
use std::alloc::{AllocError, Global};
use std::marker::Model;

/// The path without one slash at its end; a slash alone stays.
pub fn without_trailing_slash(path: &Text) -> &str
    ensures { chars result.now ≡ trimmed path.now }
{
    without_slash(path.as_str())
}

// The same of bytes.
fn without_slash(path: &str) -> &str
    ensures { result.now ≡ trimmed path.now }
{
    if path == "/" {
        return path;
    }
    match path.strip_suffix('/') {
        Some(front) => front,
        None => path,
    }
}

/// Whether two paths are one template, where one slash at the end of each is dropped.
pub fn same_template(path: &Text, other: &Text) -> bool
    ensures { result ≡ bytes_eq (trimmed path.now) (trimmed other.now) }
{
    same_text(without_trailing_slash(path), without_trailing_slash(other))
}

fn same_text(text: &str, other: &str) -> bool
    ensures { result ≡ bytes_eq (chars text.now) (chars other.now) }
{
    text == other
}

/// The template of a path: a slash alone, or segments that each stand behind a slash. A segment is
/// a literal, a variable `{name}`, or as the last one a wildcard `{name:.*}`. Contracts see the
/// list of its segments.
#[derive(Drop)]
pub struct Template {
    segments: List<PathSegment>,
}

impl Model for Template {
    ghost use Rattle.std.specs.Prelude.{IsTrue, List as ListOf};
    ghost use Rattle.schema_values.specs.SoundTest.{are_distinct};
    ghost use Rattle.path_templates.specs.Templates.{names_of};
    ghost use Rattle.path_templates.specs.declared.segment.PathSegment.{PathSegment as Segment};

    ghost Value = { ListOf Segment };

    ghost view = { λ template. template.segments };

    ghost invariant = { λ template. IsTrue (are_distinct (names_of template.segments)) };
}

impl Template {
    /// The template of a path, where one slash at its end is dropped. `None` exactly where the path
    /// is no template.
    pub fn parse(alloc: Global, path: &Text) -> Result<Option<Template>, AllocError>
        ensures segments { IfOk result (λ found. found ≡ segments_of path.now) }
        ensures spelled { IfOk result (IsReadAs path.now) }
    {
        let characters = characters(alloc, without_trailing_slash(path))?;
        match segments_trimmed(alloc, characters.as_slice())? {
            Some(segments) => Ok(Some(Template { segments })),
            None => Ok(None),
        }
    }

    /// The segments, in order.
    pub fn segments(&self) -> &[PathSegment]
        ensures { result.now ≡ self.now }
    {
        self.segments.as_slice()
    }

    /// The names of the variables, in order. No two are one.
    pub fn variable_names(&self, alloc: Global) -> Result<List<Text>, AllocError>
        ensures names { IfOk result (λ names. names ≡ names_of self.now) }
        ensures distinct { IfOk result (λ names. IsTrue (are_distinct names)) }
    {
        let mut names = List::new(alloc);
        for segment in self.segments.as_slice() {
            if let Some(name) = segment.variable_name() {
                names.push(name.copy(alloc)?)?;
            }
        }
        Ok(names)
    }

    /// The name of the wildcard, if there is one.
    pub fn wildcard(&self) -> Option<&Text>
        ensures { option_map (λ name. name.now) result ≡ wildcard_of self.now }
    {
        match first_wildcard(self.segments()) {
            Some(segment) => segment.variable_name(),
            None => None,
        }
    }

    /// The text of the template, where each variable is replaced by the sign `{}`.
    pub fn shape(&self, alloc: Global) -> Result<Text, AllocError>
        ensures { IfOk result (λ shape. shape ≡ shape_of self.now) }
    {
        let mut shape = Text::new(alloc);
        if self.segments.is_empty() {
            shape.push_ascii("/")?;
        } else {
            push_shape(self.segments(), &mut shape)?;
        }
        Ok(shape)
    }

    /// Whether the variables of a request are those of the template: exactly its names, one text
    /// for a variable, and components for a wildcard.
    pub fn variables_match(&self, variables: &VariableSet) -> bool
        ensures { IsTrue result ↔ VariablesMatch self.now variables.now.entries }
    {
        all_given(self.segments(), variables) && all_named(self.segments(), variables)
    }

    /// A template equal to this one.
    pub fn copy(&self, alloc: Global) -> Result<Template, AllocError>
        ensures { IfOk result (λ copy. copy ≡ self.now) }
    {
        let mut segments = List::new(alloc);
        for segment in self.segments.as_slice() {
            segments.push(segment.copy(alloc)?)?;
        }
        Ok(Template { segments })
    }
}

// Puts the texts of segments at the end of another, each behind a slash, with a sign in place of a
// variable.
fn push_shape(segments: &[PathSegment], shape: &mut Text) -> Result<(), AllocError>
    ensures { OnOk result
        (shape.new ≡ shape.old ++ behind_slashes (map nameless segments.now)) }
{
    for segment in segments {
        shape.push_ascii("/")?;
        segment.push_nameless(shape)?;
    }
    Ok(())
}

// The first wildcard among segments.
fn first_wildcard(segments: &[PathSegment]) -> Option<&PathSegment>
    ensures { option_map (λ segment. segment.now) result ≡ find is_wildcard segments.now }
{
    segments.iter().find(|segment| segment.is_wildcard())
}
