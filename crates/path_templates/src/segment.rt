//! Segments of templates.
ghost use Rattle.std.specs.Prelude.{◌≡◌, ◌++◌, IfOk, OnOk, option_map};
ghost use Rattle.path_templates.specs.Shapes.{nameless};
ghost use Rattle.path_templates.specs.Templates.{has_name, is_wildcard, name_in, segment_text};

use schema_values::Text;
use std::alloc::{AllocError, Global};

/// A segment of a template: what stands behind one of its slashes.
#[derive(Drop)]
pub enum PathSegment {
    /// A text that stands in the path as it is. `Template::parse` gives none that is empty or has a
    /// slash or a brace.
    Literal(Text),
    /// A variable of this name, which stands for one component of a path.
    VarnameSegment(Text),
    /// A variable of this name at the end, which stands for all that is left of a path.
    VarnameWildcard(Text),
}

impl PathSegment {
    /// The name of a variable. A literal has none.
    pub fn variable_name(&self) -> Option<&Text>
        ensures { option_map (λ name. name.now) result ≡ name_in self.now }
    {
        match self {
            PathSegment::Literal(_) => None,
            PathSegment::VarnameSegment(name) => Some(name),
            PathSegment::VarnameWildcard(name) => Some(name),
        }
    }

    /// Whether the segment is a variable of this name.
    pub fn has_name(&self, name: &Text) -> bool
        ensures { result ≡ has_name name.now self.now }
    {
        match self.variable_name() {
            Some(own) => name == own,
            None => false,
        }
    }

    /// Whether the segment stands for all that is left of a path.
    pub fn is_wildcard(&self) -> bool
        ensures { result ≡ is_wildcard self.now }
    {
        match self {
            PathSegment::Literal(_) | PathSegment::VarnameSegment(_) => false,
            PathSegment::VarnameWildcard(_) => true,
        }
    }

    /// A segment equal to this one.
    pub fn copy(&self, alloc: Global) -> Result<PathSegment, AllocError>
        ensures { IfOk result (λ copy. copy ≡ self.now) }
    {
        match self {
            PathSegment::Literal(text) => Ok(PathSegment::Literal(text.copy(alloc)?)),
            PathSegment::VarnameSegment(name) => Ok(PathSegment::VarnameSegment(name.copy(alloc)?)),
            PathSegment::VarnameWildcard(name) => {
                Ok(PathSegment::VarnameWildcard(name.copy(alloc)?))
            }
        }
    }

    // Puts the text of the segment at the end of another, with a sign in place of a variable.
    pub(crate) fn push_nameless(&self, text: &mut Text) -> Result<(), AllocError>
        ensures { OnOk result (text.new ≡ text.old ++ segment_text (nameless self.now)) }
    {
        match self {
            PathSegment::Literal(literal) => text.push_text(literal),
            PathSegment::VarnameSegment(_) | PathSegment::VarnameWildcard(_) => {
                text.push_ascii("{}")
            }
        }
    }
}
