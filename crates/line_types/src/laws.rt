//! What the type of request lines says of them: its descriptor, its trees, and what lines ask for.
ghost use Rattle.std.specs.Prelude.{◌≡◌, ◌↔◌, IfOk, List, ℕ};
ghost use Rattle.semver.specs.Parse.{Parts};
ghost use Rattle.http_bodies.specs.declared.frame.Frame.{Frame};
ghost use Rattle.request_parts.specs.Requests.{Request};
ghost use Rattle.request_lines.specs.RequestLines.{AreMade, AsksFor, HasMembers};
ghost use Rattle.request_lines.specs.RequestLines.{members_desc, members_tree};
ghost use Rattle.line_types.specs.LineTypes.{line_members};
ghost use Rattle.line_types.specs.declared.request_line.RequestLine.{RequestLine as LineValue};

use crate::request_line::RequestLine;
use api_types::ApiType;
use std::alloc::{AllocError, Global};
use typed_values::{Desc, Tree};

/// The descriptor of the type, which is that of the members of a line. Fails only for want of memory.
pub fn request_line_descriptor(alloc: Global) -> Result<Desc, AllocError>
    ensures { IfOk result (λ desc. desc ≡ members_desc) }
{
    RequestLine::descriptor(alloc)
}

/// The tree of a value, which is that of its members. Fails only for want of memory.
pub fn request_line_tree(alloc: Global, line: &RequestLine) -> Result<Tree, AllocError>
    ensures { IfOk result (λ tree. tree ≡ members_tree (line_members line.now)) }
{
    line.to_tree(alloc)
}

/// A line asks for what is made of the members of a value that it denotes, and for nothing else. It does nothing: its
/// clause is for proofs.
pub fn lines_are_values()
    ensures { (version : Parts) (line : List ℕ) (request : Request) (frames : List Frame)
        → AsksFor version line request frames
        ↔ ((value : LineValue) × HasMembers line (line_members value)
        × AreMade version (line_members value) request frames) }
{}
