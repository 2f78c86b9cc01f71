//! What is true of templates.
ghost use Rattle.std.specs.Prelude.{◌≡◌, ◌↔◌, List, Some, ℕ};
ghost use Rattle.path_templates.specs.Segments.{segments_of};
ghost use Rattle.path_templates.specs.Templates.{IsTemplateOf};
ghost use Rattle.path_templates.specs.declared.segment.PathSegment.{PathSegment as Segment};

/// A path is the template of the segments that are read from it, and of no others.
pub fn templates_are_spelled()
    ensures { (path : List ℕ) (segments : List Segment)
        → (segments_of path ≡ Some segments) ↔ IsTemplateOf path segments }
{}
