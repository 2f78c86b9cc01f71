//! Segments of paths, read piece by piece.
ghost use Rattle.std.specs.Prelude.{◌≡◌, ◌==◌, ◌&&◌, ◌∷◌, ◌<◌, IfOk, IfSome, length};
ghost use Rattle.std.specs.Prelude.{position};
ghost use Rattle.std.specs.List.{list_any};
ghost use Rattle.std.specs.Option.{option_copied};
ghost use Rattle.schema_values.specs.SoundTest.{are_distinct};
ghost use Rattle.path_templates.specs.Segments.{closed_by, if_arranged, literal_of, pieces};
ghost use Rattle.path_templates.specs.Segments.{pieces_left, segment_of, segments_behind};
ghost use Rattle.path_templates.specs.Segments.{segments_in, segments_trimmed, variable_of};
ghost use Rattle.path_templates.specs.Templates.{are_arranged, is_wildcard};
ghost use Rattle.path_templates.specs.Templates.{is_wildcard_last, names_of, slash};

use crate::characters::{is_literal, is_variable_name, name_length, text_of};
use crate::segment::PathSegment;
use crate::variables::is_named;
use schema_values::List;
use std::alloc::{AllocError, Global};

// The segments of a path without a slash at its end, if it is a template.
pub(crate) fn segments_trimmed(
    alloc: Global,
    path: &[char],
) -> Result<Option<List<PathSegment>>, AllocError>
    ensures { IfOk result (λ found. found ≡ segments_trimmed path.now) }
{
    match path.split_first() {
        Some((first, rest)) => {
            if *first == '/' {
                segments_behind(alloc, rest)
            } else {
                Ok(None)
            }
        }
        None => Ok(None),
    }
}

// The segments behind the first slash of a path, if it is a template.
fn segments_behind(alloc: Global, text: &[char]) -> Result<Option<List<PathSegment>>, AllocError>
    ensures { IfOk result (λ found. found ≡ segments_behind text.now) }
{
    if text.is_empty() {
        return Ok(Some(List::new(alloc)));
    }
    match segments_in(alloc, text)? {
        Some(segments) => Ok(if_arranged(segments)),
        None => Ok(None),
    }
}

// Some segments, if they may stand together.
fn if_arranged(segments: List<PathSegment>) -> Option<List<PathSegment>>
    ensures { result ≡ if_arranged segments }
{
    if are_arranged(segments.as_slice()) {
        Some(segments)
    } else {
        None
    }
}

// The segment of each piece between slashes, if each is one.
fn segments_in(alloc: Global, text: &[char]) -> Result<Option<List<PathSegment>>, AllocError>
    ensures { IfOk result (λ found. found ≡ segments_in (pieces text.now)) }
{
    let mut segments = List::new(alloc);
    let mut left = Some(text);
    'pieces: while let Some(text) = left {
        let (piece, rest) = first_piece(text);
        match segment_of(alloc, piece)? {
            Some(segment) => segments.push(segment)?,
            None => return Ok(None),
        }
        left = rest;
    }
    Ok(Some(segments))
}

// What stands before the first slash, and what stands behind it, if there is one.
fn first_piece(text: &[char]) -> (&[char], Option<&[char]>)
    ensures pieces { pieces text.now ≡ result.0.now ∷ pieces_left (option_copied result.1) }
    ensures shorter { IfSome result.1 (λ rest. length rest.now < length text.now) }
{
    match first_slash(text) {
        Some(end) => (&text[..end], Some(&text[end + 1..])),
        None => (text, None),
    }
}

// Where the first slash stands.
fn first_slash(text: &[char]) -> Option<usize>
    ensures { result ≡ position (λ c. c == slash) text.now }
{
    text.iter().position(|character| *character == '/')
}

// The segment of a piece, if it is one.
fn segment_of(alloc: Global, piece: &[char]) -> Result<Option<PathSegment>, AllocError>
    ensures { IfOk result (λ found. found ≡ segment_of piece.now) }
{
    match piece.split_first() {
        Some((first, rest)) => {
            if *first == '{' {
                variable_of(alloc, rest)
            } else {
                literal_of(alloc, piece)
            }
        }
        None => Ok(None),
    }
}

// The literal of a piece, if it is one.
fn literal_of(alloc: Global, piece: &[char]) -> Result<Option<PathSegment>, AllocError>
    ensures { IfOk result (λ found. found ≡ literal_of piece.now) }
{
    if is_literal(piece) {
        Ok(Some(PathSegment::Literal(text_of(alloc, piece)?)))
    } else {
        Ok(None)
    }
}

// The variable of what stands behind an opening brace, if it is one.
fn variable_of(alloc: Global, text: &[char]) -> Result<Option<PathSegment>, AllocError>
    ensures { IfOk result (λ found. found ≡ variable_of text.now) }
{
    let (name, ending) = text.split_at(name_length(text));
    if is_variable_name(name) {
        closed_by(alloc, name, ending)
    } else {
        Ok(None)
    }
}

// The variable of a name, by what stands behind the name.
fn closed_by(
    alloc: Global,
    name: &[char],
    ending: &[char],
) -> Result<Option<PathSegment>, AllocError>
    ensures { IfOk result (λ found. found ≡ closed_by name.now ending.now) }
{
    if ending == ['}'].as_slice() {
        Ok(Some(PathSegment::VarnameSegment(text_of(alloc, name)?)))
    } else if ending == [':', '.', '*', '}'].as_slice() {
        Ok(Some(PathSegment::VarnameWildcard(text_of(alloc, name)?)))
    } else {
        Ok(None)
    }
}

// Whether segments may stand together.
fn are_arranged(segments: &[PathSegment]) -> bool
    ensures { result ≡ are_arranged segments.now }
{
    is_wildcard_last(segments) && are_distinct(segments)
}

// Whether no segment but the last is a wildcard.
fn is_wildcard_last(segments: &[PathSegment]) -> bool
    ensures { result ≡ is_wildcard_last segments.now }
{
    match segments.split_last() {
        Some((_, front)) => !has_wildcard(front),
        None => true,
    }
}

fn has_wildcard(segments: &[PathSegment]) -> bool
    ensures { result ≡ list_any is_wildcard segments.now }
{
    segments.iter().any(|segment| segment.is_wildcard())
}

// Whether no two variables have one name.
fn are_distinct(segments: &[PathSegment]) -> bool
    ensures { result ≡ are_distinct (names_of segments.now) }
{
    let mut left = segments;
    'names: while let Some((first, rest)) = left.split_first() {
        if !is_new(first, rest) {
            return false;
        }
        left = rest;
    }
    true
}

// Whether no other segment has the name of a segment, if that has one.
fn is_new(segment: &PathSegment, others: &[PathSegment]) -> bool
    ensures { are_distinct (names_of (segment.now ∷ others.now))
        ≡ (result && are_distinct (names_of others.now)) }
{
    match segment.variable_name() {
        Some(name) => !is_named(others, name),
        None => true,
    }
}
