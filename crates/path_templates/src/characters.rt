//! Characters in slices.
ghost use Rattle.std.specs.Prelude.{◌≡◌, IfOk};
ghost use Rattle.std.specs.List.{list_all};
ghost use Rattle.std.specs.Str.{chars};
ghost use Rattle.path_templates.specs.Segments.{name_length};
ghost use Rattle.path_templates.specs.Templates.{begins_name, continues_name, is_literal};
ghost use Rattle.path_templates.specs.Templates.{is_literal_character, is_variable_name};

use schema_values::Text;
use std::alloc::{AllocError, Global};

// The characters of a text.
pub(crate) fn characters(alloc: Global, text: &str) -> Result<Vec<char>, AllocError>
    ensures { IfOk result (λ characters. characters.items ≡ chars text.now) }
{
    let mut characters = Vec::new(alloc);
    for character in text.chars() {
        characters.push(character)?;
    }
    Ok(characters)
}

// The text of some characters.
pub(crate) fn text_of(alloc: Global, characters: &[char]) -> Result<Text, AllocError>
    ensures { IfOk result (λ text. text ≡ characters.now) }
{
    let mut text = Text::new(alloc);
    for character in characters {
        text.push(*character)?;
    }
    Ok(text)
}

// Whether a character may begin a name.
fn begins_name(character: char) -> bool
    ensures { result ≡ begins_name character }
{
    matches!(character, 'a'..='z' | 'A'..='Z' | '_')
}

// Whether a character may stand in a name behind the first one.
fn continues_name(character: char) -> bool
    ensures { result ≡ continues_name character }
{
    begins_name(character) || matches!(character, '0'..='9')
}

// How many characters at the front may stand in a name.
pub(crate) fn name_length(characters: &[char]) -> usize
    ensures { result ≡ name_length characters.now }
{
    characters
        .iter()
        .take_while(|character| continues_name(**character))
        .count()
}

// Whether some characters are the name of a variable.
pub(crate) fn is_variable_name(characters: &[char]) -> bool
    ensures { result ≡ is_variable_name characters.now }
{
    match characters.split_first() {
        Some((first, rest)) => { begins_name(*first) && all_continue(rest) }
        None => false,
    }
}

fn all_continue(characters: &[char]) -> bool
    ensures { result ≡ list_all continues_name characters.now }
{
    characters
        .iter()
        .all(|character| continues_name(*character))
}

fn all_literal(characters: &[char]) -> bool
    ensures { result ≡ list_all is_literal_character characters.now }
{
    characters
        .iter()
        .all(|character| is_literal_character(*character))
}

fn is_literal_character(character: char) -> bool
    ensures { result ≡ is_literal_character character }
{
    character != '/' && character != '{' && character != '}'
}

// Whether some characters may stand between slashes as they are.
pub(crate) fn is_literal(characters: &[char]) -> bool
    ensures { result ≡ is_literal characters.now }
{
    match characters.split_first() {
        Some((first, rest)) => is_literal_character(*first) && all_literal(rest),
        None => false,
    }
}
