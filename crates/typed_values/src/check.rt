ghost use Rattle.std.specs.Prelude.{◌≡◌, ◌↔◌, false, IsTrue, IsOk, IfErr, IfSome, IfNone, MatchBool};
ghost use Rattle.std.specs.Prelude.{Contains, map};
ghost use Rattle.schema_values.specs.Sound.{AreDistinct};
ghost use Rattle.typed_values.specs.declared.check.TableError.TheVariants.{BadPresence, BadRange};
ghost use Rattle.descriptors.specs.declared.table.Definition.{Definition};
ghost use Rattle.typed_values.specs.Causes.{AppliesToDesc, AppliesToTable, IsFirst, IsFirstOnCycle};
ghost use Rattle.typed_values.specs.Checks as checks;
ghost use Rattle.typed_values.specs.Checks.{IsName, TablePasses, DescPasses};
ghost use Rattle.descriptors.specs.Definitions.{definition_name};
ghost use Rattle.typed_values.specs.Guarded.{IsGuarded};
ghost use Rattle.typed_values.specs.Lengths.{HasShortLengths, TableHasShortLengths};

use crate::parts::applies;
use crate::search::lies_on_cycle;
use descriptors::{Definition, Desc, DescTable};
use schema_values::Text;

/// What is wrong with a table or a descriptor.
#[derive(Clone, Copy, Debug, PartialEq, Eq)]
pub enum TableError<'a> {
    /// Two fields, two names of an enumeration or two variants of one name.
    DoubledName,
    /// The name of a definition is empty or has another character than letters, digits, `.`, `-` and `_`.
    BadName,
    /// A reference without a definition.
    Dangling,
    /// References, options and alternatives alone lead from this definition back to it.
    Unguarded(&'a str),
    /// No alternatives, no names, no variants, or no payload in an external enumeration.
    EmptyEnumeration,
    /// An option over a descriptor that takes null.
    NullOfNull,
    /// A field of a tagged variant that is named as the tag.
    TagClash,
    /// A least bound above the greatest, an integer's bound outside its kind, or more than 2^32 names,
    /// variants or alternatives. A length has 32 bits by its type.
    BadRange,
    /// `Nullable` over no option, `Skipped` over a descriptor that takes null, or a `Default` that does not
    /// fit.
    BadPresence,
}

/// Whether a table may be used: the first error that applies, in the order in which they are listed.
/// Takes no memory.
pub fn check_table(table: &DescTable) -> Result<(), TableError<'_>>
    ensures ok { IsOk result ↔ TablePasses table.now }
    ensures first { IfErr result (IsFirst (AppliesToTable table.now)) }
    ensures lengths { IsOk result → TableHasShortLengths table.now }
{
    if applies_somewhere(TableError::DoubledName, table) {
        return Err(TableError::DoubledName);
    }
    if !are_names_right(table) {
        return Err(TableError::BadName);
    }
    if applies_somewhere(TableError::Dangling, table) {
        return Err(TableError::Dangling);
    }
    if let Some(definition) = first_on_cycle(table) {
        return Err(TableError::Unguarded(definition.name.as_str()));
    }
    if applies_somewhere(TableError::EmptyEnumeration, table) {
        return Err(TableError::EmptyEnumeration);
    }
    if applies_somewhere(TableError::NullOfNull, table) {
        return Err(TableError::NullOfNull);
    }
    if applies_somewhere(TableError::TagClash, table) {
        return Err(TableError::TagClash);
    }
    if applies_somewhere(TableError::BadRange, table) {
        return Err(TableError::BadRange);
    }
    if applies_somewhere(TableError::BadPresence, table) {
        return Err(TableError::BadPresence);
    }
    Ok(())
}

/// Whether a descriptor may be used with a table that passes its check, in the same way.
pub fn check_desc<'a>(table: &'a DescTable, desc: &'a Desc) -> Result<(), TableError<'a>>
    requires { TablePasses table.now }
    ensures ok { IsOk result ↔ DescPasses table.now desc.now }
    ensures first { IfErr result (IsFirst (AppliesToDesc table.now desc.now)) }
    ensures lengths { IsOk result → HasShortLengths desc.now }
{
    if applies(TableError::DoubledName, table, desc) {
        return Err(TableError::DoubledName);
    }
    if applies(TableError::Dangling, table, desc) {
        return Err(TableError::Dangling);
    }
    if applies(TableError::EmptyEnumeration, table, desc) {
        return Err(TableError::EmptyEnumeration);
    }
    if applies(TableError::NullOfNull, table, desc) {
        return Err(TableError::NullOfNull);
    }
    if applies(TableError::TagClash, table, desc) {
        return Err(TableError::TagClash);
    }
    if applies(TableError::BadRange, table, desc) {
        return Err(TableError::BadRange);
    }
    if applies(TableError::BadPresence, table, desc) {
        return Err(TableError::BadPresence);
    }
    Ok(())
}

fn applies_somewhere(error: TableError, table: &DescTable) -> bool
    requires { error ≡ BadPresence → IsGuarded table.now }
    ensures told { IsTrue result ↔
        ((e : Definition) × Contains table.now e × AppliesToDesc table.now e.desc error.entry) }
    ensures lengths { error.entry ≡ BadRange → result ≡ false → TableHasShortLengths table.now }
{
    for definition in table.definitions() {
        if applies(error, table, &definition.desc) {
            return true;
        }
    }
    false
}

fn first_on_cycle(table: &DescTable) -> Option<&Definition>
    ensures guarded { IfNone result (IsGuarded table.now) }
    ensures cycle { IfSome result (λ e. IsFirstOnCycle table.now e.now) }
{
    for definition in table.definitions() {
        if lies_on_cycle(table, definition) {
            return Some(definition);
        }
    }
    None
}

fn are_names_right(table: &DescTable) -> bool
    ensures distinct { AreDistinct (map definition_name table.now) }
    ensures names { MatchBool result
        ((e : Definition) → Contains table.now e → IsName e.name)
        (AppliesToTable table.now TableError.BadName) }
{
    for definition in table.definitions() {
        if !is_name(&definition.name) {
            return false;
        }
    }
    true
}

fn is_name(name: &Text) -> bool
    ensures { IsTrue result ↔ IsName name.now }
{
    !name.equals_str("")
        && name
            .as_str()
            .chars()
            .all(|character| is_name_character(character))
}

fn is_name_character(character: char) -> bool
    ensures { result ≡ checks.is_name_character character }
{
    matches!(character, 'a'..='z' | 'A'..='Z' | '0'..='9' | '.' | '-' | '_')
}
