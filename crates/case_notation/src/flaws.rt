//! The words for the flaws of tables and descriptors.
use typed_values::TableError;

/// The words for what is wrong.
pub fn flaw(error: &TableError<'_>) -> &'static str {
    match error {
        TableError::DoubledName => "doubled name",
        TableError::BadName => "bad name",
        TableError::Dangling => "dangling",
        TableError::Unguarded(_) => "unguarded",
        TableError::EmptyEnumeration => "empty enumeration",
        TableError::NullOfNull => "null of null",
        TableError::TagClash => "tag clash",
        TableError::BadRange => "bad range",
        TableError::BadPresence => "bad presence",
    }
}
