//! What is found in header lines after they change.
ghost use Rattle.std.specs.Prelude.{◌≡◌, ◌++◌, ◌∷◌, [], ℕ, List, Some, false, true};
ghost use Rattle.std.specs.Prelude.{if◌then◌else◌};
ghost use Rattle.http_header.specs.FieldValue.{FieldValue};
ghost use Rattle.header_lists.specs.HeaderLists.{Line, extended, first_of, has_line, inserted};
ghost use Rattle.header_lists.specs.HeaderLists.{is_same_name, last_of, values_of};

/// After `insert` a name has the one value that was put there, which is its first and its last.
/// Every other name has the values that it had.
pub fn insert_leaves_one_value()
    ensures one { (name other : List ℕ) (value : FieldValue) (lines : List Line)
        → is_same_name name other ≡ true
        → values_of other (inserted name value lines) ≡ value ∷ [] }
    ensures others { (name other : List ℕ) (value : FieldValue) (lines : List Line)
        → is_same_name name other ≡ false
        → values_of other (inserted name value lines) ≡ values_of other lines }
    ensures first { (name other : List ℕ) (value : FieldValue) (lines : List Line)
        → is_same_name name other ≡ true
        → first_of other (inserted name value lines) ≡ Some value }
    ensures last { (name other : List ℕ) (value : FieldValue) (lines : List Line)
        → is_same_name name other ≡ true
        → last_of other (inserted name value lines) ≡ Some value }
{}

/// After `append` a name has the values that it had and behind them the one that was added, which
/// is its last, and its first where it had none. Every other name has the values that it had.
pub fn append_adds_a_value()
    ensures more { (name other : List ℕ) (value : FieldValue) (lines : List Line)
        → is_same_name name other ≡ true
        → values_of other (lines ++ (name, value) ∷ []) ≡ values_of other lines ++ value ∷ [] }
    ensures others { (name other : List ℕ) (value : FieldValue) (lines : List Line)
        → is_same_name name other ≡ false
        → values_of other (lines ++ (name, value) ∷ []) ≡ values_of other lines }
    ensures first { (name other : List ℕ) (value : FieldValue) (lines : List Line)
        → is_same_name name other ≡ true
        → first_of other (lines ++ (name, value) ∷ [])
        ≡ (if has_line other lines then first_of other lines else Some value) }
    ensures last { (name other : List ℕ) (value : FieldValue) (lines : List Line)
        → is_same_name name other ≡ true
        → last_of other (lines ++ (name, value) ∷ []) ≡ Some value }
{}

/// After `extend` a name of a line that was added has the values of those lines alone. Every other
/// name has the values that it had.
pub fn extend_replaces_values()
    ensures values { (name : List ℕ) (lines added : List Line)
        → values_of name (extended lines added)
        ≡ (if has_line name added then values_of name added else values_of name lines) }
    ensures first { (name : List ℕ) (lines added : List Line)
        → first_of name (extended lines added)
        ≡ (if has_line name added then first_of name added else first_of name lines) }
    ensures last { (name : List ℕ) (lines added : List Line)
        → last_of name (extended lines added)
        ≡ (if has_line name added then last_of name added else last_of name lines) }
{}
