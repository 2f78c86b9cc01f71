//! What is defined as a relation has one answer at most, and what is accepted.

ghost use Rattle.std.specs.Prelude.{◌≡◌, ◌↔◌, ℕ, Bool, List, Option, None, Result};
ghost use Rattle.schema_values.specs.declared.schema.Schema.{Schema};
ghost use Rattle.schema_util.specs.References.{Unresolved, ComesTo, Names};
ghost use Rattle.schema_util.specs.Scalars.{Asked, Fault, FirstFault, FirstFaultOfList, IsOf};
ghost use Rattle.schema_util.specs.StructMembers.{Gives, Misfit};
ghost use Rattle.schema_util.specs.declared.struct_members.StructMember.{StructMember};

/// A schema comes to one end along references.
pub fn comes_to_once()
    ensures { (names : Names) (met : List (List ℕ)) (schema : Schema)
        (end other : Result Schema Unresolved)
        → ComesTo names met schema end → ComesTo names met schema other → end ≡ other }
{}

/// A schema has one first fault under a type test, or none.
pub fn first_fault_once()
    ensures { (asked : Asked) (names : Names) (met : List (List ℕ)) (schema : Schema)
        (fault other : Option Fault)
        → FirstFault asked names met schema fault
        → FirstFault asked names met schema other → fault ≡ other }
{}

/// A schema has no fault under a type test exactly where it is one of what is asked for.
pub fn accepted_exactly()
    ensures { (asked : Asked) (names : Names) (met : List (List ℕ)) (schema : Schema)
        → (FirstFault asked names met schema None) ↔ (IsOf asked names met schema) }
{}

/// A schema has one first fault as one of lists of texts, or none.
pub fn list_fault_once()
    ensures { (names : Names) (schema : Schema) (fault other : Option Fault)
        → FirstFaultOfList names schema fault → FirstFaultOfList names schema other → fault ≡ other }
{}

/// A schema gives one list of members, or one reason why it gives none.
pub fn gives_once()
    ensures { (names : Names) (met : List (List ℕ)) (required : Bool) (schema : Schema)
        (end other : Result (List StructMember) Misfit)
        → Gives names met required schema end → Gives names met required schema other → end ≡ other }
{}
