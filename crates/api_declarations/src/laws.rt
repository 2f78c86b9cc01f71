//! What is true of look-up.
ghost use Rattle.std.specs.Prelude.{◌↔◌, IsTrue, List, ℕ};
ghost use Rattle.semver.specs.Parse.{Parts};
ghost use Rattle.api_versions.specs.Ranges.{Holds, VersionRange as Range};
ghost use Rattle.api_declarations.specs.Serving.{Serves, holds, serves};
ghost use Rattle.api_declarations.specs.Values.{DeclarationValue};

/// The test for a range that holds a version decides whether it does.
pub fn holds_decides()
    ensures { (range : Range) (version : Parts)
        → IsTrue (holds range version) ↔ Holds range version }
{}

/// The test for an endpoint that serves a request decides whether it does.
pub fn serves_decides()
    ensures { (version : Parts) (method template : List ℕ) (d : DeclarationValue)
        → IsTrue (serves version method template d) ↔ Serves version method template d }
{}
