//! What is true of endpoints that were registered one behind the other.
ghost use Rattle.std.specs.Prelude.{◌≡◌, [], ℕ, Contains, List as ListOf, Some};
ghost use Rattle.semver.specs.Parse.{Parts};
ghost use Rattle.api_declarations.specs.Serving.{Serves, endpoint_for};
ghost use Rattle.api_declarations.specs.Values.{DeclarationValue};
ghost use Rattle.api_registration.specs.Accepted.{WereAccepted};

/// Of endpoints that were accepted one alone serves a method and a template at a version: the first
/// that is found is each that serves it.
pub fn one_serves()
    ensures { (es : ListOf DeclarationValue) (version : Parts) (method template : ListOf ℕ)
        → WereAccepted [] es → (e : DeclarationValue) → Contains es e
        → Serves version method template e
        → endpoint_for (λ e. e) version method template es ≡ Some e }
{}
