//! Whether an endpoint serves a request, and whether a document lists it.
ghost use Rattle.std.specs.Prelude.{◌≡◌, ◌↔◌, IsTrue};
ghost use Rattle.semver.specs.Identifiers.{parts_of};
ghost use Rattle.api_versions.specs.Shown.{range_of};
ghost use Rattle.api_declarations.specs.Serving.{Serves, holds, is_listed, serves};

use crate::declaration::Declaration;
use api_versions::ApiEndpointVersions;
use http::Method;
use path_templates::same_template;
use schema_values::Text;
use semver::Version;

/// Whether a range holds a version.
pub fn holds(versions: &ApiEndpointVersions, version: &Version) -> bool
    ensures { result ≡ holds (range_of versions.now) (parts_of version.now) }
{
    versions.matches(Some(version))
}

impl Declaration<'_> {
    /// Whether the endpoint serves a method and a template at a version. One slash at the end of a
    /// template is dropped.
    pub fn serves(&self, version: &Version, method: &Method, template: &Text) -> bool
        ensures test { result ≡ serves (parts_of version.now) method.now template.now self.now }
        ensures decided { IsTrue result
            ↔ Serves (parts_of version.now) method.now template.now self.now }
    {
        self.method == method && same_template(self.path, template) && holds(self.versions, version)
    }

    /// Whether the document of a version lists the endpoint: it is visible, and its range holds the version.
    pub fn is_listed(&self, version: &Version) -> bool
        ensures { result ≡ is_listed (parts_of version.now) self.now }
    {
        self.visible && holds(self.versions, version)
    }
}
