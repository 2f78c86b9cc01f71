ghost use Rattle.std.specs.Prelude.{◌≡◌, ◌↔◌, IsTrue};
ghost use Rattle.schema_values.specs.Same.{same_json};

use crate::json_value::{Json, Member};

impl Json {
    /// Whether two values are equal, with their members in the same order. Takes no memory.
    pub fn equals(&self, other: &Json) -> bool
        ensures equal { IsTrue result ↔ (self.now ≡ other.now) }
        ensures same { result ≡ same_json self.now other.now }
    {
        self == other
    }
}

impl Member {
    /// Whether two members have the same name and equal values. Takes no memory.
    pub fn equals(&self, other: &Member) -> bool
        ensures { IsTrue result ↔ (self.now ≡ other.now) }
    {
        self == other
    }
}
