ghost use Rattle.std.specs.Prelude.{◌≡◌, option_map};
ghost use Rattle.std.specs.Str.{chars};
ghost use Rattle.schema_values.specs.Get.{get_of, first_named};

use crate::json_value::{Json, Member};

impl Json {
    /// The value of the first member of this name. `None` exactly where this is no object, or has no such
    /// member.
    pub fn get(&self, name: &str) -> Option<&Json>
        ensures { option_map (λ json. json.now) result ≡ get_of (chars name.now) self.now }
    {
        match self {
            Json::Object(members) => member_value(members.as_slice(), name),
            _ => None,
        }
    }
}

fn member_value<'a>(members: &'a [Member], name: &str) -> Option<&'a Json>
    ensures { option_map (λ json. json.now) result ≡ first_named (chars name.now) members.now }
{
    for member in members {
        if member.name.equals_str(name) {
            return Some(&member.value);
        }
    }
    None
}
