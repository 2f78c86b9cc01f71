//! What is true of configurations.
ghost use Rattle.std.specs.Prelude.{◌≡◌};
ghost use Rattle.schema_values.specs.declared.json_value.Json.{Json};
ghost use Rattle.tag_config.specs.Configurations.{Configuration, DenotesConfiguration};

/// A JSON value denotes at most one configuration.
pub fn one_configuration()
    ensures { (json : Json) (config other : Configuration)
        → DenotesConfiguration json config → DenotesConfiguration json other → config ≡ other }
{}
