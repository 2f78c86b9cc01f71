//! Configurations as JSON.
ghost use Rattle.std.specs.Prelude.{◌≡◌, [], IfOk};
ghost use Rattle.schema_values.specs.Sound.{IsSound};
ghost use Rattle.api_types.specs.Types.{FitsEach};
ghost use Rattle.tag_config.specs.Configurations.{DenotesConfiguration, configuration_desc};
ghost use Rattle.tag_config.specs.Configurations.{configuration_json, configuration_tree};
ghost use Rattle.tag_config.specs.Configurations.{policy_field, tags_field};

use crate::config::TagConfig;
use crate::from_json::configuration_desc;
use api_types::ApiType;
use schema_values::{Json, List};
use std::alloc::{AllocError, Global};
use typed_values::{DescTable, Tree, encode_json};

impl TagConfig {
    /// The configuration as JSON, under the new names. It denotes this very configuration.
    pub fn to_json(&self, alloc: Global) -> Result<Json, AllocError>
        ensures json { IfOk result (λ json. json ≡ configuration_json self.now) }
        ensures sound { IfOk result IsSound }
        ensures reads_back { IfOk result (λ json. DenotesConfiguration json self.now) }
    {
        let desc = configuration_desc(alloc, "policy", "tags")?;
        self.each_fits();
        let tree = self.tree(alloc)?;
        encode_json(alloc, &DescTable::new(alloc), &desc, &tree)
    }

    // Does nothing. It shows that the tree of the configuration fits.
    fn each_fits(&self)
        ensures { FitsEach [] (configuration_desc policy_field.new tags_field.new)
            (configuration_tree self.now) }
    {
        self.allow_other_tags.fits();
        self.policy.fits();
        self.tags.fits();
    }

    // The tree of the configuration.
    fn tree(&self, alloc: Global) -> Result<Tree, AllocError>
        ensures { IfOk result (λ tree. tree ≡ configuration_tree self.now) }
    {
        let mut trees = List::new(alloc);
        trees.push(self.allow_other_tags.to_tree(alloc)?)?;
        trees.push(self.policy.to_tree(alloc)?)?;
        trees.push(self.tags.to_tree(alloc)?)?;
        Ok(Tree::Fields(trees))
    }
}
