ghost use Rattle.std.specs.Prelude.{◌≡◌, IfOk};

use crate::leaf_copy::copy_texts;
use crate::list::List;
use crate::text::Text;
use std::alloc::{AllocError, Global};
use std::collections::BTreeMap;

/// What a variable of a path stands for: one component, or the components that are left of the path.
#[derive(Drop)]
pub enum VariableValue {
    /// One component of the path.
    String(Text),
    /// The components that are left of the path, in their order.
    Components(List<Text>),
}

/// The variables of a path, by names.
pub type VariableSet = BTreeMap<Text, VariableValue>;

impl VariableValue {
    /// A value equal to this one.
    pub fn copy(&self, alloc: Global) -> Result<VariableValue, AllocError>
        ensures { IfOk result (λ copy. copy ≡ self.now) }
    {
        match self {
            VariableValue::String(text) => Ok(VariableValue::String(text.copy(alloc)?)),
            VariableValue::Components(texts) => {
                let copies = copy_texts(alloc, texts.as_slice())?;
                Ok(VariableValue::Components(copies))
            }
        }
    }
}

/// Variables of the same names and values.
pub fn copy_variables(alloc: Global, variables: &VariableSet) -> Result<VariableSet, AllocError>
    ensures { IfOk result (λ copies. copies.entries ≡ variables.now.entries) }
{
    let mut copies = BTreeMap::new(alloc);
    for (name, value) in variables.iter() {
        copies.insert(name.copy(alloc)?, value.copy(alloc)?)?;
    }
    Ok(copies)
}
