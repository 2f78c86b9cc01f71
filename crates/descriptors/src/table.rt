ghost use Rattle.std.specs.Prelude.{◌≡◌, ◌≤◌, ◌↔◌, [], length, map, Some, None, IsNone, IfSome, IfOk, IfErr};
ghost use Rattle.std.specs.Prelude.{◌<◌, Ok, OnErr, IfNone, IsTrue, slice_get, vec_len, vec_capacity};
ghost use Rattle.std.specs.Option.{option_copied};
ghost use Rattle.std.specs.Str.{chars};
ghost use Rattle.schema_values.specs.Sound.{AreDistinct};
ghost use Rattle.descriptors.specs.Definitions.{definition, definition_with, entry_of, definition_name};
ghost use Rattle.descriptors.specs.Adding.{Adds, IsRefused};
ghost use Rattle.descriptors.specs.Index.{IsTable};
ghost use Rattle.descriptors.specs.NewNames.{IsNewName};

use crate::desc::Desc;
use crate::index::search_places;
use schema_values::{List, Text, copy_text};
use std::alloc::{AllocError, Global};
use std::marker::Model;

/// A named descriptor.
#[derive(Drop, PartialEq, Eq)]
pub struct Definition {
    /// The name by which references mean it.
    pub name: Text,
    /// What a document says of it.
    pub description: Option<Text>,
    /// The descriptor.
    pub desc: Desc,
}

/// Definitions by name, in order of insertion. No two have one name.
#[derive(Drop)]
pub struct DescTable {
    definitions: List<Definition>,
    /// The places of the definitions in the order of their names.
    places: Vec<usize>,
    alloc: Global,
}

/// What `add` found.
#[derive(Clone, Copy, Debug, PartialEq, Eq)]
pub enum Added {
    /// The name stood for nothing.
    New,
    /// The name stands there with the same descriptor and description.
    Same,
}

/// Why a definition was not added.
#[derive(Debug, Drop, PartialEq, Eq)]
pub enum AddError {
    /// The name stands there with another descriptor or description.
    Clash(Text),
    /// There was not enough memory.
    OutOfMemory,
}

impl AddError {
    /// An error equal to this one.
    pub fn copy(&self, alloc: Global) -> Result<AddError, AllocError>
        ensures { IfOk result (λ copy. copy ≡ self.now) }
    {
        match self {
            AddError::Clash(name) => Ok(AddError::Clash(name.copy(alloc)?)),
            AddError::OutOfMemory => Ok(AddError::OutOfMemory),
        }
    }
}

impl From<AllocError> for AddError {
    ghost use Rattle.std.specs.Prelude.{◌≡◌};
    ghost use Rattle.descriptors.specs.declared.table.AddError.TheVariants.{OutOfMemory};

    ghost from_gives = { λ _ e. e ≡ OutOfMemory };

    fn from(_: AllocError) -> AddError {
        AddError::OutOfMemory
    }
}

impl Model for DescTable {
    ghost use Rattle.std.specs.Prelude.{List};
    ghost use Rattle.std.specs.Coded.{coded_list};
    ghost use Rattle.descriptors.specs.Index.{IsTable};
    ghost use Rattle.descriptors.specs.declared.table.Definition.{Definition};
    ghost use Rattle.descriptors.specs.contracts.table.Definition as stored;

    ghost Value = { List Definition };

    ghost coded = { coded_list stored.the_row.coded };

    ghost view = { λ table. table.definitions };

    ghost invariant = { λ table. IsTable table.definitions table.places.items };
}

impl Definition {
    /// A definition equal to this one.
    pub fn copy(&self, alloc: Global) -> Result<Definition, AllocError>
        ensures { IfOk result (λ copy. copy ≡ self.now) }
    {
        Ok(Definition {
            name: self.name.copy(alloc)?,
            description: copy_text(alloc, &self.description)?,
            desc: self.desc.copy(alloc)?,
        })
    }

    /// Whether two definitions have the same name, description and descriptor.
    pub fn equals(&self, other: &Definition) -> bool
        ensures { IsTrue result ↔ (self.now ≡ other.now) }
    {
        self == other
    }

    fn says(&self, description: &Option<Text>, desc: &Desc) -> bool
        ensures { IsTrue result ↔ (self.now ≡ definition_with self.now.name description.now desc.now) }
    {
        self.description == *description && self.desc == *desc
    }
}

impl DescTable {
    /// A table without definitions.
    pub fn new(alloc: Global) -> DescTable
        ensures { result ≡ [] }
    {
        DescTable {
            definitions: List::new(alloc),
            places: Vec::new(alloc),
            alloc,
        }
    }

    /// The number of definitions.
    pub fn len(&self) -> usize
        ensures { result ≡ length self.now }
    {
        self.definitions.len()
    }

    /// Whether there is no definition.
    pub fn is_empty(&self) -> bool
        ensures { IsTrue result ↔ (length self.now ≡ 0) }
    {
        self.definitions.len() == 0
    }

    /// The definitions in order of insertion.
    pub fn definitions(&self) -> &[Definition]
        ensures items { result.now ≡ self.now }
        ensures distinct { AreDistinct (map definition_name self.now) }
    {
        self.definitions.as_slice()
    }

    /// The name, the description and the descriptor of the definition at a place in order of insertion.
    pub fn entry(&self, place: usize) -> Option<(&Text, Option<&Text>, &Desc)>
        ensures found { IfSome result (λ entry.
            slice_get self.now place ≡ Some (definition_with entry.0.now
            (option_copied entry.1) entry.2.now)) }
        ensures past { IsNone result ↔ (length self.now ≤ place) }
    {
        match self.definitions().get(place) {
            Some(entry) => Some((&entry.name, entry.description.as_ref(), &entry.desc)),
            None => None,
        }
    }

    /// The descriptor that a name is defined as.
    pub fn get(&self, name: &str) -> Option<&Desc>
        ensures { option_copied result ≡ definition self.now (chars name.now) }
    {
        match self.entry_named(name) {
            Some(entry) => Some(&entry.desc),
            None => None,
        }
    }

    /// The descriptor that a name is defined as, for a name that is a text.
    pub fn find(&self, name: &Text) -> Option<&Desc>
        ensures { option_copied result ≡ definition self.now name.now }
    {
        self.get(name.as_str())
    }

    /// The definition of a name.
    pub fn entry_named(&self, name: &str) -> Option<&Definition>
        ensures { option_copied result ≡ entry_of self.now (chars name.now) }
    {
        match search_places(self.definitions.as_slice(), self.places.as_slice(), name) {
            Ok(entry) => Some(entry),
            Err(_) => None,
        }
    }

    /// Adds a descriptor by a name, with no description.
    pub fn add(&mut self, name: &str, desc: Desc) -> Result<Added, AddError>
        ensures added { IfOk result (Adds self.old self.new (definition_with (chars name.now) None desc)) }
        ensures same { entry_of self.old (chars name.now) ≡ Some (definition_with (chars name.now) None desc)
            → result ≡ Ok Added.Same }
        ensures refused { IfErr result (IsRefused self.old (definition_with (chars name.now) None desc)) }
        ensures err { OnErr result (self.new ≡ self.old) }
    {
        self.add_described(name, None, desc)
    }

    /// Adds a descriptor by a name. Memory is taken for a new name, and to tell the name that clashes.
    pub fn add_described(
        &mut self,
        name: &str,
        description: Option<Text>,
        desc: Desc,
    ) -> Result<Added, AddError>
        ensures added { IfOk result (Adds self.old self.new
            (definition_with (chars name.now) description desc)) }
        ensures same { entry_of self.old (chars name.now) ≡ Some
            (definition_with (chars name.now) description desc)
            → result ≡ Ok Added.Same }
        ensures refused { IfErr result (IsRefused self.old
            (definition_with (chars name.now) description desc)) }
        ensures err { OnErr result (self.new ≡ self.old) }
    {
        let definitions = self.definitions.as_slice();
        let place = definitions.len();
        let places = &mut self.places;
        let found = new_name_for(self.alloc, definitions, places, name, &description, &desc)?;
        let Some(fresh) = found else {
            return Ok(Added::Same);
        };
        let definition = Definition {
            name: fresh.name,
            description,
            desc,
        };
        self.definitions.push(definition)?;
        match self.places.insert(fresh.gap, place) {
            Ok(()) => Ok(Added::New),
            Err(_) => unreachable!(),
        }
    }

    /// A table of the same definitions.
    pub fn copy(&self, alloc: Global) -> Result<DescTable, AllocError>
        ensures { IfOk result (λ copy. copy ≡ self.now) }
    {
        let mut definitions = List::new(alloc);
        for definition in self.definitions() {
            definitions.push(definition.copy(alloc)?)?;
        }
        Ok(DescTable {
            definitions,
            places: Vec::from_slice(alloc, self.places.as_slice())?,
            alloc,
        })
    }
}

/// A new name, and the gap into which its place goes.
#[derive(Drop)]
struct NewName {
    name: Text,
    gap: usize,
}

/// The new name of a definition, with room for its place. There is none where the definition stands there
/// already.
fn new_name_for(
    alloc: Global,
    definitions: &[Definition],
    places: &mut Vec<usize>,
    name: &str,
    description: &Option<Text>,
    desc: &Desc,
) -> Result<Option<NewName>, AddError>
    requires { IsTable definitions.now places.old.items }
    ensures kept { places.new.items ≡ places.old.items }
    ensures fresh { IfOk result (λ fresh. IfSome fresh
        (IsNewName definitions.now places.new.items (chars name.now))) }
    ensures room { IfOk result (λ fresh. IfSome fresh
        (λ s. vec_len places.new < vec_capacity places.new)) }
    ensures there { IfOk result (λ fresh. IfNone fresh (entry_of definitions.now (chars name.now) ≡ Some
        (definition_with (chars name.now) description.now desc.now))) }
    ensures same { entry_of definitions.now (chars name.now) ≡ Some
        (definition_with (chars name.now) description.now desc.now)
        → result ≡ Ok None }
    ensures refused { IfErr result (IsRefused definitions.now
        (definition_with (chars name.now) description.now desc.now)) }
{
    match search_places(definitions, places.as_slice(), name) {
        Ok(entry) => {
            if entry.says(description, desc) {
                Ok(None)
            } else {
                Err(AddError::Clash(Text::from_str(alloc, name)?))
            }
        }
        Err(gap) => {
            let name = Text::from_str(alloc, name)?;
            places.reserve(1)?;
            Ok(Some(NewName { name, gap }))
        }
    }
}
