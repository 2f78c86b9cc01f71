//! The places of things in a list, by their keys.
ghost use Rattle.std.specs.Prelude.{◌≡◌, ◌-◌, [], OnErr, OnOk, List as ListOf, ℕ, length, take};
ghost use Rattle.path_templates.specs.Places.{places_at, with_place, with_places, without_last, without_lasts};

use schema_values::{List, Text};
use std::alloc::{AllocError, Global};
use std::collections::BTreeMap;

/// The places of things in a list, by texts that are their keys. What stands at a key is found in
/// time logarithmic in the number of keys.
#[derive(Drop)]
pub struct PlaceIndex {
    places: BTreeMap<Text, List<usize>>,
}

impl PlaceIndex {
    /// No places. Takes no memory yet.
    pub fn new(alloc: Global) -> PlaceIndex
        ensures { (key : ListOf ℕ) → places_at result key ≡ [] }
    {
        PlaceIndex {
            places: BTreeMap::new(alloc),
        }
    }

    /// The places at a key, in the order in which they were added.
    pub fn at(&self, key: &Text) -> &[usize]
        ensures { result.now ≡ places_at self.now key.now }
    {
        match self.places.get(key) {
            Some(places) => places.as_slice(),
            None => &[],
        }
    }

    /// Adds a place at a key. After want of memory each key has the places of before.
    pub fn add(&mut self, alloc: Global, key: Text, place: usize) -> Result<(), AllocError>
        ensures ok { OnOk result ((q : ListOf ℕ)
            → places_at self.new q ≡ with_place (places_at self.old) key place q) }
        ensures err { OnErr result ((q : ListOf ℕ)
            → places_at self.new q ≡ places_at self.old q) }
    {
        match self.places.get_mut(&key) {
            Some(places) => places.push(place),
            None => {
                let mut places = List::new(alloc);
                places.push(place)?;
                self.places.insert(key, places)?;
                Ok(())
            }
        }
    }

    /// Adds a place at each of some keys. After want of memory each key has the places of before.
    pub fn add_all(&mut self, alloc: Global, keys: &[Text], place: usize) -> Result<(), AllocError>
        ensures ok { OnOk result ((q : ListOf ℕ)
            → places_at self.new q ≡ with_places (places_at self.old) keys.now place q) }
        ensures err { OnErr result ((q : ListOf ℕ)
            → places_at self.new q ≡ places_at self.old q) }
    {
        for (index, key) in keys.iter().enumerate() {
            if let Err(error) = self.add_copy(alloc, key, place) {
                self.take_back(&keys[..index]);
                return Err(error);
            }
        }
        Ok(())
    }

    /// Takes back the place that was added last at each of some keys; at a key that has none, none.
    pub fn take_back(&mut self, keys: &[Text])
        ensures { (q : ListOf ℕ)
            → places_at self.new q ≡ without_lasts (places_at self.old) keys.now q }
    {
        let mut rest = keys;
        while let Some((key, others)) = rest.split_first() {
            self.take_last(key);
            rest = others;
        }
    }

    // Adds a place at a copy of a key.
    fn add_copy(&mut self, alloc: Global, key: &Text, place: usize) -> Result<(), AllocError>
        ensures ok { OnOk result ((q : ListOf ℕ)
            → places_at self.new q ≡ with_place (places_at self.old) key.now place q) }
        ensures err { OnErr result ((q : ListOf ℕ)
            → places_at self.new q ≡ places_at self.old q) }
    {
        let key = key.copy(alloc)?;
        self.add(alloc, key, place)
    }

    // Takes the last place at a key away, if there is one.
    fn take_last(&mut self, key: &Text)
        ensures { (q : ListOf ℕ)
            → places_at self.new q ≡ without_last (places_at self.old) key.now q }
    {
        if let Some(places) = self.places.get_mut(key) {
            drop_last(places);
        }
    }
}

fn drop_last(places: &mut List<usize>)
    ensures { places.new ≡ take (length places.old - 1) places.old }
{
    let count = places.len().saturating_sub(1);
    places.truncate(count);
}
