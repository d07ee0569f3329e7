//! An index from the hash of a key to the places of the rows whose keys have it.
ghost use Rattle.std.specs.Prelude.{◌≡◌, ◌==◌, ◌∷◌, ◌++◌, [], ℕ, if◌then◌else◌, IfOk, OnErr, OnOk};
ghost use Rattle.mit_keyed.specs.Indexes.{without_last, places_of};

use indexmap::IndexMap;
use smallvec::SmallVec;
use std::alloc::{AllocError, Global};
use std::marker::Model;

/// Places of rows in a list, which contracts see as their list. One alone takes no memory of its own.
#[derive(Debug, Drop)]
pub struct Places {
    places: SmallVec<usize, 1>,
}

impl Model for Places {
    ghost use Rattle.std.specs.Prelude.{List, ℕ};

    ghost Value = { List ℕ };

    ghost view = { λ p. p.places.items };
}

impl Places {
    /// One place.
    fn one(alloc: Global, place: usize) -> Result<Places, AllocError>
        ensures { IfOk result (λ places. places ≡ place ∷ []) }
    {
        Ok(Places {
            places: SmallVec::from_slice(alloc, &[place])?,
        })
    }

    /// Adds a place.
    fn push(&mut self, place: usize) -> Result<(), AllocError>
        ensures ok { OnOk result (self.new ≡ self.old ++ place ∷ []) }
        ensures err { OnErr result (self.new ≡ self.old) }
    {
        self.places.push(place)?;
        Ok(())
    }

    /// Takes the last place away.
    fn pop(&mut self)
        ensures { self.new ≡ without_last self.old }
    {
        self.places.pop();
    }

    /// The places, in the order in which they came.
    fn as_slice(&self) -> &[usize]
        ensures { result.now ≡ self.now }
    {
        self.places.as_slice()
    }
}

/// The places of rows, by the hash of their keys.
#[derive(Debug, Drop)]
pub struct Index {
    places: IndexMap<u64, Places>,
}

impl Index {
    /// No places.
    pub fn new(alloc: Global) -> Index
        ensures { (hash : ℕ) → places_of result hash ≡ [] }
    {
        Index {
            places: IndexMap::new(alloc),
        }
    }

    /// Adds a place after those of a hash.
    pub fn note(&mut self, alloc: Global, hash: u64, place: usize) -> Result<(), AllocError>
        ensures ok { OnOk result ((other : ℕ) → places_of self.new other
            ≡ (if other == hash then places_of self.old hash ++ place ∷ [] else places_of self.old other)) }
        ensures err { OnErr result ((other : ℕ) → places_of self.new other ≡ places_of self.old other) }
    {
        match self.places.get_mut(&hash) {
            Some(places) => places.push(place),
            None => {
                self.places.insert(hash, Places::one(alloc, place)?)?;
                Ok(())
            }
        }
    }

    /// Takes the last place of a hash away.
    pub fn forget(&mut self, hash: u64)
        ensures { (other : ℕ) → places_of self.new other
            ≡ (if other == hash then without_last (places_of self.old hash) else places_of self.old other) }
    {
        if let Some(places) = self.places.get_mut(&hash) {
            places.pop();
        }
    }

    /// The places of a hash, in the order in which they came.
    pub(crate) fn places(&self, hash: u64) -> &[usize]
        ensures { result.now ≡ places_of self.now hash }
    {
        match self.places.get(&hash) {
            Some(places) => places.as_slice(),
            None => &[],
        }
    }
}
