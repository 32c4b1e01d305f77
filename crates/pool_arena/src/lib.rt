//! Values under serial numbers, each found at once however many there are. A value stays in its slot until it is taken
//! out, and the slot then serves the next one. No hash is used: a number is found by its last bits, and where others
//! that are held share these by the bits before them. So numbers in a row are found in one step, and whoever chooses
//! numbers to be a burden can make it 64 steps at most.
#![tactic(auto)]

ghost use Rattle.std.specs.Prelude.{◌≡◌, ◌≤◌, ◌+◌, IsOk, IsTrue, OnOk, OnErr, Some, None, option_copied, IsSome};
ghost use Rattle.std.specs.Option.{option_copied_mut};
ghost use Rattle.std.specs.Ordering.{nat_cmp};
ghost use Rattle.std.specs.FinMap as map;
ghost use Rattle.std.specs.Borrow.{sem};

use slab::Slab;
use std::alloc::{AllocError, Global};
use std::fmt;
use std::marker::Model;

mod node;
mod places;
#[cfg(test)]
mod tests;

use places::Places;

/// Values, each under a key of its own. Contracts see a finite map from keys to values, and spare: so many more values
/// can be added without taking memory. Only `reserve` takes memory.
#[derive(Drop)]
pub struct Arena<T> {
    slots: Slab<T>,
    /// The slot of each key.
    places: Places,
}

impl<T> Model for Arena<T> {
    ghost use Rattle.pool_arena.specs.Arena.{Held, held_code, held, IsKept};

    ghost Value = { Held T };

    ghost coded = { held_code T.code };

    ghost view = { λ a. held a.places a.slots };

    ghost invariant = { λ a. IsKept a.places a.slots };
}

impl<T> Arena<T> {
    ghost use Rattle.pool_arena.specs.Arena.{get};
    ghost use Rattle.pool_arena.specs.Lends.{lends_get};

    /// No values.
    pub fn new(alloc: Global) -> Self
        ensures empty { result.pairs ≡ map.empty }
        ensures spare { result.spare ≡ 0 }
    {
        Arena {
            slots: Slab::new(alloc),
            places: Places::new(alloc),
        }
    }

    /// Takes memory for so many more values. If memory runs out, the values are as they were.
    pub fn reserve(&mut self, n: usize) -> Result<(), AllocError>
        ensures pairs { self.new.pairs ≡ self.old.pairs }
        ensures spare { self.old.spare ≤ self.new.spare }
        ensures room { OnOk result (n ≤ self.new.spare) }
    {
        self.slots.reserve(n)?;
        self.places.reserve(n, self.slots.len())
    }

    /// Adds a value under a key that isn't held.
    pub fn add(&mut self, key: u64, value: T)
        requires vacant { get self.old key ≡ None }
        requires room { 1 ≤ self.old.spare }
        ensures pairs { self.new.pairs ≡ map.insert self.old.pairs key value }
        ensures spare { self.old.spare ≤ self.new.spare + 1 }
    {
        let slot = self.slots.insert_reserved(value);
        self.places.insert(key, slot);
    }

    /// The value of a key. None exactly where it isn't held.
    #[inline]
    pub fn get(&self, key: u64) -> Option<&T>
        ensures { option_copied result ≡ get self.now key }
    {
        // Many an arena is empty all the time: then no number is looked up.
        if self.len() == 0 {
            return None;
        }
        self.find(key)
    }

    /// The same, where something may be held.
    fn find(&self, key: u64) -> Option<&T>
        ensures { option_copied result ≡ get self.now key }
    {
        match self.places.get(key) {
            Some(slot) => self.slots.get(slot),
            None => None,
        }
    }

    /// The value of a key, to be changed. None exactly where it isn't held.
    pub fn get_mut(&mut self, key: u64) -> Option<&mut T>
        ensures* writes_back { sem 𝓛 (lends_get T.row self.entry key result) }
        ensures value { option_copied_mut result ≡ get self.old key }
    {
        match self.places.get(key) {
            Some(slot) => self.slots.get_mut(slot),
            None => None,
        }
    }

    /// Takes the value of a key out, which isn't held from then on. None exactly where it wasn't held.
    #[inline]
    pub fn take(&mut self, key: u64) -> Option<T>
        ensures value { result ≡ get self.old key }
        ensures pairs { self.new.pairs ≡ map.remove self.old.pairs key }
        ensures spare { self.old.spare ≤ self.new.spare }
    {
        if self.len() == 0 {
            return None;
        }
        self.take_out(key)
    }

    /// The same, where something may be held.
    fn take_out(&mut self, key: u64) -> Option<T>
        ensures value { result ≡ get self.old key }
        ensures pairs { self.new.pairs ≡ map.remove self.old.pairs key }
        ensures spare { self.old.spare ≤ self.new.spare }
    {
        match self.places.remove(key) {
            Some(slot) => self.slots.try_remove(slot),
            None => None,
        }
    }

    /// How many values there are.
    pub fn len(&self) -> usize
        ensures { result ≡ map.len self.now.pairs }
    {
        self.slots.len()
    }
}

impl<T> fmt::Debug for Arena<T> {
    fn fmt<W: fmt::Write>(&self, f: &mut fmt::Formatter<W>) -> fmt::Result {
        f.debug_struct("Arena").field("len", &self.len()).finish()
    }
}
