//! The heaps of all contexts, each under the number of its context. That of the first context, which has the number 0,
//! stands in place, so that whoever needs no other one looks nothing up and takes no memory for it.
ghost use Rattle.std.specs.Prelude.{◌≡◌, ◌<◌, ◌≤◌, ◌-◌, ℕ, [], false, true, nat_eq, None, OnOk, is_some, length, option_copied, slice_get, vec_capacity, vec_len};
ghost use Rattle.std.specs.FinMap as map;
ghost use Rattle.timers.specs.Heaps.{CanEnter, CanLeave, IsAdded, IsEntered, IsLeft, dues_in, heap_of, is_open, items_of, room_in, room_of};

use crate::heap::{Place, enter, take_out};
use pool_arena::Arena;
use std::alloc::{AllocError, Global};
use tree_specs::Due;

/// The heaps of all contexts.
#[derive(Drop)]
pub(crate) struct Heaps {
    /// That of the first context.
    first: Vec<Due>,
    /// Those of the others, under the numbers of their contexts.
    others: Arena<Vec<Due>>,
}

/// Adds a time to the heap of a context that stands in the arena.
fn enter_other(others: &mut Arena<Vec<Due>>, places: &mut Arena<Place>, due: Due)
    requires room { 0 < room_of (map.get others.old.pairs due.context.0) }
    requires place { 0 < places.old.spare }
    requires can { CanEnter due (items_of (map.get others.old.pairs due.context.0)) places.old.pairs }
    ensures entered { IsEntered due (items_of (map.get others.old.pairs due.context.0)) (items_of (map.get others.new.pairs due.context.0)) places.old.pairs places.new.pairs }
    ensures open { is_some (map.get others.new.pairs due.context.0) ≡ is_some (map.get others.old.pairs due.context.0) }
    ensures beside { (d : ℕ) → nat_eq due.context.0 d ≡ false → map.get others.new.pairs d ≡ map.get others.old.pairs d }
    ensures spare { others.new.spare ≡ others.old.spare }
{
    if let Some(dues) = others.get_mut(due.context.0) {
        enter(dues, places, due);
    }
}

/// Takes a time out of the heap of a context that stands in the arena.
fn take_out_other(others: &mut Arena<Vec<Due>>, places: &mut Arena<Place>, place: Place)
    requires { CanLeave place (items_of (map.get others.old.pairs place.context)) places.old.pairs }
    ensures left { IsLeft place (items_of (map.get others.old.pairs place.context)) (items_of (map.get others.new.pairs place.context)) places.old.pairs places.new.pairs }
    ensures open { is_some (map.get others.new.pairs place.context) ≡ is_some (map.get others.old.pairs place.context) }
    ensures beside { (d : ℕ) → nat_eq place.context d ≡ false → map.get others.new.pairs d ≡ map.get others.old.pairs d }
    ensures room { room_of (map.get others.old.pairs place.context) ≤ room_of (map.get others.new.pairs place.context) }
    ensures spare { places.new.spare ≡ places.old.spare }
    ensures heaps_spare { others.new.spare ≡ others.old.spare }
{
    if let Some(dues) = others.get_mut(place.context) {
        take_out(dues, places, place);
    }
}

/// Makes room for one more time. A full heap doubles its room, so that one of a single time takes the memory of two.
fn make_room(dues: &mut Vec<Due>) -> Result<(), AllocError>
    ensures items { dues.new.items ≡ dues.old.items }
    ensures len { vec_len dues.new ≡ vec_len dues.old }
    ensures kept { vec_capacity dues.old ≤ vec_capacity dues.new }
    ensures room { OnOk result (vec_len dues.new < vec_capacity dues.new) }
{
    let len = dues.len();
    if len < dues.capacity() {
        return Ok(());
    }
    dues.reserve_exact(len.max(1))
}

/// Makes room for one more time in the heap of a context that may stand in the arena.
fn make_room_other(others: &mut Arena<Vec<Due>>, c: u64) -> Result<(), AllocError>
    ensures dues { (d : ℕ) → items_of (map.get others.new.pairs d) ≡ items_of (map.get others.old.pairs d) }
    ensures open { (d : ℕ) → is_some (map.get others.new.pairs d) ≡ is_some (map.get others.old.pairs d) }
    ensures kept { (d : ℕ) → room_of (map.get others.old.pairs d) ≤ room_of (map.get others.new.pairs d) }
    ensures room { OnOk result (is_some (map.get others.old.pairs c) ≡ true → 0 < room_of (map.get others.new.pairs c)) }
    ensures spare { others.new.spare ≡ others.old.spare }
{
    match others.get_mut(c) {
        None => Ok(()),
        Some(dues) => make_room(dues),
    }
}

impl Heaps {
    /// The heap of the first context alone, in which there is nothing.
    pub fn new(alloc: Global) -> Heaps
        ensures first { result.first.items ≡ [] }
        ensures others { result.others.pairs ≡ map.empty }
    {
        Heaps {
            first: Vec::new(alloc),
            others: Arena::new(alloc),
        }
    }

    /// The heap of a context. None exactly where there is no such context.
    fn get(&self, c: u64) -> Option<&Vec<Due>>
        ensures { option_copied result ≡ heap_of self.now c }
    {
        if c == 0 {
            return Some(&self.first);
        }
        self.others.get(c)
    }

    /// Whether there is a heap for a context.
    pub fn has(&self, c: u64) -> bool
        ensures { result ≡ is_open self.now c }
    {
        self.get(c).is_some()
    }

    /// The time at the top of the heap of a context. None exactly where there is none.
    pub fn top(&self, c: u64) -> Option<Due>
        ensures { result ≡ slice_get (dues_in self.now c) 0 }
    {
        Some(*self.get(c)?.first()?)
    }

    /// The time in the last place of the heap of a context. None exactly where there is none.
    #[inline(always)]
    pub fn last(&self, c: u64) -> Option<Due>
        ensures { result ≡ slice_get (dues_in self.now c) (length (dues_in self.now c) - 1) }
    {
        Some(*self.get(c)?.last()?)
    }

    /// How many times a context has.
    pub fn len(&self, c: u64) -> usize
        ensures { result ≡ length (dues_in self.now c) }
    {
        match self.get(c) {
            None => 0,
            Some(dues) => dues.len(),
        }
    }

    /// Adds a time to the heap of its context.
    pub fn enter(&mut self, places: &mut Arena<Place>, due: Due)
        requires room { 0 < room_in self.old due.context.0 }
        requires place { 0 < places.old.spare }
        requires can { CanEnter due (dues_in self.old due.context.0) places.old.pairs }
        ensures entered { IsEntered due (dues_in self.old due.context.0) (dues_in self.new due.context.0) places.old.pairs places.new.pairs }
        ensures open { is_open self.new due.context.0 ≡ is_open self.old due.context.0 }
        ensures beside { (d : ℕ) → nat_eq due.context.0 d ≡ false → heap_of self.new d ≡ heap_of self.old d }
        ensures heaps_spare { self.new.others.spare ≡ self.old.others.spare }
    {
        if due.context.0 == 0 {
            enter(&mut self.first, places, due);
        } else {
            enter_other(&mut self.others, places, due);
        }
    }

    /// Takes a time out of the heap of its context.
    pub fn take_out(&mut self, places: &mut Arena<Place>, place: Place)
        requires { CanLeave place (dues_in self.old place.context) places.old.pairs }
        ensures left { IsLeft place (dues_in self.old place.context) (dues_in self.new place.context) places.old.pairs places.new.pairs }
        ensures open { is_open self.new place.context ≡ is_open self.old place.context }
        ensures beside { (d : ℕ) → nat_eq place.context d ≡ false → heap_of self.new d ≡ heap_of self.old d }
        ensures room { room_in self.old place.context ≤ room_in self.new place.context }
        ensures spare { places.new.spare ≡ places.old.spare }
        ensures heaps_spare { self.new.others.spare ≡ self.old.others.spare }
    {
        if place.context == 0 {
            take_out(&mut self.first, places, place);
        } else {
            take_out_other(&mut self.others, places, place);
        }
    }

    /// Takes memory for one more time in the heap of a context, if there is one. If memory runs out, the heaps are as they
    /// were.
    pub fn reserve(&mut self, c: u64) -> Result<(), AllocError>
        ensures dues { (d : ℕ) → dues_in self.new d ≡ dues_in self.old d }
        ensures open { (d : ℕ) → is_open self.new d ≡ is_open self.old d }
        ensures kept { (d : ℕ) → room_in self.old d ≤ room_in self.new d }
        ensures room { OnOk result (is_open self.old c ≡ true → 0 < room_in self.new c) }
        ensures heaps_spare { self.new.others.spare ≡ self.old.others.spare }
    {
        if c == 0 {
            return make_room(&mut self.first);
        }
        make_room_other(&mut self.others, c)
    }

    /// Takes memory for one more heap, in which there is nothing. If memory runs out, the heaps are as they were.
    pub fn reserve_heap(&mut self) -> Result<(), AllocError>
        ensures first { self.new.first ≡ self.old.first }
        ensures others { self.new.others.pairs ≡ self.old.others.pairs }
        ensures spare { OnOk result (0 < self.new.others.spare) }
        ensures kept { self.old.others.spare ≤ self.new.others.spare }
    {
        self.others.reserve(1)
    }

    /// Adds the heap of a context. There is nothing in it, and no room yet.
    pub fn add(&mut self, c: u64)
        requires room { 0 < self.old.others.spare }
        requires vacant { heap_of self.old c ≡ None }
        ensures { IsAdded self.old self.new c }
    {
        let dues = Vec::new(*self.first.allocator());
        self.others.add(c, dues);
    }

    /// Drops the heap of a context. That of the first context stays.
    pub fn remove(&mut self, c: u64)
        ensures first { self.new.first ≡ self.old.first }
        ensures others { self.new.others.pairs ≡ map.remove self.old.others.pairs c }
        ensures spare { self.old.others.spare ≤ self.new.others.spare }
    {
        self.others.take(c);
    }
}
