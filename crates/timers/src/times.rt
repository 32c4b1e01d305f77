//! `Times`: the objects whose time is to come, which are timers and requests with an end time, each in a context. The time
//! that comes first in a context is at hand; to set or to remove a time takes as many steps as the logarithm of how many
//! there are in its context.
//!
//! Contracts see one list of the times of all contexts, in the order of time and then of number. What is kept is a heap for
//! each context: read on in `heap.rt`.
ghost use Rattle.std.specs.Prelude.{◌≡◌};

use crate::change::Change;
use crate::heap::Place;
use crate::heaps::Heaps;
use http_server::Log;
use pool_arena::Arena;
use std::alloc::Global;
use std::marker::Model;
use tree_specs::{Due, Memory, Obj};

/// The objects whose time comes: timers, and requests with an end time. Contracts see the list of them with their contexts,
/// in the order of time and then number; the contexts that were added beside the first one, which always is there and has
/// the number 0; spare, which is 1 where one more can be added without taking memory, in whatever context; and for how many
/// more contexts there is memory. Only `reserve` and `reserve_context` take memory.
#[derive(Drop)]
pub struct Times {
    /// The times of each context.
    heaps: Heaps,
    /// The place of each time, under the number of its object.
    places: Arena<Place>,
    /// The context that was added, or in which a time was added, since memory was last taken. The heap of each other one has
    /// room for one more; where there is none, so have the places.
    filled: Option<u64>,
    /// What has become of them, and of the contexts. Only proofs read it, and it takes no memory.
    changes: Log<Change, ()>,
}

impl Model for Times {
    ghost use Rattle.timers.specs.Timetable.{Timetable};

    ghost Value = { Timetable };

    ghost use Rattle.timers.specs.Changes.{dues_of, contexts_of};
    ghost use Rattle.timers.specs.Heaps.{dues_in, is_open, room_in, spare_by, AreKept, HasRoom};

    ghost view = { λ t. record { dues = dues_of t.changes.items; contexts = contexts_of t.changes.items; spare = spare_by t.filled; contexts_spare = t.heaps.others.spare } };

    ghost invariant = { λ t. AreKept (dues_in t.heaps) (is_open t.heaps) t.places.pairs (dues_of t.changes.items) (contexts_of t.changes.items) × HasRoom (room_in t.heaps) (is_open t.heaps) t.places.spare t.filled };
}

impl Times {
    ghost use Rattle.std.specs.Prelude.{◌<◌, ◌≤◌, ◌↔◌, [], IfSome, IsTrue, OnOk, length, slice_get, drop, false, true};
    ghost use Rattle.tree_specs.specs.Events.Pending.{armed, disarmed, is_armed, is_numbered, put_in, times_in, times_without};
    ghost use Rattle.tree_specs.specs.Events.Contexts.{has_context, with_context, without_context};
    ghost use Rattle.timers.specs.Timetable.{AreInOrder, AreOnce, left_after};

    /// No times, and the first context is the only one.
    pub fn new(alloc: Global) -> Times
        ensures dues { result.dues ≡ [] }
        ensures contexts { result.contexts ≡ [] }
    {
        Times {
            heaps: Heaps::new(alloc),
            places: Arena::new(alloc),
            filled: Some(0),
            changes: Log::new(),
        }
    }

    /// Takes memory for one more time, in whatever context. If memory runs out, they are as they were.
    pub fn reserve(&mut self) -> Result<(), Memory>
        ensures dues { self.new.dues ≡ self.old.dues }
        ensures contexts { self.new.contexts ≡ self.old.contexts }
        ensures spare { OnOk result (0 < self.new.spare) }
        ensures kept { self.old.spare ≤ self.new.spare }
        ensures contexts_spare { self.new.contexts_spare ≡ self.old.contexts_spare }
    {
        if let Some(c) = self.filled {
            self.heaps.reserve(c)?;
            self.places.reserve(1)?;
            self.filled = None;
        }
        Ok(())
    }

    /// Takes memory for one more context. If memory runs out, all is as it was.
    pub fn reserve_context(&mut self) -> Result<(), Memory>
        ensures dues { self.new.dues ≡ self.old.dues }
        ensures contexts { self.new.contexts ≡ self.old.contexts }
        ensures spare { self.new.spare ≡ self.old.spare }
        ensures contexts_spare { OnOk result (0 < self.new.contexts_spare) }
        ensures kept { self.old.contexts_spare ≤ self.new.contexts_spare }
    {
        Ok(self.heaps.reserve_heap()?)
    }

    /// Adds a context, which has no times. One that is there stays as it is. It uses up the memory for one more time.
    pub fn add_context(&mut self, c: Obj)
        requires room { 0 < self.old.spare }
        requires context { 0 < self.old.contexts_spare }
        ensures dues { self.new.dues ≡ self.old.dues }
        ensures contexts { self.new.contexts ≡ with_context self.old.contexts c }
    {
        if self.heaps.has(c.0) {
            return;
        }
        self.heaps.add(c.0);
        self.filled = Some(c.0);
        self.changes = self.changes.and(&Change::Opens(c), &());
    }

    /// Adds the time of an object that has none.
    fn enter(&mut self, due: Due)
        requires room { 0 < self.old.spare }
        requires absent { is_armed self.old.dues due.object ≡ false }
        requires number { is_numbered self.old.dues due.number ≡ false }
        requires known { has_context self.old.contexts due.context ≡ true }
        ensures dues { self.new.dues ≡ put_in due self.old.dues }
        ensures contexts { self.new.contexts ≡ self.old.contexts }
        ensures contexts_spare { self.old.contexts_spare ≤ self.new.contexts_spare }
    {
        self.heaps.enter(&mut self.places, due);
        self.filled = Some(due.context.0);
        self.changes = self.changes.and(&Change::Enters(due), &());
    }

    /// Sets the time of an object in a context, in microseconds, in place of a time that it had, in whatever context. At
    /// equal times the smaller number comes first, and no other time has this number.
    pub fn arm(&mut self, x: Obj, time: u64, number: u64, c: Obj)
        requires room { 0 < self.old.spare }
        requires number { is_numbered (disarmed self.old.dues x) number ≡ false }
        requires known { has_context self.old.contexts c ≡ true }
        ensures dues { self.new.dues ≡ armed self.old.dues x time number c }
        ensures contexts { self.new.contexts ≡ self.old.contexts }
        ensures contexts_spare { self.old.contexts_spare ≤ self.new.contexts_spare }
    {
        self.disarm(x);
        self.enter(Due {
            time,
            number,
            object: x,
            context: c,
        });
    }

    /// Removes the time of an object. Answers whether it had one.
    pub fn disarm(&mut self, x: Obj) -> bool
        ensures result { result ≡ is_armed self.old.dues x }
        ensures dues { self.new.dues ≡ disarmed self.old.dues x }
        ensures contexts { self.new.contexts ≡ self.old.contexts }
        ensures spare { self.old.spare ≤ self.new.spare }
        ensures contexts_spare { self.old.contexts_spare ≤ self.new.contexts_spare }
    {
        let Some(place) = self.places.take(x.0) else {
            return false;
        };
        self.heaps.take_out(&mut self.places, place);
        self.changes = self.changes.and(&Change::Leaves(x), &());
        true
    }

    /// The time that comes first in a context. None exactly where there is none.
    fn earliest(&self, c: Obj) -> Option<Due>
        ensures first { result ≡ slice_get (times_in self.now.dues c) 0 }
        ensures once { AreOnce self.now.dues }
    {
        self.heaps.top(c.0)
    }

    /// The time that comes first in a context. None exactly where there is none.
    pub fn first(&self, c: Obj) -> Option<Due>
        ensures { result ≡ slice_get (times_in self.now.dues c) 0 }
    {
        self.earliest(c)
    }

    /// Takes out the time that comes first in a context. None exactly where there is none.
    pub fn pop(&mut self, c: Obj) -> Option<Due>
        ensures first { result ≡ slice_get (times_in self.old.dues c) 0 }
        ensures dues { self.new.dues ≡ left_after result self.old.dues }
        ensures here { times_in self.new.dues c ≡ drop 1 (times_in self.old.dues c) }
        ensures elsewhere { times_without self.new.dues c ≡ times_without self.old.dues c }
        ensures contexts { self.new.contexts ≡ self.old.contexts }
        ensures spare { self.old.spare ≤ self.new.spare }
        ensures contexts_spare { self.old.contexts_spare ≤ self.new.contexts_spare }
    {
        let first = self.earliest(c);
        if let Some(due) = first {
            self.disarm(due.object);
        }
        first
    }

    /// An object whose time in a context leaves in one step. None exactly where there is none.
    #[inline(always)]
    fn last(&self, c: Obj) -> Option<Obj>
        ensures armed { IfSome result (λ x. is_armed (times_in self.now.dues c) x ≡ true) }
        ensures none { result ≡ None → times_in self.now.dues c ≡ [] }
        ensures once { AreOnce self.now.dues }
    {
        Some(self.heaps.last(c.0)?.object)
    }

    /// Takes out all times of a context, which stays.
    #[inline(always)]
    pub fn clear(&mut self, c: Obj)
        ensures dues { self.new.dues ≡ times_without self.old.dues c }
        ensures none { times_in self.new.dues c ≡ [] }
        ensures contexts { self.new.contexts ≡ self.old.contexts }
        ensures spare { self.old.spare ≤ self.new.spare }
        ensures contexts_spare { self.old.contexts_spare ≤ self.new.contexts_spare }
    {
        while let Some(x) = self.last(c) {
            self.disarm(x);
        }
    }

    /// Drops a context that has no times.
    fn close(&mut self, c: Obj)
        requires { times_in self.old.dues c ≡ [] }
        ensures dues { self.new.dues ≡ self.old.dues }
        ensures contexts { self.new.contexts ≡ without_context self.old.contexts c }
        ensures spare { self.new.spare ≡ self.old.spare }
        ensures contexts_spare { self.old.contexts_spare ≤ self.new.contexts_spare }
    {
        self.heaps.remove(c.0);
        self.changes = self.changes.and(&Change::Closes(c), &());
    }

    /// Drops a context and all its times, in as many steps as these are. The first context stays, and has no times.
    pub fn drop_context(&mut self, c: Obj)
        ensures dues { self.new.dues ≡ times_without self.old.dues c }
        ensures contexts { self.new.contexts ≡ without_context self.old.contexts c }
        ensures spare { self.old.spare ≤ self.new.spare }
        ensures contexts_spare { self.old.contexts_spare ≤ self.new.contexts_spare }
    {
        self.clear(c);
        self.close(c);
    }

    /// How many times a context has.
    pub fn len(&self, c: Obj) -> usize
        ensures { result ≡ length (times_in self.now.dues c) }
    {
        self.heaps.len(c.0)
    }

    /// Whether a context has no times.
    pub fn is_empty(&self, c: Obj) -> bool
        ensures { IsTrue result ↔ (times_in self.now.dues c ≡ []) }
    {
        self.earliest(c).is_none()
    }

    /// How many times there are in all contexts.
    pub fn total(&self) -> usize
        ensures count { result ≡ length self.now.dues }
        ensures ordered { AreInOrder self.now.dues }
        ensures once { AreOnce self.now.dues }
    {
        self.places.len()
    }
}
