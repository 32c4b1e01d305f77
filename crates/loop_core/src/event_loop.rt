//! `Loop`: what an event loop has to do in each context, and in which order it is picked.
use crate::pick::Pick;
use fd_events::{ReadyEvent, Ring};
use immediates::Soon;
use std::alloc::Global;
use timers::Times;
use tree_specs::{Memory, Obj, WAIT_LIMIT, Wants};

/// What an event loop has to do, in each of several contexts. It picks what comes next in a turn of one of them
/// (`tevent_loop_once`), and runs nothing. A turn begins with `begin`; each answer that a pick asks for is handed in, until
/// something comes or nothing does. No pick takes memory.
#[derive(Drop)]
pub struct Loop {
    /// What comes soon, in each context the first in first.
    pub soon: Soon,
    /// What comes at a time, in each context the earliest first.
    pub times: Times,
    /// Events on descriptors, in each context in the order in which they are looked at.
    pub ring: Ring,
}

impl Loop {
    ghost use Rattle.std.specs.Prelude.{◌≡◌, ◌<◌, ◌≤◌, [], OnOk, true};
    ghost use Rattle.tree_specs.specs.declared.object.Obj.{Obj as ObjData};
    ghost use Rattle.tree_specs.specs.Events.Contexts.{has_context, with_context, without_context};
    ghost use Rattle.tree_specs.specs.Events.Pending.{soon_in, soon_without, times_in, times_without};
    ghost use Rattle.tree_specs.specs.Events.Rotation.{ring_in, ring_without};
    ghost use Rattle.loop_core.specs.Contexts.{HasSpareContext, IsIdle, KeepsSpares};
    ghost use Rattle.loop_core.specs.Picks.{begin_pick, clock_pick, ready_pick, soon_after, times_after};

    /// A loop that has nothing to do, and no context but the first one.
    pub fn new(alloc: Global) -> Loop
        ensures soon { result.soon.coming ≡ [] }
        ensures times { result.times.dues ≡ [] }
        ensures ring { result.ring.watches ≡ [] }
    {
        Loop {
            soon: Soon::new(alloc),
            times: Times::new(alloc),
            ring: Ring::new(alloc),
        }
    }

    /// Takes memory for one more context. If memory runs out, all is as it was.
    pub fn reserve_context(&mut self) -> Result<(), Memory>
        ensures soon { self.new.soon.coming ≡ self.old.soon.coming }
        ensures times { self.new.times.dues ≡ self.old.times.dues }
        ensures ring { self.new.ring.watches ≡ self.old.ring.watches }
        ensures soon_contexts { self.new.soon.contexts ≡ self.old.soon.contexts }
        ensures times_contexts { self.new.times.contexts ≡ self.old.times.contexts }
        ensures ring_contexts { self.new.ring.contexts ≡ self.old.ring.contexts }
        ensures spare { OnOk result (HasSpareContext self.new.soon self.new.times self.new.ring) }
        ensures kept { KeepsSpares self.old.soon self.new.soon self.old.times self.new.times self.old.ring self.new.ring }
    {
        self.soon.reserve_context()?;
        self.times.reserve_context()?;
        self.ring.reserve_context()
    }

    /// Adds a context, in which there is nothing to do (`tevent_context_init`). One that is there stays as it is. It uses up
    /// the memory for one more time.
    pub fn add_context(&mut self, c: Obj)
        requires time { 0 < self.old.times.spare }
        requires spare { HasSpareContext self.old.soon self.old.times self.old.ring }
        ensures soon { self.new.soon.coming ≡ self.old.soon.coming }
        ensures times { self.new.times.dues ≡ self.old.times.dues }
        ensures ring { self.new.ring.watches ≡ self.old.ring.watches }
        ensures soon_contexts { self.new.soon.contexts ≡ with_context self.old.soon.contexts c }
        ensures times_contexts { self.new.times.contexts ≡ with_context self.old.times.contexts c }
        ensures ring_contexts { self.new.ring.contexts ≡ with_context self.old.ring.contexts c }
        ensures soon_spare { self.new.soon.spare ≡ self.old.soon.spare }
        ensures ring_spare { self.new.ring.spare ≡ self.old.ring.spare }
    {
        self.soon.add_context(c);
        self.times.add_context(c);
        self.ring.add_context(c);
    }

    /// Takes out all that there is to do in a context, which stays. Events that were watched in it are lost: they stay, but
    /// nobody looks at them any more.
    pub fn clear_context(&mut self, c: Obj)
        ensures soon { self.new.soon.coming ≡ soon_without self.old.soon.coming c }
        ensures times { self.new.times.dues ≡ times_without self.old.times.dues c }
        ensures ring { self.new.ring.watches ≡ ring_without self.old.ring.watches c }
        ensures soon_contexts { self.new.soon.contexts ≡ self.old.soon.contexts }
        ensures times_contexts { self.new.times.contexts ≡ self.old.times.contexts }
        ensures ring_contexts { self.new.ring.contexts ≡ self.old.ring.contexts }
        ensures kept { KeepsSpares self.old.soon self.new.soon self.old.times self.new.times self.old.ring self.new.ring }
    {
        self.soon.clear(c);
        self.times.clear(c);
        self.ring.clear(c);
    }

    /// Drops a context in which there is nothing to do. The first context stays.
    pub fn close_context(&mut self, c: Obj)
        requires { IsIdle self.old.soon self.old.times self.old.ring c }
        ensures soon { self.new.soon.coming ≡ self.old.soon.coming }
        ensures times { self.new.times.dues ≡ self.old.times.dues }
        ensures ring { self.new.ring.watches ≡ self.old.ring.watches }
        ensures soon_contexts { self.new.soon.contexts ≡ without_context self.old.soon.contexts c }
        ensures times_contexts { self.new.times.contexts ≡ without_context self.old.times.contexts c }
        ensures ring_contexts { self.new.ring.contexts ≡ without_context self.old.ring.contexts c }
        ensures kept { KeepsSpares self.old.soon self.new.soon self.old.times self.new.times self.old.ring self.new.ring }
    {
        self.soon.drop_context(c);
        self.times.drop_context(c);
        self.ring.drop_context(c);
    }

    /// Begins a turn of a context. What comes soon is picked first; where there is nothing, a first time of 0 has come, for
    /// any other one the clock is asked, and with no time it is waited for descriptors.
    pub fn begin(&mut self, c: Obj) -> Pick
        ensures pick { result ≡ begin_pick (soon_in self.old.soon.coming c) (times_in self.old.times.dues c) }
        ensures soon { self.new.soon.coming ≡ soon_after result self.old.soon.coming }
        ensures times { self.new.times.dues ≡ times_after result self.old.times.dues }
        ensures ring { self.new.ring ≡ self.old.ring }
        ensures soon_contexts { self.new.soon.contexts ≡ self.old.soon.contexts }
        ensures times_contexts { self.new.times.contexts ≡ self.old.times.contexts }
        ensures kept { KeepsSpares self.old.soon self.new.soon self.old.times self.new.times self.old.ring self.new.ring }
    {
        if let Some(x) = self.soon.pop(c) {
            return Pick::Soon(x);
        }
        let Some(due) = self.times.first(c) else {
            return Pick::AskWait(WAIT_LIMIT);
        };
        if due.time != 0 {
            return Pick::AskClock;
        }
        self.times.disarm(due.object);
        Pick::Time(due.object, 0)
    }

    /// Goes on in a turn of a context once the clock has told the time, in microseconds, after a pick that asked for it. A
    /// first time that has come is picked. For one that hasn't it is waited, where this turn has not `waited` before.
    pub fn clock(&mut self, c: Obj, now: u64, waited: bool) -> Pick
        ensures pick { result ≡ clock_pick waited now (times_in self.old.times.dues c) }
        ensures soon { self.new.soon ≡ self.old.soon }
        ensures times { self.new.times.dues ≡ times_after result self.old.times.dues }
        ensures ring { self.new.ring ≡ self.old.ring }
        ensures times_contexts { self.new.times.contexts ≡ self.old.times.contexts }
        ensures kept { KeepsSpares self.old.soon self.new.soon self.old.times self.new.times self.old.ring self.new.ring }
    {
        let Some(due) = self.times.first(c) else {
            return Pick::Nothing;
        };
        if due.time <= now {
            self.times.disarm(due.object);
            return Pick::Time(due.object, now);
        }
        if waited {
            return Pick::Nothing;
        }
        Pick::AskWait(due.time - now)
    }

    /// Picks what comes in a turn of a context when these descriptors are ready, after a pick that asked for them. Where none
    /// is, the first time may have come. Otherwise the first event is picked that waits for what its descriptor is ready
    /// for. It stays where it is: who runs its handler puts it at the end.
    pub fn ready(&self, c: Obj, list: &Wants) -> Pick
        ensures { result ≡ ready_pick list.now (times_in self.now.times.dues c) (ring_in self.now.ring.watches c) }
    {
        if list.as_slice().is_empty() && !self.times.is_empty(c) {
            return Pick::AskClock;
        }
        match self.ring.first_ready(c, list) {
            Some(ReadyEvent { object, flags }) => Pick::Descriptor(object, flags),
            None => Pick::Nothing,
        }
    }
}
