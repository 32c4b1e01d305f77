//! The turns of the contexts: whose turn is under way, how many wait for it, and what comes in it.
ghost use Rattle.std.specs.Prelude.{◌≡◌, ◌<◌, ◌^◌};
ghost use Rattle.tree_specs.specs.Events.Pending.{soon_in, times_in};
ghost use Rattle.tree_specs.specs.Events.Rotation.{ring_in};
ghost use Rattle.loop_core.specs.Picks.{begin_pick, clock_pick, ready_pick};
ghost use Rattle.object_pool.specs.Upcoming.{here, pending, pending_most, KeepsPlaces, KeepsContexts, picked, turned_to};

use crate::events::Events;
use loop_core::{Loop, Pick};
use tree_specs::{Obj, Wants};

impl Events {
    /// The context whose turn is under way, where it is an object.
    pub fn turning(&self) -> Option<Obj>
        ensures { result ≡ self.now.upcoming.turning }
    {
        self.turning
    }

    /// Notes the context whose turn is under way, where it is an object.
    pub fn turn_to(&mut self, context: Option<Obj>)
        ensures upcoming { self.new.upcoming ≡ turned_to context self.old.upcoming }
        ensures kept { KeepsPlaces self.old self.new }
        ensures contexts { KeepsContexts self.old self.new }
    {
        self.turning = context;
    }

    /// How many wait for their turn in a context.
    pub fn pending(&self, c: Obj) -> u64
        requires { pending_most self.now.upcoming < 2 ^ 64 }
        ensures { result ≡ pending c self.now.upcoming }
    {
        let Loop { soon, times, ring } = &self.order;
        (soon.len(c) + times.len(c) + ring.len(c)) as u64
    }

    /// Begins a turn of the context whose turn is under way, and picks what comes. What was picked waits no more.
    pub fn begin(&mut self) -> Pick
        ensures pick { result ≡ begin_pick (soon_in self.old.upcoming.soon (here self.old.upcoming)) (times_in self.old.upcoming.times (here self.old.upcoming)) }
        ensures upcoming { self.new.upcoming ≡ picked result self.old.upcoming }
        ensures kept { KeepsPlaces self.old self.new }
        ensures contexts { KeepsContexts self.old self.new }
    {
        let context = self.here();
        self.order.begin(context)
    }

    /// Picks what comes once the clock has told the time, in microseconds, in a turn that has `waited` for descriptors
    /// before, or hasn't. What was picked waits no more.
    pub fn clock(&mut self, now: u64, waited: bool) -> Pick
        ensures pick { result ≡ clock_pick waited now (times_in self.old.upcoming.times (here self.old.upcoming)) }
        ensures upcoming { self.new.upcoming ≡ picked result self.old.upcoming }
        ensures kept { KeepsPlaces self.old self.new }
        ensures contexts { KeepsContexts self.old self.new }
    {
        let context = self.here();
        self.order.clock(context, now, waited)
    }

    /// Picks what comes when these descriptors are ready.
    pub fn ready(&self, list: &Wants) -> Pick
        ensures { result ≡ ready_pick list.now (times_in self.now.upcoming.times (here self.now.upcoming)) (ring_in self.now.upcoming.ring (here self.now.upcoming)) }
    {
        self.order.ready(self.here(), list)
    }
}
