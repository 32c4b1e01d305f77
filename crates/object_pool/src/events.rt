//! The events of a host: which are to come, and what runs then; with the open descriptors, and what is kept of requests
//! and queues.
ghost use Rattle.std.specs.Prelude.{◌≡◌, ◌+◌, ◌<◌, false, IfSome};
ghost use Rattle.std.specs.FinMap as map;

mod noting;
mod queueing;
mod turning;

use loop_core::Loop;
use pool_arena::Arena;
use request_queue::Queues;
use requests::Requests;
use std::alloc::Global;
use std::marker::Model;
use tree_links::Tree;
use tree_specs::{FreeStep, Handler, Memory, Obj, Want};

/// The events of a host: which of them are to come in which context, and the handler of each; the context whose turn is
/// under way; the descriptors that are open; the notes of requests; and the queues. Contracts see the lists of those to
/// come, the handlers and notes by the numbers of their events and requests, the numbers of the descriptors, the queues,
/// the contexts in which something may come, and how many more there may be without taking memory.
#[derive(Drop)]
pub struct Events {
    order: Loop,
    /// The handler of each event that was given one, under the number of the event.
    handlers: Arena<Handler>,
    /// The descriptors that are open, each under its number.
    descriptors: Arena<()>,
    requests: Requests,
    queues: Queues,
    /// The context whose turn is under way, where it is an object.
    turning: Option<Obj>,
}

impl Model for Events {
    ghost use Rattle.std.specs.Prelude.{◌≤◌, length, min};
    ghost use Rattle.std.specs.FinMap.{entries};
    ghost use Rattle.object_pool.specs.Upcoming.{Agenda};

    ghost Value = { Agenda };

    ghost view = { λ e. record { upcoming = record { soon = e.order.soon.coming; times = e.order.times.dues; ring = e.order.ring.watches; descriptors = entries e.descriptors.pairs; handlers = entries e.handlers.pairs; requests = e.requests.notes; queues = e.queues.queues; turning = e.turning }; soon_spare = e.order.soon.spare; times_spare = e.order.times.spare; ring_spare = e.order.ring.spare; descriptors_spare = e.descriptors.spare; handlers_spare = e.handlers.spare; requests_spare = e.requests.spare; queues_spare = e.queues.spare; soon_contexts = e.order.soon.contexts; times_contexts = e.order.times.contexts; ring_contexts = e.order.ring.contexts; contexts_spare = min e.order.soon.contexts_spare (min e.order.times.contexts_spare e.order.ring.contexts_spare) } };

    // Each entry has a place among what comes soon: the queue that it leaves may come.
    ghost invariant = { λ e. length e.queues.queues.entries ≤ e.order.soon.spare };
}

/// Keeps a value under a number, in place of what was kept there.
fn put<T: Copy>(kept: &mut Arena<T>, number: u64, value: T)
    requires { 0 < kept.old.spare }
    ensures { kept.new.pairs ≡ map.insert kept.old.pairs number value }
{
    match kept.get_mut(number) {
        Some(present) => *present = value,
        None => kept.add(number, value),
    }
}

/// The sum of these. None where it can't be counted.
fn count(soon: usize, times: usize, ring: usize, entries: usize) -> Option<usize>
    ensures { IfSome result (λ n. n ≡ soon + times + ring + entries) }
{
    soon.checked_add(times)?
        .checked_add(ring)?
        .checked_add(entries)
}

#[tactic(auto, using(pool_arena::proofs::NumberMaps::none_listed, pool_arena::proofs::NumberMaps::put_listed, pool_arena::proofs::NumberMaps::removed_listed, pool_arena::proofs::NumberMaps::found_listed))]
impl Events {
    ghost use Rattle.std.specs.Prelude.{◌^◌, IfOk, OnOk, OnErr, [], true};
    ghost use Rattle.tree_specs.specs.Events.Pending.{disarmed, is_numbered};
    ghost use Rattle.tree_specs.specs.Events.Handlers.{handler_of};
    ghost use Rattle.tree_specs.specs.Events.Rotation.{is_watching, is_watched, flags_of, flagged, closing, turned_back, closes_with, wanted_of};
    ghost use Rattle.tree_specs.specs.Events.Descriptors.{is_open_in};
    ghost use Rattle.object_pool.specs.Upcoming.{nothing_comes, here, pending_most, HasPlace, KeepsPlaces, holds_context, HoldsUsable, KeepsContexts, KeepsAllBut, without_gone, soon_with, timed_with, watching_with, with_watch, with_open, with_closed, without_event, stilled, cleared, forgotten, IsForgettable, MayForget, gone_by};
    ghost use Rattle.tree_specs.specs.declared.object.Obj.{Obj as ObjData};
    ghost use Rattle.tree_specs.specs.Events.Rotation.{ring_in};
    ghost use Rattle.tree_specs.specs.Events.Queues.{has_entries};
    ghost use Rattle.std.specs.Prelude.{Some};
    ghost use Rattle.tree_specs.specs.Events.Pending.{unscheduled};

    /// Events of which none is to come. The listener's descriptor is open, and no other.
    pub fn new(alloc: Global) -> Result<Events, Memory>
        ensures { IfOk result (λ events. events.upcoming ≡ nothing_comes) }
    {
        let mut descriptors = Arena::new(alloc);
        descriptors.reserve(1)?;
        put(&mut descriptors, 0, ());
        Ok(Events {
            order: Loop::new(alloc),
            handlers: Arena::new(alloc),
            descriptors,
            requests: Requests::new(alloc),
            queues: Queues::new(alloc),
            turning: None,
        })
    }

    /// Takes the memory for one more that is to come, one more descriptor, one more request, one more queue and one
    /// more entry, where as many can be counted. If memory runs out, all is as it was.
    pub fn reserve(&mut self) -> Result<(), Memory>
        ensures upcoming { self.new.upcoming ≡ self.old.upcoming }
        ensures kept { KeepsPlaces self.old self.new }
        ensures contexts { KeepsContexts self.old self.new }
        ensures place { OnOk result (HasPlace self.new) }
        ensures counted { OnOk result (pending_most self.new.upcoming < 2 ^ 64) }
    {
        let Loop { soon, times, ring } = &mut self.order;
        let entries = self.queues.len();
        count(soon.total(), times.total(), ring.total(), entries).ok_or(Memory)?;
        // The queue that an entry leaves may come soon: each entry has a place there, and so will the next one.
        soon.reserve(entries.checked_add(2).ok_or(Memory)?)?;
        times.reserve()?;
        ring.reserve(1)?;
        self.handlers.reserve(1)?;
        self.descriptors.reserve(1)?;
        self.requests.reserve(1)?;
        self.queues.reserve(1)
    }

    /// Takes the memory for one more context. If memory runs out, all is as it was.
    pub fn reserve_context(&mut self) -> Result<(), Memory>
        ensures upcoming { self.new.upcoming ≡ self.old.upcoming }
        ensures kept { KeepsPlaces self.old self.new }
        ensures contexts { KeepsContexts self.old self.new }
        ensures spare { OnOk result (0 < self.new.contexts_spare) }
    {
        self.order.reserve_context()
    }

    /// Adds a context, in which nothing comes yet.
    pub fn add_context(&mut self, c: Obj)
        requires place { HasPlace self.old }
        requires spare { 0 < self.old.contexts_spare }
        ensures upcoming { self.new.upcoming ≡ self.old.upcoming }
        ensures added { holds_context self.new c ≡ true }
        ensures held { (d : ObjData) → holds_context self.old d ≡ true → holds_context self.new d ≡ true }
    {
        self.order.add_context(c);
    }

    /// The context whose turn is under way; the first one where there is no such turn.
    fn here(&self) -> Obj
        ensures { result ≡ here self.now.upcoming }
    {
        self.turning.unwrap_or(Obj::first_context())
    }

    /// Schedules an event: it comes soon in the handler's context, after all others, and the handler runs then. One that
    /// waits already goes to the end.
    pub fn schedule(&mut self, x: Obj, handler: Handler)
        requires place { HasPlace self.old }
        requires context { holds_context self.old handler.context ≡ true }
        ensures upcoming { self.new.upcoming ≡ soon_with x handler self.old.upcoming }
        ensures contexts { KeepsContexts self.old self.new }
    {
        put(&mut self.handlers, x.0, handler);
        self.order.soon.push(x, handler.context);
    }

    /// Takes an event out of those that come soon. Nothing changes where it isn't among them.
    pub fn unschedule(&mut self, x: Obj)
        ensures upcoming { self.new.upcoming ≡ record self.old.upcoming { soon = unscheduled self.old.upcoming.soon x } }
        ensures kept { KeepsPlaces self.old self.new }
        ensures contexts { KeepsContexts self.old self.new }
    {
        self.order.soon.remove(x);
    }

    /// Sets the time at which an event comes in the handler's context, in microseconds, and the handler that runs then.
    /// No other time has its number.
    pub fn arm(&mut self, x: Obj, time: u64, handler: Handler)
        requires place { HasPlace self.old }
        requires context { holds_context self.old handler.context ≡ true }
        requires number { is_numbered (disarmed self.old.upcoming.times x) x.0 ≡ false }
        ensures upcoming { self.new.upcoming ≡ timed_with x time handler self.old.upcoming }
        ensures contexts { KeepsContexts self.old self.new }
    {
        put(&mut self.handlers, x.0, handler);
        self.order.times.arm(x, time, x.0, handler.context);
    }

    /// Makes an event watch a descriptor in the handler's context for these flags, and sets the handler that runs when it
    /// is ready for one of them.
    pub fn watch(&mut self, x: Obj, fd: u32, flags: u32, handler: Handler)
        requires place { HasPlace self.old }
        requires context { holds_context self.old handler.context ≡ true }
        requires event { is_watching self.old.upcoming.ring x ≡ false }
        requires descriptor { is_watched self.old.upcoming.ring fd ≡ false }
        ensures upcoming { self.new.upcoming ≡ watching_with x fd flags handler self.old.upcoming }
        ensures contexts { KeepsContexts self.old self.new }
    {
        put(&mut self.handlers, x.0, handler);
        self.order.ring.add(x, fd, flags, handler.context);
    }

    /// What an event on a descriptor waits for. None exactly where it watches nothing.
    pub fn flags(&self, x: Obj) -> Option<u32>
        ensures { result ≡ flags_of self.now.upcoming.ring x }
    {
        self.order.ring.flags(x)
    }

    /// Sets the flags that an event on a descriptor waits for. Nothing changes where it watches nothing.
    pub fn set_flags(&mut self, x: Obj, flags: u32)
        ensures upcoming { self.new.upcoming ≡ with_watch (flagged flags) x self.old.upcoming }
        ensures kept { KeepsPlaces self.old self.new }
        ensures contexts { KeepsContexts self.old self.new }
    {
        self.order.ring.set_flags(x, flags);
    }

    /// Marks the descriptor of an event to be closed with it. Nothing changes where it watches nothing.
    pub fn set_closing(&mut self, x: Obj)
        ensures upcoming { self.new.upcoming ≡ with_watch closing x self.old.upcoming }
        ensures kept { KeepsPlaces self.old self.new }
        ensures contexts { KeepsContexts self.old self.new }
    {
        self.order.ring.set_closing(x);
    }

    /// Puts an event on a descriptor behind all others, once it has come.
    pub fn turn_back(&mut self, x: Obj)
        ensures upcoming { self.new.upcoming ≡ record self.old.upcoming { ring = turned_back self.old.upcoming.ring x } }
        ensures kept { KeepsPlaces self.old self.new }
        ensures contexts { KeepsContexts self.old self.new }
    {
        self.order.ring.turn_back(x);
    }

    /// Whether an event watches a descriptor.
    pub fn is_watched(&self, fd: u32) -> bool
        ensures { result ≡ is_watched self.now.upcoming.ring fd }
    {
        self.order.ring.holder(fd).is_some()
    }

    /// Gives the descriptors that are watched for something in the context whose turn is under way, and what for, in the
    /// order in which they are looked at, in place of what was in `out`. If memory runs out, nothing is given.
    pub fn wants(&self, out: &mut Vec<Want>) -> Result<(), Memory>
        ensures wants { OnOk result (out.new.items ≡ wanted_of (ring_in self.now.upcoming.ring (here self.now.upcoming))) }
        ensures nothing { OnErr result (out.new.items ≡ []) }
    {
        self.order.ring.wants(self.here(), out)
    }

    /// Whether a descriptor is open.
    pub fn is_open(&self, fd: u32) -> bool
        ensures { result ≡ is_open_in self.now.upcoming.descriptors fd }
    {
        self.descriptors.get(u64::from(fd)).is_some()
    }

    /// Marks a descriptor as open.
    pub fn open(&mut self, fd: u32)
        requires { HasPlace self.old }
        ensures upcoming { self.new.upcoming ≡ with_open fd self.old.upcoming }
        ensures contexts { KeepsContexts self.old self.new }
    {
        put(&mut self.descriptors, u64::from(fd), ());
    }

    /// Marks a descriptor as closed.
    pub fn close(&mut self, fd: u32)
        ensures upcoming { self.new.upcoming ≡ with_closed fd self.old.upcoming }
        ensures kept { KeepsPlaces self.old self.new }
        ensures contexts { KeepsContexts self.old self.new }
    {
        self.descriptors.take(u64::from(fd));
    }

    /// The descriptor that is closed when an event goes. None where there is none.
    pub fn closes_with(&self, x: Obj) -> Option<u32>
        ensures { result ≡ closes_with self.now.upcoming.ring x }
    {
        let watch = self.order.ring.watch(x)?;
        if watch.closes { Some(watch.fd) } else { None }
    }

    /// Takes an object out of all that is to come. Gives the descriptor that was closed with it, where one was.
    fn disarm(&mut self, x: Obj) -> Option<u32>
        ensures closed { result ≡ closes_with self.old.upcoming.ring x }
        ensures upcoming { self.new.upcoming ≡ stilled x self.old.upcoming }
        ensures kept { KeepsPlaces self.old self.new }
        ensures contexts { KeepsContexts self.old self.new }
    {
        let closed = self.closes_with(x);
        self.order.soon.remove(x);
        self.order.times.disarm(x);
        self.order.ring.remove(x);
        if let Some(fd) = closed {
            self.close(fd);
        }
        closed
    }

    /// Takes all that comes in a context out of what is to come. What it watched is lost.
    fn clear(&mut self, c: Obj)
        ensures upcoming { self.new.upcoming ≡ cleared c self.old.upcoming }
        ensures kept { KeepsPlaces self.old self.new }
        ensures contexts { KeepsContexts self.old self.new }
    {
        self.order.clear_context(c);
    }

    /// Takes an object out of all that is to come, and an entry out of its queue. Nothing comes in a context any more.
    /// Gives the descriptor that was closed with it, where one was.
    pub fn let_go(&mut self, x: Obj, tree: &Tree) -> Option<u32>
        requires { HoldsUsable tree.now.rows self.old }
        ensures closed { result ≡ closes_with self.old.upcoming.ring x }
        ensures upcoming { self.new.upcoming ≡ without_event tree.now.rows x self.old.upcoming }
        ensures kept { KeepsPlaces self.old self.new }
        ensures contexts { KeepsContexts self.old self.new }
    {
        let closed = self.disarm(x);
        self.remove_entry(x, tree);
        self.clear(x);
        closed
    }

    /// Forgets all that is kept of an object.
    fn forget(&mut self, x: Obj)
        requires { IsForgettable x self.old.upcoming }
        ensures upcoming { self.new.upcoming ≡ forgotten x self.old.upcoming }
        ensures kept { KeepsPlaces self.old self.new }
        ensures contexts { KeepsAllBut (Some x) self.old self.new }
    {
        self.handlers.take(x.0);
        self.requests.forget(x);
        self.queues.forget_queue(x);
        self.order.close_context(x);
    }

    /// Follows a step of a free: nothing is kept of what is no more.
    pub fn follow(&mut self, step: &FreeStep)
        requires { MayForget (Some step.now) self.old.upcoming }
        ensures upcoming { self.new.upcoming ≡ without_gone (gone_by (Some step.now)) self.old.upcoming }
        ensures kept { KeepsPlaces self.old self.new }
        ensures contexts { KeepsAllBut (gone_by (Some step.now)) self.old self.new }
    {
        match step {
            FreeStep::Gone { object, .. } => self.forget(*object),
            FreeStep::Dropped { reference, .. } => self.forget(*reference),
            _ => {}
        }
    }

    /// The handler of an event. None exactly where it has none.
    pub fn handler(&self, x: Obj) -> Option<Handler>
        ensures { result ≡ handler_of self.now.upcoming.handlers x }
    {
        self.handlers.get(x.0).copied()
    }
}
