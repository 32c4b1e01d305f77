//! What is kept of queues, beside what is to come of them.
ghost use Rattle.std.specs.Prelude.{◌≡◌, ◌+◌, ◌<◌, ◌≤◌, IsSome, None, Some, true, false, length};
ghost use Rattle.std.specs.Option.{option_map};
ghost use Rattle.tree_specs.specs.Events.Queues.{running_of, has_queue, run_as, next_of};
ghost use Rattle.request_queue.specs.Register.{IsAbove, turn_of, triggered_by};
ghost use Rattle.object_pool.specs.Upcoming.{HasPlace, KeepsPlaces, KeepsContexts, KeepsRest, HoldsUsable, with_coming, count_of, queued, entered, out_of_queue, running, with_queues};

use crate::contexts::is_usable;
use crate::events::Events;
use request_queue::{Queues, Turn};
use tree_links::Tree;
use tree_specs::{Coming, Handler, Obj};

impl Events {
    /// Adds a queue, which runs.
    pub fn add_queue(&mut self, q: Obj)
        requires place { HasPlace self.old }
        requires new { running_of self.old.upcoming.queues q ≡ None }
        ensures upcoming { self.new.upcoming ≡ queued q self.old.upcoming }
        ensures contexts { KeepsContexts self.old self.new }
    {
        self.queues.add_queue(q);
    }

    /// Puts a queue behind all others that come soon in the context that it is to come in, if it is. Where this isn't
    /// usable it comes no more.
    #[inline(always)]
    fn look_at(&mut self, queue: Option<Coming>, tree: &Tree)
        requires room { IsSome queue → length self.old.upcoming.queues.entries < self.old.soon_spare }
        requires usable { HoldsUsable tree.now.rows self.old }
        ensures upcoming { self.new.upcoming ≡ with_coming tree.now.rows queue self.old.upcoming }
        ensures rest { KeepsRest self.old self.new }
        ensures spare { self.old.soon_spare ≤ self.new.soon_spare + count_of queue }
    {
        let Some(Coming { object, context }) = queue else {
            return;
        };
        if is_usable(context, tree) {
            self.order.soon.push(object, context);
        } else {
            self.order.soon.remove(object);
        }
    }

    /// Adds an entry to a queue, behind all others; its number is above those of all entries. The queue comes soon,
    /// where it runs and its first entry waits for its trigger.
    pub fn add_entry(&mut self, q: Obj, e: Obj, request: Obj, trigger: Handler, tree: &Tree)
        requires place { HasPlace self.old }
        requires queue { has_queue self.old.upcoming.queues q ≡ true }
        requires newest { IsAbove e self.old.upcoming.queues.entries }
        requires usable { HoldsUsable tree.now.rows self.old }
        ensures upcoming { self.new.upcoming ≡ entered tree.now.rows q e request trigger self.old.upcoming }
        ensures contexts { KeepsContexts self.old self.new }
    {
        let coming = self.queues.add_entry(q, e, request, trigger);
        self.look_at(coming, tree);
    }

    /// Takes an entry out of its queue, which comes soon where it runs and its first entry then waits for its trigger.
    /// Nothing changes where it is no entry.
    pub fn remove_entry(&mut self, e: Obj, tree: &Tree)
        requires { HoldsUsable tree.now.rows self.old }
        ensures upcoming { self.new.upcoming ≡ out_of_queue tree.now.rows e self.old.upcoming }
        ensures kept { KeepsPlaces self.old self.new }
        ensures contexts { KeepsContexts self.old self.new }
    {
        let coming = self.queues.remove_entry(e);
        self.look_at(coming, tree);
    }

    /// Starts a queue. One that didn't run comes soon, where its first entry waits for its trigger.
    pub fn start(&mut self, q: Obj, tree: &Tree)
        requires place { HasPlace self.old }
        requires usable { HoldsUsable tree.now.rows self.old }
        ensures upcoming { self.new.upcoming ≡ running tree.now.rows q self.old.upcoming }
        ensures contexts { KeepsContexts self.old self.new }
    {
        let coming = self.queues.start(q);
        self.look_at(coming, tree);
    }

    /// Stops a queue.
    pub fn stop(&mut self, q: Obj)
        ensures upcoming { self.new.upcoming ≡ with_queues (run_as self.old.upcoming.queues q false) self.old.upcoming }
        ensures kept { KeepsPlaces self.old self.new }
        ensures contexts { KeepsContexts self.old self.new }
    {
        self.queues.stop(q);
    }

    /// The queues, and the entries in them.
    pub fn queues(&self) -> &Queues
        ensures { result.now.queues ≡ self.now.upcoming.queues }
    {
        &self.queues
    }

    /// Begins the trigger of a queue's first entry, where the queue runs and the trigger hasn't begun. None exactly
    /// where there is no such entry.
    pub fn trigger(&mut self, q: Obj) -> Option<Turn>
        ensures turn { result ≡ option_map turn_of (next_of self.old.upcoming.queues q) }
        ensures upcoming { self.new.upcoming ≡ with_queues (triggered_by (next_of self.old.upcoming.queues q) self.old.upcoming.queues) self.old.upcoming }
        ensures many { length self.new.upcoming.queues.entries ≡ length self.old.upcoming.queues.entries }
        ensures kept { KeepsPlaces self.old self.new }
        ensures contexts { KeepsContexts self.old self.new }
    {
        self.queues.trigger(q)
    }
}
