//! Queues: what is kept of them, and of the entries in them.
ghost use Rattle.std.specs.Prelude.{◌≡◌, ◌-◌, ◌^◌, ◌<◌, true, false, is_some, length};
ghost use Rattle.std.specs.Option.{option_map};
ghost use Rattle.tree_specs.specs.declared.object.Owner.TheVariants.{Of};
ghost use Rattle.tree_specs.specs.Tree.Pool.{is_owner, add_queue, add_entry, run_queue};
ghost use Rattle.tree_specs.specs.Events.Queues.{running_of, has_queue, length_of, head_of, next_of};
ghost use Rattle.tree_specs.specs.Calls.Refusals.{row_limit};
ghost use Rattle.request_queue.specs.Register.{object_of, turn_of};
ghost use Rattle.object_pool.specs.Queueing.{starting, triggering};

use crate::counting::add_row;
use crate::pool::ObjectPool;
use request_queue::Turn;
use tree_specs::{Handler, Kind, Name, Obj, Owner};

impl ObjectPool {
    /// Adds a queue of requests, which runs, as the newest child of an owner, and gives its number
    /// (`tevent_queue_create`).
    pub fn add_queue(&mut self, owner: Owner, name: Name) -> Obj
        requires ready { self.old.ready ≡ true }
        requires few { length self.old.pool.rows < row_limit }
        requires numbered { self.old.pool.next < 2 ^ 64 - 1 }
        requires owner { is_owner self.old.pool.rows owner ≡ true }
        ensures serial { result ≡ record { 0 = self.old.pool.next } }
        ensures added { self.new ≡ record self.old { pool = add_queue self.old.pool owner name; ready = false } }
    {
        self.ready = false;
        self.event = false;
        let queue = add_row(Kind::Queue, name, 0, owner, &mut self.tree, &mut self.sums);
        self.events.add_queue(queue);
        queue
    }

    /// Adds an entry for a request to a queue, behind all others, and gives its number; it is a child of the request
    /// (`tevent_queue_add_entry`). The trigger runs when its turn comes. The queue comes soon, where it runs and its
    /// first entry waits for its trigger.
    pub fn add_entry(&mut self, queue: Obj, x: Obj, trigger: Handler) -> Obj
        requires ready { self.old.ready ≡ true }
        requires few { length self.old.pool.rows < row_limit }
        requires numbered { self.old.pool.next < 2 ^ 64 - 1 }
        requires owner { is_owner self.old.pool.rows (Of x) ≡ true }
        requires queue { has_queue self.old.pool.queues queue ≡ true }
        ensures serial { result ≡ record { 0 = self.old.pool.next } }
        ensures added { self.new ≡ record self.old { pool = add_entry self.old.pool queue x trigger; ready = false } }
    {
        self.ready = false;
        self.event = false;
        let entry = add_row(
            Kind::Entry,
            Name::fixed(b"entry"),
            0,
            Owner::Of(x),
            &mut self.tree,
            &mut self.sums,
        );
        self.events.add_entry(queue, entry, x, trigger, &self.tree);
        entry
    }

    /// Starts a queue (`tevent_queue_start`). One that didn't run comes soon, where its first entry waits for its
    /// trigger.
    pub fn start_queue(&mut self, queue: Obj)
        requires { self.old.ready ≡ true }
        ensures { self.new ≡ record self.old { pool = starting queue self.old.pool; ready = false } }
    {
        self.ready = false;
        self.event = false;
        self.events.start(queue, &self.tree);
    }

    /// Stops a queue (`tevent_queue_stop`).
    pub fn stop_queue(&mut self, queue: Obj)
        ensures { self.new ≡ record self.old { pool = run_queue self.old.pool queue false } }
    {
        self.events.stop(queue);
    }

    /// How many queues there are.
    pub fn count_queues(&self) -> usize
        ensures { result ≡ length self.now.pool.queues.running }
    {
        self.events.queues().count()
    }

    /// The first entry of a queue. None exactly where it has none.
    pub fn first_entry(&self, queue: Obj) -> Option<Obj>
        ensures { result ≡ option_map object_of (head_of self.now.pool.queues queue) }
    {
        self.events.queues().head(queue)
    }

    /// Begins the trigger of a queue's first entry, where the queue runs and the trigger hasn't begun. None exactly
    /// where there is no such entry.
    pub fn trigger(&mut self, queue: Obj) -> Option<Turn>
        ensures turn { result ≡ option_map turn_of (next_of self.old.pool.queues queue) }
        ensures pool { self.new ≡ record self.old { pool = triggering (next_of self.old.pool.queues queue) self.old.pool } }
    {
        self.events.trigger(queue)
    }

    /// Whether a queue runs and its first entry waits for its trigger.
    pub fn queue_waits(&self, queue: Obj) -> bool
        ensures { result ≡ is_some (next_of self.now.pool.queues queue) }
    {
        self.events.queues().waits(queue)
    }

    /// How many entries a queue has (`tevent_queue_length`). It is 0 where it is none.
    pub fn queue_length(&self, queue: Obj) -> u64
        ensures { result ≡ length_of self.now.pool.queues queue }
    {
        self.events.queues().length(queue)
    }

    /// Whether a queue runs (`tevent_queue_running`). None exactly where it is none.
    pub fn queue_running(&self, queue: Obj) -> Option<bool>
        ensures { result ≡ running_of self.now.pool.queues queue }
    {
        self.events.queues().running(queue)
    }
}
