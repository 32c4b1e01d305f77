//! Events that wait for their turn.
ghost use Rattle.std.specs.Prelude.{◌≡◌, ◌+◌, ◌-◌, ◌^◌, ◌<◌, true, false, length};
ghost use Rattle.tree_specs.specs.Events.Pending.{soon_in, times_in};
ghost use Rattle.tree_specs.specs.Events.Rotation.{ring_in};
ghost use Rattle.tree_specs.specs.declared.kind.Kind.TheVariants.{Timer};
ghost use Rattle.tree_specs.specs.Tree.Pool.{is_owner, is_usable, set_handler as handled, schedule as scheduled, unschedule as unscheduled};
ghost use Rattle.tree_specs.specs.Calls.Refusals.{row_limit};
ghost use Rattle.tree_specs.specs.Calls.Plans.{adds_timer, changed_by};

use crate::counting::add_row;
use crate::pool::ObjectPool;
use tree_specs::{Handler, Kind, Name, Obj, Owner};

impl ObjectPool {
    /// Schedules an event: it comes soon in the handler's context, after all others, and the handler runs then. One that
    /// waits already goes to the end.
    pub fn schedule(&mut self, x: Obj, handler: Handler)
        requires ready { self.old.ready ≡ true }
        requires context { is_usable self.old.pool.rows handler.context ≡ true }
        ensures { self.new ≡ record self.old { pool = scheduled (handled self.old.pool x handler) x handler.context; ready = false } }
    {
        self.ready = false;
        self.event = false;
        self.events.schedule(x, handler);
    }

    /// Takes an event out of those that come soon. Nothing changes where it isn't among them.
    pub fn unschedule(&mut self, x: Obj)
        ensures { self.new ≡ record self.old { pool = unscheduled self.old.pool x } }
    {
        self.events.unschedule(x);
    }

    /// Adds a timer as the newest child of an owner, and gives its number. It comes at a time in the handler's context, in
    /// microseconds, and the handler runs then.
    pub fn add_timer(&mut self, owner: Owner, time: u64, handler: Handler) -> Obj
        requires ready { self.old.ready ≡ true }
        requires few { length self.old.pool.rows < row_limit }
        requires numbered { self.old.pool.next < 2 ^ 64 - 1 }
        requires owner { is_owner self.old.pool.rows owner ≡ true }
        requires context { is_usable self.old.pool.rows handler.context ≡ true }
        ensures serial { result ≡ record { 0 = self.old.pool.next } }
        ensures added { self.new ≡ record self.old { pool = changed_by (adds_timer self.old.pool owner time handler) self.old.pool; ready = false } }
    {
        self.ready = false;
        self.event = false;
        let name = Name::fixed(b"timer");
        let timer = add_row(Kind::Timer, name, 0, owner, &mut self.tree, &mut self.sums);
        self.events.arm(timer, time, handler);
        timer
    }

    /// How many events wait for their turn in a context. Where the memory for a call is taken, they can be counted.
    pub fn pending(&self, context: Obj) -> u64
        requires { self.now.ready ≡ true }
        ensures { result ≡ length (soon_in self.now.pool.soon context) + length (times_in self.now.pool.times context) + length (ring_in self.now.pool.ring context) }
    {
        self.events.pending(context)
    }
}
