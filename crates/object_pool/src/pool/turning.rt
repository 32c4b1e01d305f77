//! Turns of the event loop: what comes next, and what a handler leaves.
ghost use Rattle.std.specs.Prelude.{◌≡◌, true, false};
ghost use Rattle.tree_specs.specs.declared.row.Mark.TheVariants.{Quiet};
ghost use Rattle.tree_specs.specs.Tree.Pool.{is_row, is_dying, soon_here, times_here, ring_here, set_mark as marked};
ghost use Rattle.tree_specs.specs.Promises.Grounded.{is_asked};
ghost use Rattle.tree_specs.specs.Events.Coming.{rotated, begun, comes_as, is_once, is_at_turn, handler_for, goes_after};
ghost use Rattle.loop_core.specs.Picks.{begin_pick, clock_pick, ready_pick};
ghost use Rattle.object_pool.specs.Upcoming.{pool_picked, started};

use crate::doomed::is_doomed;
use crate::pool::ObjectPool;
use loop_core::Pick;
use tree_specs::{Handler, Kind, Mark, Obj, Wants, What};

/// Whether an object of this kind comes as such an event.
fn comes_as(what: What, kind: Kind) -> bool
    ensures { result ≡ comes_as what kind }
{
    matches!(
        (what, kind),
        (What::Immediate, Kind::Immediate)
            | (What::Timer, Kind::Timer)
            | (What::Descriptor, Kind::Descriptor)
    )
}

/// Whether such an event comes once.
fn is_once(what: What) -> bool
    ensures { result ≡ is_once what }
{
    matches!(what, What::Timer)
}

impl ObjectPool {
    /// Begins to look what comes in the context whose turn is under way, and picks it. What was picked waits no more.
    pub fn begin_turn(&mut self) -> Pick
        ensures pick { result ≡ begin_pick (soon_here self.old.pool) (times_here self.old.pool) }
        ensures pool { self.new ≡ record self.old { pool = pool_picked result self.old.pool } }
    {
        self.events.begin()
    }

    /// Picks what comes once the clock has told the time, in microseconds, in a turn that has `waited` for descriptors
    /// before, or hasn't. What was picked waits no more.
    pub fn clock(&mut self, now: u64, waited: bool) -> Pick
        ensures pick { result ≡ clock_pick waited now (times_here self.old.pool) }
        ensures pool { self.new ≡ record self.old { pool = pool_picked result self.old.pool } }
    {
        self.events.clock(now, waited)
    }

    /// Picks what comes when these descriptors are ready.
    pub fn ready(&self, list: &Wants) -> Pick
        ensures { result ≡ ready_pick list.now (times_here self.now.pool) (ring_here self.now.pool) }
    {
        self.events.ready(list)
    }

    /// Whether it is the turn of a context: it is the first one, or one whose turn is under way.
    fn is_at_turn(&self, context: Obj) -> bool
        ensures { result ≡ is_at_turn self.now.pool context }
    {
        context == Obj::first_context()
            || self.tree.row(context).is_some_and(|row| {
                matches!(row.kind, Kind::Context) && matches!(row.mark, Mark::Busy)
            })
    }

    /// The handler that is to run where this object comes as such an event. None exactly where it is no such event with
    /// which nothing goes on, or has no handler, or it isn't the turn of the handler's context.
    fn handler_for(&self, what: What, x: Obj) -> Option<Handler>
        ensures { result ≡ handler_for self.now.pool what x }
    {
        let row = self.tree.row(x)?;
        if !(comes_as(what, row.kind) && row.mark == Mark::Quiet) {
            return None;
        }
        let handler = self.events.handler(x)?;
        if self.is_at_turn(handler.context) {
            Some(handler)
        } else {
            None
        }
    }

    /// Puts an event that comes behind all others, where it is one on a descriptor.
    fn rotate(&mut self, what: What, x: Obj)
        ensures { self.new ≡ record self.old { pool = rotated what x self.old.pool } }
    {
        if let What::Descriptor = what {
            self.events.turn_back(x);
        }
    }

    /// Makes an event busy whose handler starts. One on a descriptor is looked at after all others the next time.
    fn begin(&mut self, what: What, x: Obj)
        requires is { is_row self.old.pool.rows x ≡ true }
        requires live { is_dying self.old.pool.rows x ≡ false }
        requires unasked { is_asked self.old.pool x ≡ false }
        ensures { self.new ≡ record self.old { pool = begun what x self.old.pool } }
    {
        self.rotate(what, x);
        self.tree.set_mark(x, Mark::Busy);
    }

    /// Starts the handler of an object that comes as such an event: the object is busy from now on, and the handler is
    /// given. None exactly where it is no such event with which nothing goes on, or has no handler, or it isn't the turn of
    /// the handler's context; then nothing changes.
    pub fn start(&mut self, what: What, x: Obj) -> Option<Handler>
        ensures handler { result ≡ handler_for self.old.pool what x }
        ensures pool { self.new ≡ record self.old { pool = started result what x self.old.pool } }
    {
        let handler = self.handler_for(what, x);
        if handler.is_some() {
            self.begin(what, x);
        }
        handler
    }

    /// Ends the handler of an event, which has returned. The event is quiet again; answers whether it is to be freed
    /// now, as a timer is, and each event that was to be freed while its handler ran.
    pub fn finish(&mut self, what: What, x: Obj) -> bool
        requires is { is_row self.old.pool.rows x ≡ true }
        requires live { is_dying self.old.pool.rows x ≡ false }
        requires unasked { is_asked self.old.pool x ≡ false }
        ensures goes { result ≡ goes_after self.old.pool what x }
        ensures quiet { self.new ≡ record self.old { pool = marked self.old.pool x Quiet } }
    {
        let doomed = self.tree.row(x).is_some_and(|row| is_doomed(row.mark));
        self.tree.set_mark(x, Mark::Quiet);
        is_once(what) || doomed
    }
}
