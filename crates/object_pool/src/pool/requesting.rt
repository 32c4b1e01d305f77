//! Requests: what is kept of them, and what they leave.
ghost use Rattle.std.specs.Prelude.{◌≡◌, ◌+◌, ◌-◌, ◌^◌, ◌<◌, ◌≤◌, ◌∷◌, true, false, List, length, slice_get};
ghost use Rattle.tree_specs.specs.Tree.Pool.{is_owner, is_usable, add_request, renote, schedule as scheduled, finish, receive};
ghost use Rattle.tree_specs.specs.Events.Requests.{note_of, called_back, deferring, cleaned_by, cancelled_by, failed_with, cancel_in, cleanup_in, is_unreceived};
ghost use Rattle.tree_specs.specs.Calls.Refusals.{row_limit, size_limit};
ghost use Rattle.tree_specs.specs.Calls.Plans.Change.{Then, Arm, TakeNumber};
ghost use Rattle.tree_specs.specs.Calls.Plans.{changed_by};
ghost use Rattle.destructors.specs.Frees.{prepared as prepared_works, Begins};
ghost use Rattle.destructors.specs.Works.{IsAtWork, IsAwaiting};
ghost use Rattle.destructors.specs.Engine.{IsPreparing};
ghost use Rattle.object_pool.specs.Objects.{frees_in, LeavesRest};
ghost use Rattle.object_pool.specs.Requests.{cleaning, notifying, count_unreceived};
ghost use Rattle.requests.specs.Register.{AreInOrder, notify_of};

use crate::counting::add_row;
use crate::pool::ObjectPool;
use requests::Notify;
use tree_specs::{Handler, Kind, Name, Note, Obj, Owner, State};

impl ObjectPool {
    /// What is kept of a request. None exactly where it is none.
    pub fn note(&self, x: Obj) -> Option<Note>
        ensures { result ≡ note_of self.now.pool.requests x }
    {
        self.events.note(x)
    }

    /// Whether a request is still to be received. False where it is none.
    pub fn is_unreceived(&self, x: Obj) -> bool
        ensures { result ≡ is_unreceived (note_of self.now.pool.requests x) }
    {
        self.events
            .note(x)
            .is_some_and(|note| note.state != State::Received)
    }

    /// How many requests there are: at least as many as are still to be received. Their notes stand in the order of the
    /// numbers.
    pub fn count_requests(&self) -> usize
        ensures many { count_unreceived self.now.pool.requests ≤ result }
        ensures order { AreInOrder self.now.pool.requests }
    {
        self.events.count_requests()
    }

    /// Adds a request in progress as the newest child of an owner, and below it a plain object with this size in bytes
    /// and this name; gives the number of the request, after which comes that of the object (`tevent_req_create`).
    pub fn add_request(&mut self, owner: Owner, size: u64, name: Name) -> Obj
        requires ready { self.old.ready ≡ true }
        requires few { length self.old.pool.rows + 1 < row_limit }
        requires small { size < size_limit }
        requires numbered { self.old.pool.next + 1 < 2 ^ 64 - 1 }
        requires owner { is_owner self.old.pool.rows owner ≡ true }
        ensures serial { result ≡ record { 0 = self.old.pool.next } }
        ensures added { self.new ≡ record self.old { pool = add_request self.old.pool owner size name; ready = false } }
    {
        self.ready = false;
        self.event = false;
        let tree = &mut self.tree;
        let request = add_row(
            Kind::Request,
            Name::fixed(b"req"),
            0,
            owner,
            tree,
            &mut self.sums,
        );
        let child = add_row(
            Kind::Plain,
            name,
            size,
            Owner::Of(request),
            tree,
            &mut self.sums,
        );
        self.events.create(request, child);
        request
    }

    /// Sets the routine that runs when a request is over, with a user number; 0 is none (`tevent_req_set_callback`).
    pub fn set_callback(&mut self, x: Obj, routine: u32, user: u64)
        ensures { self.new ≡ record self.old { pool = renote self.old.pool x (called_back routine user) } }
    {
        self.events.set_callback(x, routine, user);
    }

    /// Sets the routine that runs when a request goes to a later state than the present one; 0 is none
    /// (`tevent_req_set_cleanup_fn`).
    pub fn set_cleanup(&mut self, x: Obj, routine: u32)
        ensures { self.new ≡ record self.old { pool = renote self.old.pool x (cleaned_by routine) } }
    {
        self.events.set_cleanup(x, routine);
    }

    /// Sets the routine that cancels a request; 0 is none (`tevent_req_set_cancel_fn`).
    pub fn set_cancel(&mut self, x: Obj, routine: u32)
        ensures { self.new ≡ record self.old { pool = renote self.old.pool x (cancelled_by routine) } }
    {
        self.events.set_cancel(x, routine);
    }

    /// Defers the callback of a request: when it is over it comes soon in this context, and is notified only then
    /// (`tevent_req_defer_callback`).
    pub fn defer(&mut self, x: Obj, context: Obj)
        ensures { self.new ≡ record self.old { pool = renote self.old.pool x (deferring context) } }
    {
        self.events.defer(x, context);
    }

    /// Sets the number of a request's failure.
    pub fn set_error(&mut self, x: Obj, error: u64)
        ensures { self.new ≡ record self.old { pool = renote self.old.pool x (failed_with error) } }
    {
        self.events.set_error(x, error);
    }

    /// Posts a request: it comes soon in a context, after all others (`tevent_req_post`). One that waits already goes to
    /// the end.
    pub fn post(&mut self, x: Obj, context: Obj)
        requires ready { self.old.ready ≡ true }
        requires context { is_usable self.old.pool.rows context ≡ true }
        ensures { self.new ≡ record self.old { pool = scheduled self.old.pool x context; ready = false } }
    {
        self.ready = false;
        self.event = false;
        self.events.post(x, context);
    }

    /// Sets the time, in microseconds, at which a request times out in a context if it isn't over before
    /// (`tevent_req_set_endtime`). Among equal times it comes in the order of the calls, for which it gets a number that no
    /// object gets.
    pub fn set_end_time(&mut self, x: Obj, time: u64, context: Obj)
        requires ready { self.old.ready ≡ true }
        requires numbered { self.old.pool.next < 2 ^ 64 - 1 }
        requires context { is_usable self.old.pool.rows context ≡ true }
        ensures { self.new ≡ record self.old { pool = changed_by (Then (Arm x time self.old.pool.next context) TakeNumber) self.old.pool; ready = false } }
    {
        self.ready = false;
        self.event = false;
        let Some(number) = self.tree.take_number() else {
            unreachable!()
        };
        self.events.set_time(x, time, number, context);
    }

    /// Sets the state of a request, and removes its end time.
    pub fn finish_request(&mut self, x: Obj, state: State)
        ensures { self.new ≡ record self.old { pool = finish self.old.pool x state } }
    {
        self.events.finish(x, state);
    }

    /// Marks a request as received. It comes no more.
    pub fn receive_request(&mut self, x: Obj)
        ensures { self.new ≡ record self.old { pool = receive self.old.pool x } }
    {
        self.events.unschedule(x);
        self.events.finish(x, State::Received);
    }

    /// The routine that cancels a request. None where it has none, was received, or is none.
    pub fn cancel_routine(&self, x: Obj) -> Option<Handler>
        ensures { result ≡ cancel_in (note_of self.now.pool.requests x) }
    {
        let note = self.events.note(x)?;
        if note.state == State::Received || note.cancel == 0 {
            return None;
        }
        Some(Handler {
            routine: note.cancel,
            user: 0,
            context: Obj::first_context(),
        })
    }

    /// Gives the cleanup that is to run for a request's present state, which counts as run from then on. None exactly
    /// where none is to run.
    pub fn to_clean(&mut self, x: Obj) -> Option<Handler>
        ensures result { result ≡ cleanup_in (note_of self.old.pool.requests x) }
        ensures pool { self.new ≡ record self.old { pool = cleaning x result self.old.pool } }
    {
        self.events.to_clean(x)
    }

    /// Gives what is done where a request is over. One whose callback is deferred comes soon from now on in the context
    /// that was kept for this, where this is usable, and is deferred no more.
    pub fn to_notify(&mut self, x: Obj) -> Notify
        requires { self.old.ready ≡ true }
        ensures result { result ≡ notify_of (note_of self.old.pool.requests x) }
        ensures pool { self.new ≡ notifying x result self.old }
    {
        let notify = self.events.to_notify(x);
        if let Notify::Post(context) = notify {
            if self.is_usable(context) {
                self.post(x, context);
            }
            self.ready = false;
        }
        notify
    }

    /// Lets the innermost free go on, which has waited for what comes before the freeing of a request or of a queue.
    pub fn prepared(&mut self)
        requires preparing { IsPreparing (slice_get self.old.works 0) }
        requires awaiting { IsAwaiting (frees_in self.old) }
        ensures begins { Begins (prepared_works self.old.works) self.old.pool (frees_in self.new) }
        ensures at_work { IsAtWork (frees_in self.new) }
        ensures requests { self.new.pool.requests ≡ self.old.pool.requests }
        ensures rest { LeavesRest self.old self.new }
    {
        self.ready = false;
        self.engine.prepared(&mut self.tree, &mut self.refs);
    }
}
