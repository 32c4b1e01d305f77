//! What is kept of requests, beside what is to come of them.
ghost use Rattle.std.specs.Prelude.{◌≡◌, ◌≤◌, ◌<◌, true, false, None, length};
ghost use Rattle.tree_specs.specs.Events.Pending.{disarmed, is_numbered, unscheduled};
ghost use Rattle.tree_specs.specs.Events.Requests.{note_of, called_back, deferring, cleaned_by, cancelled_by, failed_with, cleanup_in};
ghost use Rattle.requests.specs.Register.{AreInOrder, notify_of, left_by, posted_by};
ghost use Rattle.object_pool.specs.Upcoming.{HasPlace, KeepsPlaces, KeepsContexts, holds_context, with_request, requested, posted, timed_under, finished};

use crate::events::Events;
use requests::Notify;
use tree_specs::{Handler, Note, Obj, State};

impl Events {
    /// What is kept of a request. None exactly where it is none.
    pub fn note(&self, x: Obj) -> Option<Note>
        ensures { result ≡ note_of self.now.upcoming.requests x }
    {
        self.requests.note(x)
    }

    /// How many requests there are. Their notes stand in the order of the numbers.
    pub fn count_requests(&self) -> usize
        ensures many { result ≡ length self.now.upcoming.requests }
        ensures order { AreInOrder self.now.upcoming.requests }
    {
        self.requests.len()
    }

    /// Adds a request, with the object that it was made with.
    pub fn create(&mut self, x: Obj, child: Obj)
        requires place { HasPlace self.old }
        requires new { note_of self.old.upcoming.requests x ≡ None }
        ensures upcoming { self.new.upcoming ≡ requested x child self.old.upcoming }
        ensures contexts { KeepsContexts self.old self.new }
    {
        self.requests.create(x, child);
    }

    /// Sets the routine that runs when a request is over, with a user number; 0 is none.
    pub fn set_callback(&mut self, x: Obj, routine: u32, user: u64)
        ensures upcoming { self.new.upcoming ≡ with_request (called_back routine user) x self.old.upcoming }
        ensures kept { KeepsPlaces self.old self.new }
        ensures contexts { KeepsContexts self.old self.new }
    {
        self.requests.set_callback(x, routine, user);
    }

    /// Sets the routine that runs when a request goes to a later state than the present one; 0 is none.
    pub fn set_cleanup(&mut self, x: Obj, routine: u32)
        ensures upcoming { self.new.upcoming ≡ with_request (cleaned_by routine) x self.old.upcoming }
        ensures kept { KeepsPlaces self.old self.new }
        ensures contexts { KeepsContexts self.old self.new }
    {
        self.requests.set_cleanup(x, routine);
    }

    /// Sets the routine that cancels a request; 0 is none.
    pub fn set_cancel(&mut self, x: Obj, routine: u32)
        ensures upcoming { self.new.upcoming ≡ with_request (cancelled_by routine) x self.old.upcoming }
        ensures kept { KeepsPlaces self.old self.new }
        ensures contexts { KeepsContexts self.old self.new }
    {
        self.requests.set_cancel(x, routine);
    }

    /// Defers the callback of a request: when it is over it comes soon in this context, and is notified only then.
    pub fn defer(&mut self, x: Obj, context: Obj)
        ensures upcoming { self.new.upcoming ≡ with_request (deferring context) x self.old.upcoming }
        ensures kept { KeepsPlaces self.old self.new }
        ensures contexts { KeepsContexts self.old self.new }
    {
        self.requests.defer(x, context);
    }

    /// Sets the number of a request's failure.
    pub fn set_error(&mut self, x: Obj, error: u64)
        ensures upcoming { self.new.upcoming ≡ with_request (failed_with error) x self.old.upcoming }
        ensures kept { KeepsPlaces self.old self.new }
        ensures contexts { KeepsContexts self.old self.new }
    {
        self.requests.set_error(x, error);
    }

    /// Sets the state of a request, and removes its end time.
    pub fn finish(&mut self, x: Obj, state: State)
        ensures upcoming { self.new.upcoming ≡ finished x state self.old.upcoming }
        ensures kept { KeepsPlaces self.old self.new }
        ensures contexts { KeepsContexts self.old self.new }
    {
        self.order.times.disarm(x);
        self.requests.set_state(x, state);
    }

    /// Gives the cleanup that is to run for a request's present state, which counts as run from then on. None exactly
    /// where none is to run.
    pub fn to_clean(&mut self, x: Obj) -> Option<Handler>
        ensures result { result ≡ cleanup_in (note_of self.old.upcoming.requests x) }
        ensures upcoming { self.new.upcoming ≡ record self.old.upcoming { requests = left_by result self.old.upcoming.requests x } }
        ensures kept { KeepsPlaces self.old self.new }
        ensures contexts { KeepsContexts self.old self.new }
    {
        self.requests.to_clean(x)
    }

    /// Gives what is done where a request is over. One that was to come soon is deferred no more.
    pub fn to_notify(&mut self, x: Obj) -> Notify
        ensures result { result ≡ notify_of (note_of self.old.upcoming.requests x) }
        ensures upcoming { self.new.upcoming ≡ record self.old.upcoming { requests = posted_by result self.old.upcoming.requests x } }
        ensures kept { KeepsPlaces self.old self.new }
        ensures contexts { KeepsContexts self.old self.new }
    {
        self.requests.to_notify(x)
    }

    /// Puts an object behind all others that come soon in a context. One that waits already goes to the end.
    pub fn post(&mut self, x: Obj, context: Obj)
        requires place { HasPlace self.old }
        requires context { holds_context self.old context ≡ true }
        ensures upcoming { self.new.upcoming ≡ posted x context self.old.upcoming }
        ensures contexts { KeepsContexts self.old self.new }
    {
        self.order.soon.push(x, context);
    }

    /// Sets the time at which an object comes in a context, in microseconds. No other time has this number.
    pub fn set_time(&mut self, x: Obj, time: u64, number: u64, context: Obj)
        requires place { HasPlace self.old }
        requires context { holds_context self.old context ≡ true }
        requires number { is_numbered (disarmed self.old.upcoming.times x) number ≡ false }
        ensures upcoming { self.new.upcoming ≡ timed_under x time number context self.old.upcoming }
        ensures contexts { KeepsContexts self.old self.new }
    {
        self.order.times.arm(x, time, number, context);
    }
}
