//! `Requests`: what is kept of each request beside its row (`Note`): its state, the number of its failure, the routines
//! that run for it, and the object that it was made with. A note is found in the same time however many there are.
//!
//! Contracts see the notes by the numbers of their requests, and for how many more there is memory (`spare`).
//!
//! Nothing runs here: the calls say what is to run, and `working.rt` of `host_core` goes on with it.
ghost use Rattle.std.specs.Prelude.{◌≡◌};
ghost use Rattle.tree_specs.specs.Events.Requests.{routine_of, new_note, cleanup_of};

use pool_arena::Arena;
use std::alloc::Global;
use std::marker::Model;
use tree_specs::{Handler, Memory, Note, Obj, State};

/// The notes of all requests, each found in the same time however many there are. Contracts see them by the numbers of
/// their requests, and spare: so many can be added without taking memory. Only `reserve` takes memory.
#[derive(Drop)]
pub struct Requests {
    notes: Arena<Note>,
}

impl Model for Requests {
    ghost use Rattle.std.specs.FinMap.{entries};
    ghost use Rattle.requests.specs.Register.{Register};

    ghost Value = { Register };

    ghost view = { λ r. record { notes = entries r.notes.pairs; spare = r.notes.spare } };
}

/// What is done where a request is over (`tevent_req_notify_callback`).
#[derive(Clone, Copy, Debug, PartialEq, Eq)]
pub enum Notify {
    /// It comes soon in this context, where it can, and is notified then.
    Post(Obj),
    /// Its callback runs.
    Run(Handler),
    /// Nobody waits for it, or it is no request.
    Nothing,
}

/// A routine with its user number, where 0 is no routine. It runs in whatever context its request is over.
fn handler(routine: u32, user: u64) -> Option<Handler>
    ensures { result ≡ routine_of routine user }
{
    if routine == 0 {
        None
    } else {
        Some(Handler {
            routine,
            user,
            context: Obj::first_context(),
        })
    }
}

/// The note of a new request, which was made with this object.
fn new_note(child: Obj) -> Note
    ensures { result ≡ new_note child }
{
    Note {
        state: State::InProgress,
        error: 0,
        callback: None,
        deferred: None,
        cleanup: 0,
        cleaned: 0,
        cancel: 0,
        child,
    }
}

/// The cleanup that is to run for a request's present state, with the state's number as its user number. None where the
/// request has no cleanup, or this has run for the state.
fn cleanup_of(note: &Note) -> Option<Handler>
    ensures { result ≡ cleanup_of note.now }
{
    let state = note.state.number();
    if note.cleaned < state {
        handler(note.cleanup, u64::from(state))
    } else {
        None
    }
}

#[tactic(auto, using(pool_arena::proofs::NumberMaps::none_listed, pool_arena::proofs::NumberMaps::put_listed, pool_arena::proofs::NumberMaps::removed_listed, pool_arena::proofs::NumberMaps::found_listed, pool_arena::proofs::NumberMaps::many_listed))]
impl Requests {
    ghost use Rattle.std.specs.Prelude.{◌+◌, ◌<◌, ◌≤◌, OnOk, None, is_some, length};
    ghost use Rattle.tree_specs.specs.Events.Requests.{no_notes, note_of, is_noted, with_note, without_note, renoted, called_back, deferring, not_deferring, cleaned_by, cleaned, cancelled_by, failed_with, in_state, cleanup_in};
    ghost use Rattle.requests.specs.Register.{AreInOrder, notify_of, left_by, posted_by};

    /// No requests.
    pub fn new(alloc: Global) -> Requests
        ensures { result.notes ≡ no_notes }
    {
        Requests {
            notes: Arena::new(alloc),
        }
    }

    /// How many requests there are. Their notes stand in the order of the numbers.
    pub fn len(&self) -> usize
        ensures many { result ≡ length self.now.notes }
        ensures order { AreInOrder self.now.notes }
    {
        self.notes.len()
    }

    /// Takes memory for so many more requests. If memory runs out, they are as they were.
    pub fn reserve(&mut self, more: usize) -> Result<(), Memory>
        ensures notes { self.new.notes ≡ self.old.notes }
        ensures spare { OnOk result (more ≤ self.new.spare) }
        ensures kept { self.old.spare ≤ self.new.spare }
    {
        self.notes.reserve(more)?;
        Ok(())
    }

    /// What is kept of a request. None exactly where it is none.
    pub fn note(&self, x: Obj) -> Option<Note>
        ensures { result ≡ note_of self.now.notes x }
    {
        self.notes.get(x.0).copied()
    }

    /// Adds a request, which is in progress, with the object that it was made with.
    pub fn create(&mut self, x: Obj, child: Obj)
        requires new { note_of self.old.notes x ≡ None }
        requires room { 0 < self.old.spare }
        ensures notes { self.new.notes ≡ with_note self.old.notes x (new_note child) }
        ensures spare { self.old.spare ≤ self.new.spare + 1 }
    {
        self.notes.add(x.0, new_note(child));
    }

    /// Forgets a request. Nothing changes where it is none.
    pub fn forget(&mut self, x: Obj)
        ensures notes { self.new.notes ≡ without_note self.old.notes x }
        ensures spare { self.old.spare ≤ self.new.spare }
    {
        self.notes.take(x.0);
    }

    /// Sets what is kept of a request. Nothing changes where it is none.
    fn set(&mut self, x: Obj, note: Note)
        ensures notes { self.new.notes ≡ renoted (λ before. note) self.old.notes x }
        ensures spare { self.new.spare ≡ self.old.spare }
    {
        if let Some(present) = self.notes.get_mut(x.0) {
            *present = note;
        }
    }

    /// Sets the state of a request.
    pub fn set_state(&mut self, x: Obj, state: State)
        ensures notes { self.new.notes ≡ renoted (in_state state) self.old.notes x }
        ensures spare { self.new.spare ≡ self.old.spare }
    {
        if let Some(mut note) = self.note(x) {
            note.state = state;
            self.set(x, note);
        }
    }

    /// Sets the number of a request's failure.
    pub fn set_error(&mut self, x: Obj, error: u64)
        ensures notes { self.new.notes ≡ renoted (failed_with error) self.old.notes x }
        ensures spare { self.new.spare ≡ self.old.spare }
    {
        if let Some(mut note) = self.note(x) {
            note.error = error;
            self.set(x, note);
        }
    }

    /// Sets the routine that runs when a request is over, with a user number; 0 is none (`tevent_req_set_callback`).
    pub fn set_callback(&mut self, x: Obj, routine: u32, user: u64)
        ensures notes { self.new.notes ≡ renoted (called_back routine user) self.old.notes x }
        ensures spare { self.new.spare ≡ self.old.spare }
    {
        if let Some(mut note) = self.note(x) {
            note.callback = handler(routine, user);
            self.set(x, note);
        }
    }

    /// Sets the routine that runs when a request goes to a later state than the present one; 0 is none
    /// (`tevent_req_set_cleanup_fn`).
    pub fn set_cleanup(&mut self, x: Obj, routine: u32)
        ensures notes { self.new.notes ≡ renoted (cleaned_by routine) self.old.notes x }
        ensures spare { self.new.spare ≡ self.old.spare }
    {
        if let Some(mut note) = self.note(x) {
            note.cleanup = routine;
            note.cleaned = note.state.number();
            self.set(x, note);
        }
    }

    /// Sets the routine that cancels a request; 0 is none (`tevent_req_set_cancel_fn`).
    pub fn set_cancel(&mut self, x: Obj, routine: u32)
        ensures notes { self.new.notes ≡ renoted (cancelled_by routine) self.old.notes x }
        ensures spare { self.new.spare ≡ self.old.spare }
    {
        if let Some(mut note) = self.note(x) {
            note.cancel = routine;
            self.set(x, note);
        }
    }

    /// Defers the callback of a request: when it is over it comes soon in this context, and is notified only then
    /// (`tevent_req_defer_callback`).
    pub fn defer(&mut self, x: Obj, context: Obj)
        ensures notes { self.new.notes ≡ renoted (deferring context) self.old.notes x }
        ensures spare { self.new.spare ≡ self.old.spare }
    {
        if let Some(mut note) = self.note(x) {
            note.deferred = Some(context);
            self.set(x, note);
        }
    }

    /// Gives the cleanup that is to run for a request's present state, which counts as run from then on. None exactly
    /// where none is to run.
    pub fn to_clean(&mut self, x: Obj) -> Option<Handler>
        ensures result { result ≡ cleanup_in (note_of self.old.notes x) }
        ensures notes { self.new.notes ≡ left_by result self.old.notes x }
        ensures spare { self.new.spare ≡ self.old.spare }
    {
        let mut note = self.note(x)?;
        let cleanup = cleanup_of(&note)?;
        note.cleaned = note.state.number();
        self.set(x, note);
        Some(cleanup)
    }

    /// Gives what is done where a request is over. One that was to come soon is deferred no more.
    pub fn to_notify(&mut self, x: Obj) -> Notify
        ensures result { result ≡ notify_of (note_of self.old.notes x) }
        ensures notes { self.new.notes ≡ posted_by result self.old.notes x }
        ensures spare { self.new.spare ≡ self.old.spare }
    {
        let Some(mut note) = self.note(x) else {
            return Notify::Nothing;
        };
        if let Some(context) = note.deferred {
            note.deferred = None;
            self.set(x, note);
            return Notify::Post(context);
        }
        match note.callback {
            Some(handler) => Notify::Run(handler),
            None => Notify::Nothing,
        }
    }
}
