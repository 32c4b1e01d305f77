//! Frees on the objects: their beginnings, and what comes next of the innermost one.
ghost use Rattle.std.specs.Prelude.{◌≡◌, ◌∷◌, ◌≤◌, List, true, None, Some, IfSome, OnSome, is_some, slice_get};
ghost use Rattle.tree_specs.specs.declared.free_step.FreeStep.TheVariants.{Done};
ghost use Rattle.tree_specs.specs.declared.watch.Watch.{Watch as WatchData};
ghost use Rattle.tree_specs.specs.declared.frame.FreeFrame.TheVariants.{Unlinking, Beginning, Looping};
ghost use Rattle.tree_specs.specs.declared.frame.Purpose.TheVariants.{Emptying};
ghost use Rattle.tree_specs.specs.Tree.Pool.{target_at};
ghost use Rattle.tree_specs.specs.Tree.Targets.{newest_ref};
ghost use Rattle.tree_specs.specs.Machine.Table.{event_of};
ghost use Rattle.destructors.specs.Frees.{frees_of, next_of, is_event, let_go_by, returned, speaking, Begins, Steps};
ghost use Rattle.destructors.specs.Works.{IsAtWork, IsAwaiting, GoesOn};
ghost use Rattle.destructors.specs.Moves.{IsLiveRow};
ghost use Rattle.destructors.specs.Engine.{AreKept, IsAsked, ended_with};
ghost use Rattle.references.specs.Rows.{AreRefsOf};
ghost use Rattle.object_pool.specs.Objects.{frees_in, LeavesRest, MayBeginFree};
ghost use Rattle.object_pool.specs.Upcoming.{closed_of, upcoming_in, without_left, HoldsUsable, KeepsPlaces, KeepsContexts, MayForget};
ghost use Rattle.object_pool.specs.Requests.{count_unreceived};

use crate::counting::count_step;
use crate::events::Events;
use crate::pool::ObjectPool;
use destructors::FreeEngine;
use references::Refs;
use tree_links::Tree;
use tree_specs::{Event, FreeReply, FreeStep, Obj, Owner};

/// What comes next of a free: the step, and the event that is told of it, if there is one.
#[derive(Drop)]
pub struct Progress {
    pub step: FreeStep,
    pub event: Option<Event>,
}

/// The event that is told of a step of a free which has closed this descriptor, or none.
#[tactic(auto, using(crate::proofs::Announcing::closed_told))]
fn event(step: &FreeStep, closed: Option<u32>) -> Option<Event>
    ensures { (ring : List WatchData) → closed ≡ closed_of ring (let_go_by (Some step.now)) → result ≡ event_of ring step.now }
{
    match *step {
        FreeStep::Dropped { reference, target } => Some(Event::Unreferenced { reference, target }),
        FreeStep::Refused { object, answer } => Some(Event::Refused { object, answer }),
        FreeStep::Accepted(object) => Some(Event::Accepted(object)),
        FreeStep::Moved { object, owner, .. } => Some(Event::Moved { object, owner }),
        FreeStep::Gone { object, hook } => Some(Event::Freed { object, hook }),
        FreeStep::Doom(_) | FreeStep::Left { .. } => closed.map(Event::Closed),
        FreeStep::Ask(_) | FreeStep::Prepare(_) | FreeStep::Drain(_) | FreeStep::Done(_) => None,
    }
}

/// Lets go of what the next step of the innermost free lets go of: it waits no more. Gives the descriptor that was closed,
/// where one was. This comes before the step, since a queue comes soon by the contexts as they are before it.
fn let_go_next(engine: &FreeEngine, tree: &Tree, refs: &Refs, events: &mut Events) -> Option<u32>
    requires refs { AreRefsOf refs.now.pairs tree.now.rows }
    requires kept { AreKept engine.now tree.now }
    requires settled { speaking (frees_of engine.now tree.now) ≡ true }
    requires usable { HoldsUsable tree.now.rows events.old }
    ensures closed { result ≡ closed_of events.old.upcoming.ring (let_go_by (next_of (frees_of engine.now tree.now)).0) }
    ensures upcoming { events.new.upcoming ≡ without_left tree.now.rows (let_go_by (next_of (frees_of engine.now tree.now)).0) events.old.upcoming }
    ensures kept { KeepsPlaces events.old events.new }
    ensures contexts { KeepsContexts events.old events.new }
{
    let x = engine.lets_go(tree, refs)?;
    events.let_go(x, tree)
}

impl ObjectPool {
    /// Begins the freeing of an object to which there is no reference. The memory for a call is taken before. Where no free
    /// is open, or the innermost one waits until a request was received or a queue has no entries, the memory for the
    /// works is there.
    pub fn begin_free(&mut self, x: Obj)
        requires room { MayBeginFree self.old }
        requires awaiting { IsAwaiting (frees_in self.old) }
        requires object { target_at self.old.pool.rows x ≡ None }
        requires unheld { newest_ref self.old.pool.rows x ≡ None }
        ensures begins { Begins (Beginning x ∷ self.old.works) self.old.pool (frees_in self.new) }
        ensures at_work { IsAtWork (frees_in self.new) }
        ensures requests { self.new.pool.requests ≡ self.old.pool.requests }
        ensures rest { LeavesRest self.old self.new }
    {
        self.ready = false;
        self.engine.begin_free(&mut self.tree, &mut self.refs, x);
    }

    /// Begins to take the interest of an owner in an object away.
    pub fn begin_unlink(&mut self, owner: Owner, x: Obj)
        requires room { MayBeginFree self.old }
        requires awaiting { IsAwaiting (frees_in self.old) }
        requires live { IsLiveRow self.old.pool x }
        requires object { target_at self.old.pool.rows x ≡ None }
        ensures begins { Begins (Unlinking owner x ∷ self.old.works) self.old.pool (frees_in self.new) }
        ensures at_work { IsAtWork (frees_in self.new) }
        ensures requests { self.new.pool.requests ≡ self.old.pool.requests }
        ensures rest { LeavesRest self.old self.new }
    {
        self.ready = false;
        self.engine
            .begin_unlink(&mut self.tree, &mut self.refs, owner, x);
    }

    /// Begins the freeing of an object's children. The object itself stays.
    pub fn begin_kids(&mut self, x: Obj)
        requires ready { self.old.ready ≡ true }
        requires awaiting { IsAwaiting (frees_in self.old) }
        ensures begins { Begins (Looping x Emptying ∷ self.old.works) self.old.pool (frees_in self.new) }
        ensures at_work { IsAtWork (frees_in self.new) }
        ensures requests { self.new.pool.requests ≡ self.old.pool.requests }
        ensures rest { LeavesRest self.old self.new }
    {
        self.ready = false;
        self.engine.begin_kids(&mut self.tree, &mut self.refs, x);
    }

    /// Answers the innermost free, which waits for a destructor, with the number that this has returned.
    pub fn answer(&mut self, value: u32)
        requires asked { IsAsked (slice_get self.old.works 0) }
        requires awaiting { IsAwaiting (frees_in self.old) }
        ensures returned { self.new ≡ record self.old { works = returned value (frees_in self.old) } }
        ensures settles { speaking (frees_in self.new) ≡ true }
        ensures at_work { IsAtWork (frees_in self.new) }
    {
        self.engine.answer(&self.tree, value);
    }

    /// Whether a free is open.
    pub fn is_freeing(&self) -> bool
        ensures { result ≡ is_some (slice_get self.now.works 0) }
    {
        self.engine.is_open()
    }

    /// Whether the next step of the innermost free tells an event.
    pub fn announces(&self) -> bool
        requires { speaking (frees_in self.now) ≡ true }
        ensures { result ≡ is_event self.now.pool.ring (next_of (frees_in self.now)).0 }
    {
        match self.engine.lets_go(&self.tree, &self.refs) {
            Some(x) => self.events.closes_with(x).is_some(),
            None => self.engine.announces(&self.tree, &self.refs),
        }
    }

    /// Ends the innermost free where it is over, and gives its answer, as a step that is `Done` does. None, with
    /// nothing done, where it isn't.
    pub fn end_free(&mut self) -> Option<FreeReply>
        requires at_work { IsAtWork (frees_in self.old) }
        requires settled { speaking (frees_in self.old) ≡ true }
        ensures answer { result ≡ ended_with (slice_get self.old.works 0) }
        ensures steps { IfSome result (λ answer. Steps (frees_in self.old) (Done answer) (frees_in self.new)) }
        ensures goes_on { OnSome result (IsAwaiting (frees_in self.new)) }
        ensures requests { self.new.pool.requests ≡ self.old.pool.requests }
        ensures rest { OnSome result (LeavesRest self.old self.new) }
        ensures none { result ≡ None → self.new ≡ self.old }
    {
        let answer = self.engine.end_free(&mut self.tree)?;
        self.ready = false;
        Some(answer)
    }

    /// Makes the next step of the innermost free.
    pub fn step(&mut self) -> Progress
        requires at_work { IsAtWork (frees_in self.old) }
        requires settled { speaking (frees_in self.old) ≡ true }
        requires forgettable { MayForget (next_of (frees_in self.old)).0 (upcoming_in self.old.pool) }
        ensures steps { Steps (frees_in self.old) result.step (frees_in self.new) }
        ensures goes_on { GoesOn result.step (frees_in self.new) }
        ensures told { result.event ≡ event_of self.old.pool.ring result.step }
        ensures requests { count_unreceived self.new.pool.requests ≤ count_unreceived self.old.pool.requests }
        ensures rest { LeavesRest self.old self.new }
    {
        // Read for the prover: the contract of `len` says that the objects are a forest.
        let _rows = self.tree.len();
        self.ready = false;
        let closed = let_go_next(&self.engine, &self.tree, &self.refs, &mut self.events);
        let step = self.engine.step(&mut self.tree, &mut self.refs);
        count_step(&step, &self.tree, &mut self.sums);
        self.events.follow(&step);
        let event = event(&step, closed);
        Progress { step, event }
    }
}
