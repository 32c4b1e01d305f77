//! `Host`: objects, their frees and an event loop as one value, with no input or output of its own. Whoever uses it
//! gives it calls and answers (`call`, `offer`), and takes from it events (`next`) and the question that is open
//! (`question`).
//!
//! Contracts see a `View`: the works that are open, the innermost first, over a pool of objects. From these follow the
//! open question and the story still to come (`rest_of`): an event that `next` gives is the first item of that story.
//!
//! Read on in `offered.rt` (an answer is taken), `calls.rt` and `refusals.rt` (a call is done or refused), and
//! `works.rt` (the steps up to the next event or question).
ghost use Rattle.object_pool.specs.Requests.{count_unreceived};
ghost use Rattle.requests.specs.Register.{AreInOrder};
ghost use Rattle.host_core.specs.Hosts.{IsSettled, Tells};
ghost use Rattle.std.specs.Prelude.{◌≡◌, ◌+◌, ◌*◌, ◌≤◌, ◌<◌, ◌↔◌, true, Some, Err, IsTrue, IsSome, IfOk, OnOk, OnErr, length, vec_capacity};
ghost use Rattle.std.specs.Option.{option_copied};
ghost use Rattle.tree_specs.specs.declared.schedule.Reason.TheVariants as reasons;
ghost use Rattle.tree_specs.specs.Texts.Schedule.{misfit};
ghost use Rattle.tree_specs.specs.declared.question.Ask.TheVariants.{Quiet};
ghost use Rattle.tree_specs.specs.Words.Ranges.{is_sound, is_sound_call};
ghost use Rattle.tree_specs.specs.Machine.View.{begin, question_of};

use crate::active::Active;
use crate::caller::{Caller, Stage};
use crate::fault::OfferFault;
use crate::offered::{answer_on, begin_call};
use crate::parts::Parts;
use crate::reach::is_bytes;
use crate::replies::{read_on, report_for};
use crate::reports::report_owner;
use crate::working::tell_work;
use crate::works::settle;
use object_pool::ObjectPool;
use std::alloc::Global;
use std::marker::Model;
use tree_specs::{Ask, Call, Event, Input, Kind, Memory, Obj, Owner, Reply, Want};

/// Takes the memory for all that comes up to the next question: each request that wasn't received and each queue may
/// need two places, what is at work four, and a turn at its end one. If memory runs out, the works and the objects are as they were.
fn make_room(parts: &mut Parts) -> Result<(), Memory>
    ensures waiting { parts.new.waiting.items ≡ parts.old.waiting.items }
    ensures kept { vec_capacity parts.old.waiting ≤ vec_capacity parts.new.waiting }
    ensures places { OnOk result (length parts.new.waiting.items + 2 * (count_unreceived parts.old.objects.pool.requests + length parts.old.objects.pool.queues.running) + 5 ≤ vec_capacity parts.new.waiting) }
    ensures ok { OnOk result (parts.new.objects ≡ record parts.old.objects { ready = true }) }
    ensures err { OnErr result (parts.new.objects ≡ parts.old.objects) }
    ensures order { AreInOrder parts.old.objects.pool.requests }
{
    let requests = parts.objects.count_requests();
    let most = requests
        .checked_add(parts.objects.count_queues())
        .ok_or(Memory)?;
    let places = most.checked_mul(2).ok_or(Memory)?;
    parts.waiting.reserve(places.checked_add(5).ok_or(Memory)?)?;
    parts.objects.reserve()
}

/// Tells the event that comes next of the open frees, if there is one.
#[inline(always)]
fn tell_free(objects: &mut ObjectPool) -> Option<Event>
    requires { IsSettled Active.Freeing objects.old }
    ensures { Tells result Active.Freeing objects.old Active.Freeing objects.new }
{
    objects.step().event
}

/// Tells what comes next of what is at work. None where a question is open, and then nothing changes.
fn tell(now: &mut Active, objects: &mut ObjectPool) -> Option<Event>
    requires { IsSettled now.old objects.old }
    ensures { Tells result now.old objects.old now.new objects.new }
{
    match now {
        Active::Caller(caller) => caller.tell(),
        Active::Freeing => tell_free(objects),
        Active::Turning(turn) => turn.tell(),
        Active::Reaching(_) => None,
        Active::Requesting(work) => tell_work(work, objects),
    }
}

/// A tree of objects as a state machine. Contracts see its open works, the innermost first, over a pool, and
/// thereby the question that is open and the story still to come.
#[derive(Drop)]
pub struct Host {
    active: Active,
    parts: Parts,
}

impl Model for Host {
    ghost use Rattle.tree_specs.specs.Machine.View.{View};

    ghost Value = { View };

    ghost use Rattle.std.specs.Prelude.{◌≡◌, true};
    ghost use Rattle.host_core.specs.Hosts.{host_view, IsBetweenSteps, speaking_view};

    ghost view = { λ h. host_view h.active h.parts };

    ghost invariant = { λ h. IsBetweenSteps h.active h.parts × (speaking_view (host_view h.active h.parts) ≡ true) };
}

impl Host {
    ghost use Rattle.std.specs.Prelude.{◌&&◌};
    ghost use Rattle.tree_specs.specs.declared.object.Owner.TheVariants.{Of as At};
    ghost use Rattle.std.specs.Option.{option_map};
    ghost use Rattle.tree_specs.specs.Tree.Pool.{row_of, is_row, ring_here, is_inside as inside};
    ghost use Rattle.tree_specs.specs.declared.object.Obj.{Obj as ObjData};
    ghost use Rattle.tree_specs.specs.Calls.Refusals.{is_queue_row, is_request_row};
    ghost use Rattle.tree_specs.specs.Events.Queues.{has_queue, is_entered};
    ghost use Rattle.tree_specs.specs.Events.Requests.{is_noted};
    ghost use Rattle.tree_specs.specs.Invariants.Awaiting.{Awaits};
    ghost use Rattle.tree_specs.specs.Invariants.Consistent.{IsConsistent};
    ghost use Rattle.tree_specs.specs.Invariants.Queued.{AreQueued, is_live_entry};
    ghost use Rattle.tree_specs.specs.Invariants.Sound.{Sound};
    ghost use Rattle.std.specs.Prelude.{ℕ, [], ◌∷◌};
    ghost use Rattle.tree_specs.specs.Calls.Refusals.{is_open};
    ghost use Rattle.tree_specs.specs.Events.Rotation.{wanted_of};
    ghost use Rattle.tree_specs.specs.Machine.View.{strays_of};
    ghost use Rattle.tree_stories.specs.Sights.{sights_of};
    ghost use Rattle.host_core.specs.Promises.{Waits, NextLaw, TakesAnswer, TakesCall, taken_in, taken_by};
    ghost use Rattle.std.specs.Prelude.{List};
    ghost use Rattle.step_machine.specs.Machine.{items as told_by};
    ghost use Rattle.tree_specs.specs.declared.question.Input.{Input as InputData};
    ghost use Rattle.tree_specs.specs.Machine.Meaning.{stated, text_rest};
    ghost use Rattle.tree_specs.specs.Rules.Story.{items};
    ghost use Rattle.tree_specs.specs.Machine.View.{rest_of};

    /// A host with no objects, whose first one gets the number `first`. It waits for a call.
    pub fn new(alloc: Global, first: u64) -> Result<Host, Memory>
        requires { 1 ≤ first }
        ensures begins { IfOk result (λ host. host ≡ begin first) }
        ensures waits { IfOk result (λ host. Waits host) }
    {
        Ok(Host {
            active: Active::Caller(Caller {
                ask: Ask::Quiet,
                stage: Stage::Asking,
            }),
            parts: Parts {
                waiting: Vec::new(alloc),
                objects: ObjectPool::new(alloc, first)?,
            },
        })
    }

    /// Whether the number names a live object. The root is none.
    pub fn is_live(&self, x: Obj) -> bool
        ensures { result ≡ is_row self.now.pool.rows x }
    {
        self.parts.objects.row(x).is_some()
    }

    /// What the object is. None exactly where it is no live object.
    pub fn kind(&self, x: Obj) -> Option<Kind>
        ensures { result ≡ option_map (λ r. r.kind) (row_of self.now.pool.rows x) }
    {
        Some(self.parts.objects.row(x)?.kind)
    }

    /// Whether an object is another one, or inside it. False where either is no live object.
    pub fn is_inside(&self, x: Obj, p: Obj) -> bool
        ensures { result ≡ (is_row self.now.pool.rows p && (is_row self.now.pool.rows x && inside self.now.pool.rows (At x) (At p))) }
    {
        self.is_live(p) && self.parts.objects.inside(x, Owner::Of(p))
    }

    /// Whether a descriptor is open.
    pub fn is_open(&self, fd: u32) -> bool
        ensures { result ≡ is_open self.now.pool fd }
    {
        self.parts.objects.is_open(fd)
    }

    /// Gives the descriptors that are watched for something in the context whose turn is under way, or in the first one,
    /// and what for, in the order in which a turn looks at them, in place of what was in `out`. If memory runs out, nothing
    /// is given.
    pub fn wants(&self, out: &mut Vec<Want>) -> Result<(), Memory>
        ensures wants { OnOk result (out.new.items ≡ wanted_of (ring_here self.now.pool)) }
        ensures nothing { OnErr result (out.new.items ≡ []) }
    {
        self.parts.objects.wants(out)
    }

    /// How many objects are live.
    pub fn live(&self) -> u64
        ensures count { result ≡ length self.now.pool.rows }

        // At every moment, between two events too: each number stands once and below the next one, each owner is
        // the root or a live object, from owner to owner one comes to an end, what a reference refers to is a live
        // plain object or request, and each dying object is in exactly one open free.
        ensures sound { Sound self.now.innermost self.now.below self.now.pool }

        // What waits is a live object of its kind, and an event among it has a handler; what is watched is open, and
        // watched by one event.
        ensures waiting { Awaits self.now.pool }

        // A note is kept of each request, and of nothing else; so it is of each queue whether it runs.
        ensures notes { (x : ObjData) → is_noted self.now.pool.requests x ≡ is_request_row (row_of self.now.pool.rows x) }
        ensures queues { (x : ObjData) → has_queue self.now.pool.queues x ≡ is_queue_row (row_of self.now.pool.rows x) }

        // An entry stands in a queue exactly where it is live and isn't dying. What stands there is a child of its
        // request.
        ensures entries { (x : ObjData) → is_entered self.now.pool.queues x ≡ is_live_entry (row_of self.now.pool.rows x) }
        ensures queued { AreQueued self.now.pool }

        // All of this together, and what the open works need of it: the premise of the laws on any moment.
        ensures whole { IsConsistent self.now }

        // At every moment the story still to come is that of the rules' text.
        ensures text { (is : List InputData) → rest_of self.now is ≡ items (told_by (text_rest (stated self.now.pool is) self.now is)) }
    {
        self.parts.objects.len() as u64
    }

    /// The open question. None exactly where an event is still to come.
    pub fn question(&self) -> Option<&Ask>
        ensures question { option_copied result ≡ question_of self.now }
        ensures waits { IsSome result → Waits self.now }
    {
        self.active.question()
    }

    /// Whether the host's own caller is asked for a call: no routine runs then, and nothing is asked of the outside.
    pub fn is_quiet(&self) -> bool
        ensures { IsTrue result ↔ (question_of self.now ≡ Some Quiet) }
    {
        self.active.is_quiet()
    }

    /// Gives the next event, which is told now and not again. None exactly where a question is open, and then nothing
    /// changes. It takes no memory.
    pub fn next(&mut self) -> Option<Event>
        ensures { NextLaw result self.old self.new }
    {
        let event = tell(&mut self.active, &mut self.parts.objects)?;
        settle(&mut self.active, &mut self.parts);
        Some(event)
    }

    /// The descriptor that was accepted, where it is open already.
    fn taken(&self, input: &Input) -> Option<u32>
        ensures { result ≡ taken_in self.now.pool input.now }
    {
        match input {
            Input::Took(fd) if self.is_open(*fd) => Some(*fd),
            _ => None,
        }
    }

    /// Refuses an answer that may not be given, as `offer` does: NotAsked comes exactly where no question is open or the
    /// open one takes no such answer, and Taken exactly where the descriptor that was accepted is open already. It takes
    /// no memory.
    pub fn check(&self, input: &Input) -> Result<(), OfferFault>
        ensures fits { OnOk result (misfit (question_of self.now) input.now ≡ None) }
        ensures unopened { OnOk result (taken_in self.now.pool input.now ≡ None) }
        ensures not_asked { (result ≡ Err OfferFault.NotAsked) ↔ (misfit (question_of self.now) input.now ≡ Some reasons.NotAsked) }
        ensures taken { (fd : ℕ) → (result ≡ Err (OfferFault.Taken fd)) ↔ (taken_by (question_of self.now) self.now.pool input.now ≡ Some fd) }
        ensures strays { (fd : ℕ) → result ≡ Err (OfferFault.Taken fd) → strays_of self.now (input.now ∷ []) ≡ true }
        ensures ends { (fd : ℕ) → result ≡ Err (OfferFault.Taken fd) → (is : List InputData) → sights_of self.now (input.now ∷ is) ≡ sights_of self.now [] }
    {
        if !self.active.takes(input) {
            return Err(OfferFault::NotAsked);
        }
        if let Some(fd) = self.taken(input) {
            return Err(OfferFault::Taken(fd));
        }
        Ok(())
    }

    /// Takes an answer. All memory up to the next question is taken first, and where it runs out the host is as it was.
    fn take(&mut self, input: Input) -> Result<(), Memory>
        requires sound { IsTrue (is_sound input) }
        requires fits { misfit (question_of self.old) input ≡ None }
        requires unopened { taken_in self.old.pool input ≡ None }
        ensures ok { OnOk result (TakesAnswer self.old input self.new) }
        ensures err { OnErr result (self.new ≡ self.old) }
    {
        if let Some(owner) = report_owner(&input) {
            return report_for(&mut self.active, &input, owner, &self.parts);
        }
        if is_bytes(&input) {
            return read_on(&mut self.active, input, &mut self.parts);
        }
        make_room(&mut self.parts)?;
        answer_on(&mut self.active, input, &mut self.parts);
        Ok(())
    }

    /// Gives the answer to the open question. All memory up to the next question is taken first, and after a fault the
    /// host is as it was; the answer is dropped then. NotAsked comes exactly where no question is open or the open one
    /// takes no such answer, and Taken exactly where the descriptor that was accepted is open already.
    pub fn offer(&mut self, input: Input) -> Result<(), OfferFault>
        requires { IsTrue (is_sound input) }
        ensures ok { OnOk result (TakesAnswer self.old input self.new) }
        ensures err { OnErr result (self.new ≡ self.old) }
        ensures not_asked { (result ≡ Err OfferFault.NotAsked) ↔ (misfit (question_of self.old) input ≡ Some reasons.NotAsked) }
        ensures taken { (fd : ℕ) → (result ≡ Err (OfferFault.Taken fd)) ↔ (taken_by (question_of self.old) self.old.pool input ≡ Some fd) }
        // An answer of a descriptor that is open is the one that doesn't fit, though it was asked for: nothing comes
        // after it.
        ensures strays { (fd : ℕ) → result ≡ Err (OfferFault.Taken fd) → strays_of self.old (input ∷ []) ≡ true }
        ensures ends { (fd : ℕ) → result ≡ Err (OfferFault.Taken fd) → (is : List InputData) → sights_of self.old (input ∷ is) ≡ sights_of self.old [] }
    {
        self.check(&input)?;
        self.take(input)?;
        Ok(())
    }

    /// Does a call for the host's own caller, which is asked for one. Gives the reply where it comes at once, and then
    /// the caller is asked again; otherwise `next` gives what comes. It is the same as to offer the call and to take
    /// the reply, for less. All memory up to the next question is taken first, and where it runs out the host is as it
    /// was.
    #[inline(always)]
    pub fn call(&mut self, call: Call) -> Result<Option<Reply>, Memory>
        requires asked { question_of self.old ≡ Some Quiet }
        requires sound { IsTrue (is_sound_call call) }
        ensures ok { IfOk result (λ reply. TakesCall self.old call reply self.new) }
        ensures err { OnErr result (self.new ≡ self.old) }
    {
        if let Call::Report { .. } = call {
            self.take(Input::Call(call))?;
            return Ok(None);
        }
        make_room(&mut self.parts)?;
        let Some(reply) = begin_call(&mut self.active, call, &mut self.parts) else {
            return Ok(None);
        };
        Ok(Some(reply.reply()))
    }
}
