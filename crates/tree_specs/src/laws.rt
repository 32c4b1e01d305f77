//! Laws of the definitions, each the clause of a function that does nothing.
#![tactic(auto)]

ghost use Rattle.std.specs.Prelude.{◌≡◌, ◌≢◌, ◌≤◌, ◌<◌, ℕ, true, false, None, List, ◌∷◌, ◌++◌, length, slice_get, []};
ghost use Rattle.step_machine.specs.Machine.{run, EndsBy, is_stray, items as told_by};
ghost use Rattle.step_machine.specs.Machine.Outcome.{Ended, Short};
ghost use Rattle.step_machine.specs.Noted.{noted, with_note};
ghost use Rattle.step_machine.specs.History.{EachFits};
ghost use Rattle.step_machine.specs.Open.{LastIs};
ghost use Rattle.tree_specs.specs.declared.question.Input.{Input as InputData};
ghost use Rattle.tree_specs.specs.declared.question.Ask.TheVariants.{Quiet, Clock, Accept};
ghost use Rattle.tree_specs.specs.declared.reply.Reply.{Reply as ReplyData};
ghost use Rattle.tree_specs.specs.declared.reply.Reply.TheVariants.{Number};
ghost use Rattle.tree_specs.specs.declared.bounds.TheConstants.{TIME_LIMIT};
ghost use Rattle.tree_specs.specs.declared.object.Obj.{Obj as ObjData};
ghost use Rattle.tree_specs.specs.declared.coming.Coming.{Coming as ComingData};
ghost use Rattle.tree_specs.specs.declared.due.Due.{Due as DueData};
ghost use Rattle.tree_specs.specs.declared.watch.Watch.{Watch as WatchData};
ghost use Rattle.tree_specs.specs.Words.Objects.{same};
ghost use Rattle.tree_specs.specs.Events.Pending.{scheduled, unscheduled, soon_in, soon_without, disarmed, times_in, times_without};
ghost use Rattle.tree_specs.specs.Events.Rotation.{unwatched, ring_in, ring_without};
ghost use Rattle.tree_specs.specs.declared.object.Owner.{Owner as OwnerData};
ghost use Rattle.tree_specs.specs.declared.row.Row.{Row as RowData};
ghost use Rattle.tree_specs.specs.declared.free_step.FreeReply.{FreeReply as FreeReplyData};
ghost use Rattle.tree_specs.specs.declared.free_step.FreeReply.TheVariants.{Held, Running, Refused};
ghost use Rattle.tree_specs.specs.declared.event.Event.TheVariants.{Refused as HasRefused};
ghost use Rattle.tree_specs.specs.Tree.Pool.{Pool, empty, kids, first_kid, next_kid};
ghost use Rattle.tree_specs.specs.Tree.Forest.{Distinct};
ghost use Rattle.tree_specs.specs.Rules.Items.{IsQuestion};
ghost use Rattle.tree_specs.specs.Rules.Items.Item.{Told};
ghost use Rattle.tree_specs.specs.Rules.Sequence.{Scene};
ghost use Rattle.tree_specs.specs.Rules.Story.{outcome, story, items, asked, free, taking, reaching, turns};
ghost use Rattle.tree_specs.specs.Machine.Table.{table, notes, step};
ghost use Rattle.tree_specs.specs.Invariants.Awaiting.{Awaits, AwaitsBefore, pool_after};
ghost use Rattle.tree_specs.specs.Invariants.Consistent.{IsConsistent};
ghost use Rattle.tree_specs.specs.Machine.View.{View, begin, rest_of, strays_of};
ghost use Rattle.tree_specs.specs.Promises.Orderly.{Orderly};
ghost use Rattle.tree_specs.specs.Calls.Refusals.{is_open, is_running};
ghost use Rattle.tree_specs.specs.Promises.Idle.{NothingCame, Remains};
ghost use Rattle.tree_specs.specs.Promises.Grounded.{Grounded, DropsOutside, IsItem};
ghost use Rattle.tree_specs.specs.Promises.Acceptances.{AcceptsAfterReturns};

/// The children of an owner, newest placed first, are its first child and then each next one.
pub fn children_follow_one_another()
    ensures first { (rows : List RowData) (p : OwnerData) → first_kid rows p ≡ slice_get (kids rows p) 0 }
    ensures next { (rows : List RowData) (p : OwnerData) (x : ObjData) (before after : List ObjData) → Distinct rows → kids rows p ≡ before ++ x ∷ after → next_kid rows x ≡ slice_get after 0 }
{}

/// The stated number of turns is enough for every list of inputs, and more turns give the same.
pub fn turns_are_enough()
    ensures enough { (first : ℕ) (is : List InputData) → 1 ≤ first → asked (turns 0 (length is)) Quiet (empty first) is ≢ Short }
    ensures same { (first n : ℕ) (is : List InputData) → 1 ≤ first → turns 0 (length is) ≤ n → asked n Quiet (empty first) is ≡ asked (turns 0 (length is)) Quiet (empty first) is }
{}

/// Every story ends with the question that is open after it.
pub fn every_story_ends_with_its_question()
    ensures { (first : ℕ) (is : List InputData) → 1 ≤ first → LastIs IsQuestion (items (story first is)) }
{}

/// The rules' text and the table of single steps tell the same story, pools and calls included, and its
/// items are those of a host at its beginning.
pub fn the_table_tells_the_story()
    ensures scenes { (first : ℕ) (is : List InputData) → 1 ≤ first → told_by (run (noted notes table) (turns 0 (length is)) (with_note None (begin first).innermost) (empty first) is) ≡ story first is }
    ensures items { (first : ℕ) (is : List InputData) → 1 ≤ first → rest_of (begin first) is ≡ items (story first is) }

    // And they stray at the same inputs.
    ensures strays { (first : ℕ) (is : List InputData) → 1 ≤ first → strays_of (begin first) is ≡ is_stray (outcome first is) }
{}

/// A free over any objects and inputs, and so within a call, for a child, and in an act: it takes a prefix of the
/// inputs, waits at the open question before each of them, and has ended with the last.
pub fn a_free_waits_for_each_of_its_inputs()
    ensures { (n : ℕ) (x : ObjData) (p q : Pool) (is left : List InputData) (a : FreeReplyData) (told : List Scene) → free n x p is ≡ Ended a q told left →
        (used : List InputData) × (used ++ left ≡ is) × EndsBy (λ js. free n x p js) a q told used }
{}

/// A free over any objects and inputs answers that the object runs only where it runs; that it is held only where the
/// newest reference was one from outside, and was dropped last; and a destructor's number only where this was told
/// last.
pub fn a_free_answers_with_its_cause()
    ensures running { (n : ℕ) (x : ObjData) (p q : Pool) (is left : List InputData) (told : List Scene) → free n x p is ≡ Ended Running q told left → is_running q x ≡ true }
    ensures held { (n : ℕ) (x : ObjData) (p q : Pool) (is left : List InputData) (told : List Scene) → free n x p is ≡ Ended Held q told left → LastIs (DropsOutside x) told }
    ensures refused { (n v : ℕ) (x : ObjData) (p q : Pool) (is left : List InputData) (told : List Scene) → free n x p is ≡ Ended (Refused v) q told left →
        LastIs (IsItem (Told (HasRefused x v))) told }
{}

/// In every free, over any objects and inputs, and in every story each acceptance comes right after the object's
/// destructor has returned 0.
pub fn a_destructor_accepts_with_0()
    ensures in_frees { (n : ℕ) (x : ObjData) (p : Pool) (is : List InputData) → AcceptsAfterReturns None (items (told_by (free n x p is))) is }
    ensures in_stories { (first : ℕ) (is : List InputData) → AcceptsAfterReturns None (items (story first is)) is }
{}

/// Every story is orderly: a destructor accepts at most once, a freed object with a destructor had it accept, and
/// nothing starts for a freed object.
pub fn every_story_is_orderly()
    ensures { (first : ℕ) (is : List InputData) → 1 ≤ first → Orderly (items (story first is)) }
{}

/// Every story is grounded: to free a live object, or to take an owner's interest in it away, succeeds, or is refused
/// while its destructor or handler runs, or while it is a request that is received for its freeing, or right after its
/// destructor refused, or while it is held; and each acceptance
/// comes right after the object's destructor has returned 0.
pub fn every_story_is_grounded()
    ensures { (first : ℕ) (is : List InputData) → 1 ≤ first → Grounded (story first is) is }
{}

/// What waits for its turn is at every moment a live event with a handler: an immediate where it comes soon, a timer
/// where it has a time, a descriptor's event where it watches; or a live request, where it comes soon or has an end
/// time. What is being freed, or will be once its handler is over, waits no more, and only events have handlers. Each
/// descriptor that is watched is open, and one event watches it. Each context in which something waits is the first
/// one, or one that neither is being freed nor will be after its turn.
pub fn what_waits_is_a_live_event()
    ensures in_stories { (first : ℕ) (is : List InputData) → 1 ≤ first → EachFits AwaitsBefore (story first is) }
    ensures after_each_step { (v : View) → IsConsistent v → Awaits v.pool → Awaits (pool_after (step v.innermost v.pool)) }
{}

/// A turn of a context that isn't to be freed replies 0 exactly where nothing came in it: nothing was to come soon, no
/// time had come at the last look, and no event waited for what its descriptor was ready for.
pub fn a_turn_replies_0_where_nothing_came()
    ensures cause { (n : ℕ) (p q : Pool) (is left : List InputData) (told : List Scene) → Remains p → taking n p is ≡ Ended 0 q told left → (used : List InputData) × (used ++ left ≡ is) × NothingCame p used }
    ensures idle { (p : Pool) (used left : List InputData) (n : ℕ) → Remains p → NothingCame p used → 8 ≤ n → (q : Pool) × (told : List Scene) × (taking n p (used ++ left) ≡ Ended 0 q told left) }
{}

/// What a clock tells is from 0 to 2^62 microseconds, and an accepted descriptor wasn't open: no other answer is taken.
pub fn an_answer_is_in_its_range()
    ensures time { (n : ℕ) (p q : Pool) (is left : List InputData) (r : ReplyData) (told : List Scene) → reaching n Clock p is ≡ Ended r q told left → (now : ℕ) × (r ≡ Number now) × (now ≤ TIME_LIMIT) }
    ensures accepted { (n fd new : ℕ) (p q : Pool) (is left : List InputData) (told : List Scene) → reaching n (Accept fd) p is ≡ Ended (Number new) q told left →
        (0 < new) × (is_open p new ≡ false) × (is_open q new ≡ true) }
{}

/// What a change does to the lists of all contexts it does to the lists of each: those of its own context change as
/// those of a loop that has no other one, and those of any other context lose the object alone. A context that goes
/// leaves nothing.
pub fn each_context_has_its_lists()
    ensures soon { (xs : List ComingData) (x c : ObjData) → soon_in (scheduled xs x c) c ≡ scheduled (soon_in xs c) x c }
    ensures elsewhere { (xs : List ComingData) (x c d : ObjData) → same d c ≡ false → soon_in (scheduled xs x d) c ≡ unscheduled (soon_in xs c) x }
    ensures soon_gone { (xs : List ComingData) (c : ObjData) → soon_in (soon_without xs c) c ≡ [] }
    ensures soon_stays { (xs : List ComingData) (c d : ObjData) → same c d ≡ false → soon_in (soon_without xs d) c ≡ soon_in xs c }
    ensures times { (ds : List DueData) (x c : ObjData) → times_in (disarmed ds x) c ≡ disarmed (times_in ds c) x }
    ensures times_gone { (ds : List DueData) (c : ObjData) → times_in (times_without ds c) c ≡ [] }
    ensures ring { (ws : List WatchData) (x c : ObjData) → ring_in (unwatched ws x) c ≡ unwatched (ring_in ws c) x }
    ensures ring_gone { (ws : List WatchData) (c : ObjData) → ring_in (ring_without ws c) c ≡ [] }
{}
