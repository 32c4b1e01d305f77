//! Why calls and frees are refused, and what a refusal leaves, over every pool and all inputs: in stories, in acts, and
//! for children.
#![tactic(auto)]

ghost use Rattle.std.specs.Prelude.{◌≡◌, ℕ, suc, None, Some, List, [], ◌∷◌};
ghost use Rattle.step_machine.specs.Machine.{followed};
ghost use Rattle.step_machine.specs.Machine.Outcome.{Ended};
ghost use Rattle.tree_specs.specs.declared.call.Call.{Call as CallData};
ghost use Rattle.tree_specs.specs.declared.call.Call.TheVariants.{Turn};
ghost use Rattle.tree_specs.specs.declared.object.Obj.{Obj as ObjData};
ghost use Rattle.tree_specs.specs.declared.object.Owner.{Owner as OwnerData};
ghost use Rattle.tree_specs.specs.declared.object.Owner.TheVariants.{Of};
ghost use Rattle.tree_specs.specs.declared.moment.Moment.{Moment as MomentData};
ghost use Rattle.tree_specs.specs.declared.question.Ask.TheVariants.{Routine};
ghost use Rattle.tree_specs.specs.declared.question.Input.{Input as InputData};
ghost use Rattle.tree_specs.specs.declared.reply.Refusal.{Refusal as RefusalData};
ghost use Rattle.tree_specs.specs.declared.reply.Refusal.TheVariants.{Nested};
ghost use Rattle.tree_specs.specs.declared.reply.Reply.TheVariants.{No};
ghost use Rattle.tree_specs.specs.Calls.Refusals.{Check, refusals};
ghost use Rattle.tree_specs.specs.Calls.Plans.{planned_at, replies};
ghost use Rattle.tree_specs.specs.Tree.Pool.{Pool, first_kid, noted_owner, target_at};
ghost use Rattle.tree_specs.specs.Promises.Refused.{called, SayOnlyWhatRan, RefuseOnlyWhatRan, RefusedChangeNothing};
ghost use Rattle.tree_specs.specs.Rules.Sequence.{Work};
ghost use Rattle.tree_specs.specs.Rules.Story.{children, free, tried, unlink};
ghost use Rattle.tree_specs.specs.Rules.Pieces.{turned};
ghost use Rattle.tree_specs.specs.Promises.BadTexts as bad;

/// Whatever is answered as running ran when this was begun: a free, be it a call's, an act's or the try of a child; the
/// taking away of an owner's interest; and each call and act.
pub fn what_is_refused_as_running_ran_at_the_start()
    ensures free { (n : ℕ) → SayOnlyWhatRan (free n) }
    ensures unlink { (n : ℕ) (o : OwnerData) → SayOnlyWhatRan (unlink n o) }
    ensures call { (n : ℕ) → RefuseOnlyWhatRan (called n) }

    // The try of a child is a free of it that begins with the objects as they are then.
    ensures child { (n : ℕ) (x c : ObjData) (p : Pool) (is : List InputData) → first_kid p.rows (Of x) ≡ Some c → target_at p.rows c ≡ None →
        children (suc n) x p is ≡ followed (free n c p is) (λ answer. tried n x c (noted_owner p.rows c) answer) }

    // A text that marks a quiet object as asked and answers that it runs doesn't do.
    ensures marked { SayOnlyWhatRan bad.marks_a_quiet_object → ⊥ }
{}

/// A refused call, and a refused act, leaves the pool as it was, tells nothing and asks nothing. Where it is refused by
/// the free that it did, this may have dropped references to the object; an object whose handler runs is doomed; and
/// what a destructor did before it refused stays done.
pub fn a_refused_call_changes_nothing()
    // A call that doesn't pass a test does nothing at all.
    ensures at_once { (n : ℕ) (c : CallData) (p : Pool) (is : List InputData) (why : RefusalData) (later : Check) →
        refusals p c ≡ why ∷ later → called n c p is ≡ Ended (No why) p [] is }
    ensures call { (n : ℕ) → RefusedChangeNothing (called n) }

    // A text whose steal moves the object though it is refused doesn't do.
    ensures moved { RefusedChangeNothing bad.steals_though_refused → ⊥ }
{}

/// A turn within a routine is refused, whatever this routine runs for, and does nothing. This is so whichever context it
/// names.
pub fn a_nested_turn_is_refused()
    ensures plan { (m : MomentData) (c : ObjData) (p : Pool) → planned_at (Routine m) p (Turn c) ≡ replies (No Nested) }
    ensures turn { (m : MomentData) (turn : Work ℕ) (c : ObjData) (p : Pool) (is : List InputData) → turned (Routine m) turn c p is ≡ Ended (No Nested) p [] is }
{}
