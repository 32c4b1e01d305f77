//! The machine tells the rules' text: from the beginning of each free, and from every moment on.
#![tactic(auto)]

ghost use Rattle.std.specs.Prelude.{◌≡◌, ◌≢◌, ◌≤◌, ℕ, List};
ghost use Rattle.step_machine.specs.Machine.{items as told_by, rest};
ghost use Rattle.step_machine.specs.Machine.Outcome.{Short};
ghost use Rattle.tree_specs.specs.declared.frame.Answer.TheVariants.{Freed, Heard, Returned, Turned};
ghost use Rattle.tree_specs.specs.declared.frame.CallFrame.TheVariants.{Asking};
ghost use Rattle.tree_specs.specs.declared.frame.Frame.TheVariants.{Call, Free, Turn, Outside, Request};
ghost use Rattle.tree_specs.specs.declared.frame.FreeFrame.TheVariants.{Beginning, Unlinking, Looping};
ghost use Rattle.tree_specs.specs.declared.frame.Purpose.TheVariants.{Emptying};
ghost use Rattle.tree_specs.specs.declared.frame.OutsideFrame.TheVariants.{Reaching};
ghost use Rattle.tree_specs.specs.declared.frame.RequestFrame.TheVariants.{Finishing, Receiving, Cancelling, Notifying, Triggering, Vacating};
ghost use Rattle.tree_specs.specs.declared.frame.Errand.{Errand as ErrandData};
ghost use Rattle.tree_specs.specs.declared.frame.TurnFrame.TheVariants.{Taking};
ghost use Rattle.tree_specs.specs.declared.object.Obj.{Obj as ObjData};
ghost use Rattle.tree_specs.specs.declared.object.Owner.{Owner as OwnerData};
ghost use Rattle.tree_specs.specs.declared.question.Ask.{Ask as AskData};
ghost use Rattle.tree_specs.specs.declared.question.Input.{Input as InputData};
ghost use Rattle.tree_specs.specs.declared.request.State.{State as StateData};
ghost use Rattle.tree_specs.specs.Machine.Meaning.{emptied, ends_as, run_of, stated, text_rest};
ghost use Rattle.tree_specs.specs.Tree.Pool.{Pool};
ghost use Rattle.tree_specs.specs.Rules.Story.{asked, cancelling, children, finishing, free, items, notifying, reaching, receiving, taking, triggering, unlink, vacating};
ghost use Rattle.tree_specs.specs.Machine.Table.{table};
ghost use Rattle.tree_specs.specs.Machine.View.{View, rest_of};
ghost use Rattle.tree_specs.specs.Invariants.Consistent.{IsConsistent};

/// From the beginning of a free the table of single steps tells, answers, leaves and takes what the text says of it,
/// over every pool and all inputs, whenever the turns are enough; so it is where an owner's interest is taken away,
/// where the children of an object are freed, and where a caller is asked, as a destructor that runs is; and where a
/// turn of the event loop is taken, the outside is asked, or a request goes to a state, is notified, received or
/// cancelled; and where the entries of a queue are freed, or the trigger of its first entry runs.
pub fn the_machine_tells_the_text()
    ensures free { (n : ℕ) (x : ObjData) (p : Pool) (is : List InputData) → run_of n (Free (Beginning x)) p is ≢ Short →
        run_of n (Free (Beginning x)) p is ≡ ends_as Freed (free n x) p is }
    ensures unlink { (n : ℕ) (o : OwnerData) (x : ObjData) (p : Pool) (is : List InputData) → run_of n (Free (Unlinking o x)) p is ≢ Short →
        run_of n (Free (Unlinking o x)) p is ≡ ends_as Freed (unlink n o x) p is }
    ensures children { (n : ℕ) (x : ObjData) (p : Pool) (is : List InputData) → run_of n (Free (Looping x Emptying)) p is ≢ Short →
        run_of n (Free (Looping x Emptying)) p is ≡ emptied (children n x) p is }
    ensures caller { (n : ℕ) (q : AskData) (p : Pool) (is : List InputData) → run_of n (Call (Asking q)) p is ≢ Short →
        run_of n (Call (Asking q)) p is ≡ ends_as Returned (asked n q) p is }
    ensures turn { (n : ℕ) (p : Pool) (is : List InputData) → run_of n (Turn Taking) p is ≢ Short →
        run_of n (Turn Taking) p is ≡ ends_as Turned (taking n) p is }
    ensures outside { (n : ℕ) (q : AskData) (p : Pool) (is : List InputData) → run_of n (Outside (Reaching q)) p is ≢ Short →
        run_of n (Outside (Reaching q)) p is ≡ ends_as Heard (reaching n q) p is }
    ensures finish { (n : ℕ) (x : ObjData) (s : StateData) (p : Pool) (is : List InputData) → run_of n (Request (Finishing x s)) p is ≢ Short →
        run_of n (Request (Finishing x s)) p is ≡ ends_as Heard (finishing n x s) p is }
    ensures notify { (n : ℕ) (x : ObjData) (e : ErrandData) (p : Pool) (is : List InputData) → run_of n (Request (Notifying x e)) p is ≢ Short →
        run_of n (Request (Notifying x e)) p is ≡ ends_as Heard (notifying n x e) p is }
    ensures receive { (n : ℕ) (x : ObjData) (p : Pool) (is : List InputData) → run_of n (Request (Receiving x)) p is ≢ Short →
        run_of n (Request (Receiving x)) p is ≡ ends_as Heard (receiving n x) p is }
    ensures cancel { (n : ℕ) (x : ObjData) (p : Pool) (is : List InputData) → run_of n (Request (Cancelling x)) p is ≢ Short →
        run_of n (Request (Cancelling x)) p is ≡ ends_as Heard (cancelling n x) p is }
    ensures vacate { (n : ℕ) (q : ObjData) (p : Pool) (is : List InputData) → run_of n (Request (Vacating q)) p is ≢ Short →
        run_of n (Request (Vacating q)) p is ≡ ends_as Heard (vacating n q) p is }
    ensures trigger { (n : ℕ) (q : ObjData) (p : Pool) (is : List InputData) → run_of n (Request (Triggering q)) p is ≢ Short →
        run_of n (Request (Triggering q)) p is ≡ ends_as Heard (triggering n q) p is }

    // The stated turns are enough for the innermost of open works that hold together, and more give the same.
    ensures enough { (v : View) (is : List InputData) → IsConsistent v → run_of (stated v.pool is) v.innermost v.pool is ≢ Short }
    ensures same { (v : View) (n : ℕ) (is : List InputData) → IsConsistent v → stated v.pool is ≤ n → run_of n v.innermost v.pool is ≡ run_of (stated v.pool is) v.innermost v.pool is }
{}

/// At every moment of a host, for any pool and open works that hold together, the stated number of turns is enough,
/// more turns give the same, and the story still to come is that of the text.
pub fn turns_are_enough_at_every_moment()
    ensures enough { (v : View) (is : List InputData) → IsConsistent v → text_rest (stated v.pool is) v is ≢ Short }
    ensures same { (v : View) (n : ℕ) (is : List InputData) → IsConsistent v → stated v.pool is ≤ n → text_rest n v is ≡ text_rest (stated v.pool is) v is }
    ensures table { (v : View) (n : ℕ) (is : List InputData) → IsConsistent v → stated v.pool is ≤ n →
        rest table n v.innermost v.below v.pool is ≡ rest table (stated v.pool is) v.innermost v.below v.pool is }
    ensures text { (v : View) (is : List InputData) → IsConsistent v → rest_of v is ≡ items (told_by (text_rest (stated v.pool is) v is)) }
{}
