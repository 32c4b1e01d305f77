//! What the clauses of the engine's calls come to, each the clause of a function that does nothing.
ghost use Rattle.std.specs.Prelude.{◌≡◌, ℕ, true, None, Some, List, [], ◌∷◌};
ghost use Rattle.step_machine.specs.Machine.Outcome.{Ended};
ghost use Rattle.tree_specs.specs.declared.frame.Answer.TheVariants.{Returned};
ghost use Rattle.tree_specs.specs.declared.frame.FreeFrame.{FreeFrame as FreeFrameData};
ghost use Rattle.tree_specs.specs.declared.frame.FreeFrame.TheVariants.{Unlinking, Beginning, Looping};
ghost use Rattle.tree_specs.specs.declared.frame.Purpose.TheVariants.{Emptying};
ghost use Rattle.tree_specs.specs.declared.free_step.FreeReply.{FreeReply as FreeReplyData};
ghost use Rattle.tree_specs.specs.declared.free_step.FreeReply.TheVariants.{Ok};
ghost use Rattle.tree_specs.specs.declared.kind.Kind.{Kind as KindData};
ghost use Rattle.tree_specs.specs.declared.object.Obj.{Obj as ObjData};
ghost use Rattle.tree_specs.specs.declared.object.Owner.{Owner as OwnerData};
ghost use Rattle.tree_specs.specs.declared.question.Act.TheVariants.{Ret};
ghost use Rattle.tree_specs.specs.declared.question.Ask.TheVariants.{Routine};
ghost use Rattle.tree_specs.specs.declared.question.Input.{Input as InputData};
ghost use Rattle.tree_specs.specs.declared.question.Input.TheVariants.{Act};
ghost use Rattle.tree_specs.specs.declared.test.Test.TheVariants.{IsObject};
ghost use Rattle.tree_specs.specs.Calls.Passed.{Passed};
ghost use Rattle.tree_specs.specs.Invariants.Noted.{NotesHold};
ghost use Rattle.tree_specs.specs.Invariants.Queued.{QueuesHold};
ghost use Rattle.tree_specs.specs.Invariants.Sound.{IsReferable, MayBePlaced};
ghost use Rattle.tree_specs.specs.Rules.Items.{Item};
ghost use Rattle.tree_specs.specs.Machine.Meaning.{stated};
ghost use Rattle.tree_specs.specs.Rules.Items.Item.{Asked};
ghost use Rattle.tree_specs.specs.Tree.Pool.{Pool, add, is_owner, place, rename, row_of, set_hook, set_limit, set_size, take_number, target_at};
ghost use Rattle.tree_specs.specs.Words.Ranges.{is_return};
ghost use Rattle.tree_specs.specs.Tree.Targets.{newest_ref, target_of};
ghost use Rattle.tree_specs.specs.Rules.Answers.{hook_moment};
ghost use Rattle.tree_specs.specs.Rules.Story.{children, free, unlink};
ghost use Rattle.destructors.specs.Frees.{Begins, OpenFrees};
ghost use Rattle.destructors.specs.Runs.{Drives, EndsAs, hook_run};
ghost use Rattle.destructors.specs.Moves.{IsLiveRow};
ghost use Rattle.destructors.specs.Works.{AreAwaiting};

/// What is driven from its beginning to its `Done`, by `step`, `answer` and `prepared`, is what the rules' text says
/// over the answers of the routines that ran, whatever these did to the objects before they returned: its answer, the
/// pool that it leaves, and all that was told and asked. Other frees may wait meanwhile, for a destructor, a request or
/// a queue.
pub fn what_is_driven_to_its_end_is_the_text()
    ensures free { (x : ObjData) (below : List FreeFrameData) (p q : Pool) (s : OpenFrees) (is : List InputData) (told : List Item) (a : FreeReplyData) →
        AreAwaiting below p → NotesHold None p → QueuesHold [] p → target_at p.rows x ≡ None → newest_ref p.rows x ≡ None → Begins (Beginning x ∷ below) p s → Drives s is told a q →
        EndsAs (free (stated p is) x p is) a q told }
    ensures unlink { (o : OwnerData) (x : ObjData) (below : List FreeFrameData) (p q : Pool) (s : OpenFrees) (is : List InputData) (told : List Item) (a : FreeReplyData) →
        AreAwaiting below p → NotesHold None p → QueuesHold [] p → IsLiveRow p x → target_at p.rows x ≡ None → Begins (Unlinking o x ∷ below) p s → Drives s is told a q →
        EndsAs (unlink (stated p is) o x p is) a q told }
    ensures kids { (x : ObjData) (below : List FreeFrameData) (p q : Pool) (s : OpenFrees) (is : List InputData) (told : List Item) (a : FreeReplyData) →
        AreAwaiting below p → NotesHold None p → QueuesHold [] p → Begins (Looping x Emptying ∷ below) p s → Drives s is told a q → (a ≡ Ok) × EndsAs (children (stated p is) x p is) tt q told }
{}

/// A destructor that returns at once leaves the objects as they are: it is asked, and returns what it was answered. So
/// the free of a tree whose destructors return alone is the text's free over their numbers.
pub fn a_destructor_may_return_alone()
    ensures { (x : ObjData) (h v : ℕ) (p : Pool) → is_return v ≡ true →
        hook_run 2 x h p (Act (Ret v) ∷ []) ≡ Ended (Returned v) p (Asked (Routine (hook_moment x h)) ∷ []) [] }
{}

/// Between a question of the engine and its answer the caller may use the tree: make objects, and references to what may be
/// referred to, place objects where `talloc_steal` would, take numbers, and change names, sizes, limits and destructors.
/// The open frees await the answer as before.
pub fn what_is_done_to_the_tree_keeps_it_awaiting()
    ensures add { (fs : List FreeFrameData) (p : Pool) (kind : KindData) (o : OwnerData) (size : ℕ) (name : List ℕ) → AreAwaiting fs p → is_owner p.rows o ≡ true →
        ((t : ObjData) → target_of kind ≡ Some t → IsReferable (row_of p.rows t)) → AreAwaiting fs (add p kind o size name) }
    ensures place { (fs : List FreeFrameData) (p : Pool) (o : OwnerData) (x : ObjData) → AreAwaiting fs p → MayBePlaced p o x → AreAwaiting fs (place p o x) }
    ensures take { (fs : List FreeFrameData) (p : Pool) → AreAwaiting fs p → AreAwaiting fs (take_number p) }
    ensures rename { (fs : List FreeFrameData) (p : Pool) (x : ObjData) (name : List ℕ) → AreAwaiting fs p → Passed p (IsObject x) →
        AreAwaiting fs (rename p x name) }
    ensures resize { (fs : List FreeFrameData) (p : Pool) (x : ObjData) (size : ℕ) → AreAwaiting fs p → Passed p (IsObject x) →
        AreAwaiting fs (set_size p x size) }
    ensures limit { (fs : List FreeFrameData) (p : Pool) (x : ObjData) (most : ℕ) → AreAwaiting fs p → Passed p (IsObject x) →
        AreAwaiting fs (set_limit p x most) }
    ensures hook { (fs : List FreeFrameData) (p : Pool) (x : ObjData) (routine : ℕ) → AreAwaiting fs p → Passed p (IsObject x) →
        AreAwaiting fs (set_hook p x routine) }
{}
