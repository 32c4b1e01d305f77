//! What the rules of orderly and grounded stories forbid: for each rule, stories that break it. So none of the rules
//! is met by everything.

ghost use Rattle.std.specs.Prelude.{List, [], ◌∷◌};
ghost use Rattle.tree_specs.specs.declared.question.Input.{Input as InputData};
ghost use Rattle.tree_specs.specs.Promises.Orderly.{Orderly};
ghost use Rattle.tree_specs.specs.Promises.Grounded.{Grounded};
ghost use Rattle.tree_specs.specs.Promises.BadStories as bad;
ghost use Rattle.tree_specs.specs.Promises.BadStories.{NoneOf};

/// A destructor accepts once, and is neither asked again nor refuses after that.
pub fn a_destructor_accepts_once()
    ensures twice { Orderly bad.accepted_twice → ⊥ }
    ensures asked_again { Orderly bad.asked_after_it_accepted → ⊥ }
    ensures refuses_then { Orderly bad.refused_after_it_accepted → ⊥ }
{}

/// An object is told as freed once, with a destructor exactly where one has accepted.
pub fn an_object_is_freed_once()
    ensures twice { Orderly bad.freed_twice → ⊥ }
    ensures unaccepted { Orderly bad.freed_unaccepted → ⊥ }
    ensures without_it { Orderly bad.freed_without_its_destructor → ⊥ }
{}

/// For a freed object no routine starts, its destructor is not asked and doesn't answer, it is moved nowhere, and
/// nothing is put below it; and no reference is dropped twice.
pub fn nothing_starts_for_a_freed_object()
    ensures uses { NoneOf Orderly bad.used_after_the_end }
    ensures reference { Orderly bad.dropped_twice → ⊥ }
{}

/// A call is refused for a destructor's number right after this number was told.
pub fn a_refused_call_follows_the_refusal()
    ensures { NoneOf Orderly bad.refused_without_it }
{}

/// The states of a request go up: once to one of 2 to 5, and then once to 6.
pub fn the_states_of_a_request_go_up()
    ensures { NoneOf Orderly bad.states_out_of_order }
{}

/// To free a live object is answered by ok, or by a refusal that names it as held, running or refused; so is it to take
/// an owner's interest in it away.
pub fn a_free_of_a_live_object_is_answered()
    ensures missing { (is : List InputData) → Grounded bad.called_missing is → ⊥ }
    ensures number { (is : List InputData) → Grounded bad.called_by_another_number is → ⊥ }
    ensures unlinked { (is : List InputData) → Grounded bad.unlinked_missing is → ⊥ }
{}

/// A reply is to a call.
pub fn a_reply_has_its_call()
    ensures { (is : List InputData) → Grounded bad.replied_to_no_call is → ⊥ }
{}

/// An object is held exactly where it has references, but for an object of the root with one, and it isn't held from an
/// owner that gives it up.
pub fn only_what_has_references_is_held()
    ensures held { (is : List InputData) → Grounded bad.held_without_references is → ⊥ }
    ensures freed { (is : List InputData) → Grounded bad.freed_though_held is → ⊥ }
    ensures unlinked { (is : List InputData) → Grounded bad.unlinked_held is → ⊥ }
{}

/// A free, and an unlinking, is refused as running only where the object ran when the call began, and for a
/// destructor's number only right after this was told.
pub fn a_refused_free_has_its_cause()
    ensures running { (is : List InputData) → Grounded bad.running_though_quiet is → ⊥ }
    ensures refused { (is : List InputData) → Grounded bad.refused_unheard is → ⊥ }
    ensures unlinked_running { (is : List InputData) → Grounded bad.unlinked_running_though_quiet is → ⊥ }
    ensures unlinked_refused { (is : List InputData) → Grounded bad.unlinked_refused_unheard is → ⊥ }
{}

/// A handler starts for a live object of its kind, whose turn it is, a request's routine for a request, and a
/// destructor accepts right after a question to it, while its object is asked.
pub fn routines_start_for_live_objects()
    ensures { (is : List InputData) → NoneOf (λ scenes. Grounded scenes is) bad.badly_started }
{}

/// A destructor accepts right after it has returned 0: not with another number, not after a call, and not before it
/// has returned.
pub fn a_destructor_accepts_with_0()
    ensures number { Grounded bad.asked_and_accepted (bad.returns 5 ∷ []) → ⊥ }
    ensures call { Grounded bad.asked_and_accepted (bad.calls ∷ []) → ⊥ }
    ensures open { Grounded bad.asked_and_accepted [] → ⊥ }
{}
