//! What all drivers have in common, each the clause of a function that does nothing: `T` the items of the machine, `E` its
//! events, `Q` its questions and `I` its inputs; `J` the answers of the outside and `U` what it sees; `D` what the driver
//! knows.
ghost use Rattle.std.specs.Prelude.{◌≡◌, ◌+◌, ◌∷◌, ◌++◌, ℕ, suc, [], List, None, Some, map};
ghost use Rattle.step_machine.specs.Machine.{Table, map_items, run, walk};
ghost use Rattle.step_machine.specs.Noted.{Noted, Notes, Scene, noted};
ghost use Rattle.machine_driver.specs.Driver.{Driver, Story, driven, with_front};
ghost use Rattle.machine_driver.specs.Driver.Kind.{Event, Question};
ghost use Rattle.machine_driver.specs.Driver.Given.{Pass, Reply};
ghost use Rattle.machine_driver.specs.Allowed.{still_allowed};
ghost use Rattle.machine_driver.specs.Hearing.{Listens, heard_story};
ghost use Rattle.machine_driver.specs.Seen.{item_of, seen, sight_of};
ghost use Rattle.machine_driver.specs.Watched.{Log, after, logged};

/// How the story still to come goes on: after an event of the machine, after an answer of the driver's own, which is one
/// fewer of those that are allowed, and after one of the outside, with which some more come.
pub fn a_driven_story_goes_on<D, T, E, Q, I, J, U>()
    ensures event { (driver : Driver D T E Q I J U) (more : ℕ) (d : D) (s next : Story I T) (left : ℕ) (t : T) (e : E) → driver.kind t ≡ Event e → ((is : List I) → s is ≡ t ∷ next is) → (js : List J) →
        still_allowed driver more d s left js ≡ with_front (driver.shows d e) (still_allowed driver more (driver.told d e) next left js) }
    ensures own { (driver : Driver D T E Q I J U) (more : ℕ) (d after : D) (s next : Story I T) (left : ℕ) (t : T) (q : Q) (i : I) → driver.kind t ≡ Question q → ((is : List I) → (rest : List T) × (s is ≡ t ∷ rest)) →
        driver.own d q ≡ Some (i, after) → ((is : List I) → s (i ∷ is) ≡ t ∷ next is) → (js : List J) →
        still_allowed driver more d s (suc left) js ≡ with_front (driver.asks d q) (still_allowed driver more after next left js) }
    ensures passed { (driver : Driver D T E Q I J U) (less : ℕ) (d after : D) (s next : Story I T) (left : ℕ) (t : T) (q : Q) (j : J) (i : I) → driver.kind t ≡ Question q → ((is : List I) → (rest : List T) × (s is ≡ t ∷ rest)) →
        driver.own d q ≡ None → driver.heard d q j ≡ Pass i after → ((is : List I) → s (i ∷ is) ≡ t ∷ next is) → (js : List J) →
        still_allowed driver (suc less) d s left (j ∷ js) ≡ with_front (driver.asks d q) (still_allowed driver (suc less) after next (left + less) js) }
    ensures asked { (driver : Driver D T E Q I J U) (more : ℕ) (d : D) (s : Story I T) (left : ℕ) (t : T) (q : Q) → driver.kind t ≡ Question q → ((is : List I) → (rest : List T) × (s is ≡ t ∷ rest)) → driver.own d q ≡ None →
        still_allowed driver more d s left [] ≡ Some (driver.asks d q ++ []) }
{}

/// A driven story that is there is the same where more answers are allowed.
pub fn more_answers_give_the_same<D, T, E, Q, I, J, U>()
    ensures { (driver : Driver D T E Q I J U) (n more : ℕ) (d : D) (s : Story I T) (js : List J) (us : List U) → driven driver n d s js ≡ Some us → driven driver (more + n) d s js ≡ Some us }
{}

/// The story of a driver that answers nothing itself goes on by the answers of the outside alone, whatever is allowed.
pub fn a_driver_that_listens_goes_on<D, T, E, Q, I, J, U>()
    ensures event { (driver : Driver D T E Q I J U) (d : D) (s next : Story I T) (t : T) (e : E) → Listens driver → driver.kind t ≡ Event e → ((is : List I) → s is ≡ t ∷ next is) → (js : List J) →
        heard_story driver d s js ≡ driver.shows d e ++ heard_story driver (driver.told d e) next js }
    ensures passed { (driver : Driver D T E Q I J U) (d after : D) (s next : Story I T) (t : T) (q : Q) (j : J) (i : I) → Listens driver → driver.kind t ≡ Question q → ((is : List I) → (rest : List T) × (s is ≡ t ∷ rest)) →
        driver.heard d q j ≡ Pass i after → ((is : List I) → s (i ∷ is) ≡ t ∷ next is) → (js : List J) → heard_story driver d s (j ∷ js) ≡ driver.asks d q ++ heard_story driver after next js }
    ensures replied { (driver : Driver D T E Q I J U) (d after : D) (s : Story I T) (t : T) (q : Q) (j : J) (us : List U) → Listens driver → driver.kind t ≡ Question q → ((is : List I) → (rest : List T) × (s is ≡ t ∷ rest)) →
        driver.heard d q j ≡ Reply us after → (js : List J) → heard_story driver d s (j ∷ js) ≡ (driver.asks d q ++ us) ++ heard_story driver after s js }
    ensures asked { (driver : Driver D T E Q I J U) (d : D) (s : Story I T) (t : T) (q : Q) → Listens driver → driver.kind t ≡ Question q → ((is : List I) → (rest : List T) × (s is ≡ t ∷ rest)) → heard_story driver d s [] ≡ driver.asks d q ++ [] }
{}

/// A log changes nothing of what the outside sees, and nothing of what the driver knows.
pub fn a_log_changes_nothing<L, D, T, E, Q, I, J, U>()
    ensures story { (log : Log L D E Q J) (driver : Driver D T E Q I J U) (n : ℕ) (d : D) (l : L) (s : Story I T) (js : List J) → driven (logged log driver) n (d, l) s js ≡ driven driver n d s js }
    ensures knowledge { (log : Log L D E Q J) (driver : Driver D T E Q I J U) (ts : List T) (d : D) (l : L) (js : List J) → (after (logged log driver) ts (d, l) js).0 ≡ after driver ts d js }
{}

/// A machine that is seen with its pools tells what it tells unseen, and what is seen of it are its scenes.
pub fn a_machine_is_the_same_where_it_is_seen<F, A, P, I, T, N>()
    ensures items { (t : Table F A P I T) (n : ℕ) (f : F) (fs : List F) (p : P) (is : List I) → map_items item_of (walk (seen t) n f fs p is) ≡ walk t n f fs p is }
    ensures scenes { (notes : Notes F P N) (t : Table F A P I T) (n : ℕ) (w : Noted F N) (p : P) (is : List I) →
        map_items (λ (s : Scene P N T). sight_of s) (run (noted notes t) n w p is) ≡ run (seen t) n w.work p is }
{}
