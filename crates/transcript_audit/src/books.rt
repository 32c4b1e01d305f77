//! What was told of each object so far.
ghost use Rattle.std.specs.Prelude.{◌≡◌, OnOk, if◌then◌else◌, None};
ghost use Rattle.tree_specs.specs.declared.object.Obj.{Obj as ObjData};
ghost use Rattle.tree_specs.specs.Words.Objects.{same};
ghost use Rattle.transcript_lines.specs.declared.said.Fact.TheVariants as facts;
ghost use Rattle.transcript_audit.specs.Kept.{owner_is_freed, seen_after};

use crate::judging::{
    broken_freed, broken_judged, broken_state, is_refusal, refusal_after, three_where,
};
use crate::seen::Seen;
use indexmap::IndexMap;
use std::alloc::Global;
use transcript_lines::Fact;
use tree_specs::{Memory, Obj, Owner};

/// Nothing was told.
const NOTHING: Seen = Seen {
    accepted: false,
    freed: false,
    dropped: false,
    over: false,
    received: false,
};

/// What was told of each object.
#[derive(Drop)]
pub struct Books {
    /// A record for each object of which something was told that a rule looks at.
    pub records: IndexMap<u64, Seen>,
    /// The object and the number, where the last event is that a destructor returned a number.
    pub refused: Option<(Obj, u32)>,
}

impl Books {
    ghost use Rattle.transcript_audit.specs.Audits.{nothing_seen, seen_of, breach_of, Notes};

    /// Nothing was told yet.
    pub(crate) fn new(alloc: Global) -> Books
        ensures seen { (x : ObjData) → seen_of result x ≡ nothing_seen }
        ensures refused { result.refused ≡ None }
    {
        Books {
            records: IndexMap::new(alloc),
            refused: None,
        }
    }

    /// What was told of an object.
    fn seen(&self, x: Obj) -> Seen
        ensures { result ≡ seen_of self.now x }
    {
        match self.records.get(&x.0) {
            Some(seen) => *seen,
            None => NOTHING,
        }
    }

    fn is_freed(&self, x: Obj) -> bool
        ensures { result ≡ (seen_of self.now x).freed }
    {
        self.seen(x).freed
    }

    /// Whether an owner is an object that is no more.
    fn is_owner_freed(&self, owner: Owner) -> bool
        ensures { result ≡ owner_is_freed (seen_of self.now) owner }
    {
        match owner {
            Owner::Root => false,
            Owner::Of(x) => self.is_freed(x),
        }
    }

    /// The least rule that is broken where this comes next.
    pub(crate) fn broken(&self, fact: Fact) -> Option<u32>
        ensures { result ≡ breach_of self.now fact }
    {
        match fact {
            Fact::Nothing => None,
            Fact::Uses(x) => three_where(self.is_freed(x)),
            Fact::Asks(x) => broken_judged(self.seen(x)),
            Fact::Accepts(x) => broken_judged(self.seen(x)),
            Fact::Refuses(x, _) => broken_judged(self.seen(x)),
            Fact::RefusesCall(x, answer) => {
                if is_refusal(self.refused, x, answer) {
                    None
                } else {
                    Some(4)
                }
            }
            Fact::Moves(x, owner) => three_where(self.is_freed(x) || self.is_owner_freed(owner)),
            Fact::Frees(x, hook) => broken_freed(self.seen(x), hook),
            Fact::Drops(reference, target) => {
                three_where(self.is_freed(target) || self.seen(reference).dropped)
            }
            Fact::Sets(x, state) => broken_state(self.seen(x), state),
        }
    }

    /// Keeps this of an object.
    #[tactic(auto, using(crate::proofs::Keeping::kept_where))]
    fn keep(&mut self, x: Obj, seen: Seen) -> Result<(), Memory>
        ensures seen { OnOk result ((y : ObjData) → seen_of self.new y ≡ (if same x y then seen else seen_of self.old y)) }
        ensures refused { self.new.refused ≡ self.old.refused }
    {
        self.records.insert(x.0, seen)?;
        Ok(())
    }

    #[tactic(auto, using(crate::proofs::Keeping::accepted_kept))]
    fn note_accepted(&mut self, x: Obj) -> Result<(), Memory>
        ensures seen { OnOk result ((y : ObjData) → seen_of self.new y ≡ seen_after (facts.Accepts x) y (seen_of self.old y)) }
        ensures refused { self.new.refused ≡ self.old.refused }
    {
        let seen = self.seen(x);
        self.keep(
            x,
            Seen {
                accepted: true,
                ..seen
            },
        )
    }

    #[tactic(auto, using(crate::proofs::Keeping::freed_kept))]
    fn note_freed(&mut self, x: Obj) -> Result<(), Memory>
        ensures seen { OnOk result ((y : ObjData) → seen_of self.new y ≡ seen_after (facts.Frees x 0) y (seen_of self.old y)) }
        ensures refused { self.new.refused ≡ self.old.refused }
    {
        let seen = self.seen(x);
        self.keep(
            x,
            Seen {
                freed: true,
                ..seen
            },
        )
    }

    #[tactic(auto, using(crate::proofs::Keeping::dropped_kept))]
    fn note_dropped(&mut self, x: Obj) -> Result<(), Memory>
        ensures seen { OnOk result ((y : ObjData) → seen_of self.new y ≡ seen_after (facts.Drops x x) y (seen_of self.old y)) }
        ensures refused { self.new.refused ≡ self.old.refused }
    {
        let seen = self.seen(x);
        self.keep(
            x,
            Seen {
                dropped: true,
                ..seen
            },
        )
    }

    #[tactic(auto, using(crate::proofs::Keeping::state_kept))]
    fn note_state(&mut self, x: Obj, state: u32) -> Result<(), Memory>
        ensures seen { OnOk result ((y : ObjData) → seen_of self.new y ≡ seen_after (facts.Sets x state) y (seen_of self.old y)) }
        ensures refused { self.new.refused ≡ self.old.refused }
    {
        let seen = self.seen(x);
        self.keep(
            x,
            Seen {
                over: seen.over || 2 <= state,
                received: seen.received || 6 <= state,
                ..seen
            },
        )
    }

    /// Notes what came of the objects.
    #[tactic(auto, using(crate::proofs::Keeping::nothing_kept))]
    fn note_objects(&mut self, fact: Fact) -> Result<(), Memory>
        ensures seen { OnOk result ((y : ObjData) → seen_of self.new y ≡ seen_after fact y (seen_of self.old y)) }
        ensures refused { self.new.refused ≡ self.old.refused }
    {
        match fact {
            Fact::Accepts(x) => self.note_accepted(x),
            Fact::Frees(x, _) => self.note_freed(x),
            Fact::Drops(x, _) => self.note_dropped(x),
            Fact::Sets(x, state) => self.note_state(x, state),
            _ => Ok(()),
        }
    }

    /// Notes what no rule looks at.
    #[inline(always)]
    #[tactic(auto, using(crate::proofs::Keeping::nothing_kept))]
    pub(crate) fn note_nothing(&mut self)
        ensures { Notes self.old facts.Nothing self.new }
    {
        self.refused = None;
    }

    /// Notes what came.
    pub(crate) fn note(&mut self, fact: Fact) -> Result<(), Memory>
        ensures { OnOk result (Notes self.old fact self.new) }
    {
        self.note_objects(fact)?;
        self.refused = refusal_after(fact);
        Ok(())
    }
}
