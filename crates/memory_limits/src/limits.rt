//! `Sums`: the limits of objects, each with the sum of what is inside its object.
ghost use Rattle.std.specs.Prelude.{◌+◌, ◌≡◌};

use crate::allowance::Allowance;
use crate::change::Change;
use pool_arena::Arena;
use std::alloc::Global;
use std::marker::Model;
use tree_links::{Tree, sum};
use tree_specs::{Memory, Obj, Owner, Refusal};

/// The objects with a limit, and what is inside each of them (`talloc_set_memlimit`). Contracts see the list of them,
/// in the order of their numbers, and spare. The sums are those of a tree as long as each placing, leaving, removal and
/// change of size is told. An object is looked up in the same time however many have a limit, and where none has one
/// nothing is done. Only `reserve` takes memory.
#[derive(Drop)]
pub struct Sums {
    limited: Arena<Allowance>,
}

impl Model for Sums {
    ghost use Rattle.memory_limits.specs.Limits.{Limits};

    ghost Value = { Limits };

    ghost use Rattle.memory_limits.specs.Limits.{listed};

    ghost view = { λ s. record { limited = listed s.limited.pairs; spare = s.limited.spare } };
}

impl Sums {
    ghost use Rattle.std.specs.Prelude.{◌≤◌, ◌<◌, ◌↔◌, IsTrue, List, [], OnOk, true, false, if◌then◌else◌};
    ghost use Rattle.std.specs.Option.{option_map};
    ghost use Rattle.tree_specs.specs.declared.object.Obj.{Obj as ObjData};
    ghost use Rattle.tree_specs.specs.Words.Objects.{same};
    ghost use Rattle.tree_specs.specs.Calls.Refusals.{checked, over, fits as fitting, is_plain_row};
    ghost use Rattle.tree_specs.specs.Tree.Sums.{sum_inside, limit_at};
    ghost use Rattle.tree_links.specs.Links.{IsTree, pool_of};
    ghost use Rattle.tree_specs.specs.Tree.Forest.{IsForest};
    ghost use Rattle.tree_specs.specs.declared.row.Row.{Row as RowData};
    ghost use Rattle.tree_specs.specs.declared.object.Owner.TheVariants.{Of as At};
    ghost use Rattle.tree_specs.specs.Tree.Pool.{row_of, is_row, is_inside, without, changed, left_row, owned_row, sized_row};
    ghost use Rattle.memory_limits.specs.Limits.{AllSums, AllBound, IsKeptSum, SameBounds, HasLeft, AreLimitsOf, limit_of, limited_at, found, nearest_limited, unlimited};

    /// No limits.
    pub fn new(alloc: Global) -> Sums
        ensures { result.limited ≡ [] }
    {
        Sums {
            limited: Arena::new(alloc),
        }
    }

    /// Takes memory for so many more limits. If memory runs out, they are as they were.
    pub fn reserve(&mut self, more: usize) -> Result<(), Memory>
        ensures limits { self.new.limited ≡ self.old.limited }
        ensures spare { OnOk result (more ≤ self.new.spare) }
        ensures kept { self.old.spare ≤ self.new.spare }
    {
        Ok(self.limited.reserve(more)?)
    }

    /// Whether no object has a limit.
    fn is_empty(&self) -> bool
        ensures { IsTrue result ↔ (self.now.limited ≡ []) }
    {
        self.limited.len() == 0
    }

    /// What is kept of an object with a limit. None exactly where it has none.
    fn find(&self, x: Obj) -> Option<Allowance>
        ensures { option_map (limited_at x.0) result ≡ found self.now.limited x }
    {
        self.limited.get(x.0).copied()
    }

    /// The nearest object with a limit from an owner upward, the owner included.
    fn nearest(&self, tree: &Tree, owner: Owner) -> Option<Obj>
        ensures nearest { result ≡ nearest_limited self.now.limited tree.now.rows owner }
        ensures sound { IsTree tree.now.rows tree.now.next }
    {
        let mut at = owner;
        let mut steps = tree.len() + 1;
        while steps > 0 {
            let Owner::Of(x) = at else {
                return None;
            };
            if self.find(x).is_some() {
                return Some(x);
            }
            at = tree.parent(x)?;
            steps -= 1;
        }
        None
    }

    /// Counts an object that came below its owner, with all that is inside it.
    pub fn joined(&mut self, tree: &Tree, x: Obj)
        requires { AllSums self.old.limited (changed left_row tree.now.rows x) }
        ensures sums { AllSums self.new.limited tree.now.rows }
        ensures bounds { SameBounds self.old.limited self.new.limited }
        ensures spare { self.new.spare ≡ self.old.spare }
    {
        if self.is_empty() {
            return;
        }
        let Some(owner) = tree.parent(x) else {
            return;
        };
        let Some(nearest) = self.nearest(tree, owner) else {
            return;
        };
        let more = self.sum_of(tree, x);
        Change { less: 0, more }.count_above(tree, nearest, &mut self.limited);
    }

    /// Counts that an object has left an owner that isn't inside it, with all that is inside it, to another owner or to
    /// none.
    pub fn left(&mut self, tree: &Tree, x: Obj, from: Owner)
        requires is { is_row tree.now.rows x ≡ true }
        requires apart { is_inside tree.now.rows from (At x) ≡ false }
        requires sums { AllSums self.old.limited (changed (owned_row from) tree.now.rows x) }
        ensures left { AllSums self.new.limited (changed left_row tree.now.rows x) }
        ensures bounds { SameBounds self.old.limited self.new.limited }
        ensures spare { self.new.spare ≡ self.old.spare }
    {
        if self.is_empty() {
            return;
        }
        let Some(nearest) = self.nearest(tree, from) else {
            return;
        };
        let less = self.sum_of(tree, x);
        Change { less, more: 0 }.count_above(tree, nearest, &mut self.limited);
    }

    /// Counts that a plain object has another size than before, which is given in bytes.
    pub fn resized(&mut self, tree: &Tree, x: Obj, before: u64)
        requires plain { is_plain_row (row_of tree.now.rows x) ≡ true }
        requires sums { AllSums self.old.limited (changed (sized_row before) tree.now.rows x) }
        ensures sums { AllSums self.new.limited tree.now.rows }
        ensures bounds { SameBounds self.old.limited self.new.limited }
        ensures spare { self.new.spare ≡ self.old.spare }
    {
        if self.is_empty() {
            return;
        }
        let (less, more) = (before, tree.size(x));
        Change { less, more }.count_above(tree, x, &mut self.limited);
    }

    /// Forgets the limit of an object that has none any more, or is no more. Where it had left its owner, or is a
    /// reference, the sums are then those of the objects without it.
    pub fn gone(&mut self, x: Obj)
        ensures limits { self.new.limited ≡ unlimited self.old.limited x }
        ensures sums { (rows : List RowData) → IsForest rows → is_row rows x ≡ true → HasLeft rows x → AllSums self.old.limited rows → AllSums self.new.limited (without rows x) }
        ensures kept { self.old.spare ≤ self.new.spare }
    {
        if self.is_empty() {
            return;
        }
        self.limited.take(x.0);
    }

    /// Sets the limit of an object, in bytes; 0 is none.
    pub fn set_limit(&mut self, tree: &Tree, x: Obj, max: u64)
        requires room { 0 < self.old.spare }
        requires sums { AllSums self.old.limited tree.now.rows }
        ensures limits { (y : ObjData) → limit_of self.new.limited y ≡ (if same x y then max else limit_of self.old.limited y) }
        ensures sums { AllSums self.new.limited tree.now.rows }
        ensures bound { AllBound self.old.limited → AllBound self.new.limited }
        ensures spare { self.old.spare ≤ self.new.spare + 1 }
    {
        if max == 0 {
            self.gone(x);
            return;
        }
        let sum = self.sum_of(tree, x);
        self.gone(x);
        self.limited.add(x.0, Allowance { limit: max, sum });
    }

    /// What the objects inside an owner count, in bytes: each its size and `OVERHEAD` more, a reference nothing. It is
    /// kept for an object with a limit.
    pub fn sum(&self, tree: &Tree, owner: Owner) -> u64
        requires { AllSums self.now.limited tree.now.rows }
        ensures { result ≡ sum_inside tree.now.rows owner }
    {
        match owner {
            Owner::Root => sum(tree, owner),
            Owner::Of(x) => self.sum_of(tree, x),
        }
    }

    /// What the objects inside an object count, in bytes. Where it has a limit, this is kept, and only its own sum need be
    /// that of the tree: it is while the object comes or goes.
    fn sum_of(&self, tree: &Tree, x: Obj) -> u64
        requires { IsKeptSum self.now.limited tree.now.rows x }
        ensures { result ≡ sum_inside tree.now.rows (At x) }
    {
        match self.find(x) {
            Some(allowance) => allowance.sum,
            None => sum(tree, Owner::Of(x)),
        }
    }

    /// Whether an object, whose row has this limit, has room for so many more bytes inside it.
    fn check_one(&self, x: Obj, limit: u64, wanted: u64, _tree: &Tree) -> Result<(), Refusal>
        requires limits { AreLimitsOf self.now.limited _tree.now.rows }
        requires limit { limit ≡ limit_at _tree.now.rows x }
        ensures { result ≡ checked (over _tree.now.rows wanted x) }
    {
        if limit == 0 {
            return Ok(());
        }
        let Some(allowance) = self.find(x) else {
            return Ok(());
        };
        if !allowance.lacks(wanted) {
            return Ok(());
        }
        Err(Refusal::OverLimit {
            row: x,
            sum: allowance.sum,
            wanted,
            limit,
        })
    }

    /// Whether so many more bytes fit below an owner: neither it nor one above it has a limit that they would exceed.
    /// The refusal names the nearest one that has no room, with the sum of what is inside it and its limit.
    #[tactic(auto, unfolding(tree_specs::specs::Calls::Refusals::fits))]
    pub fn fits(&self, tree: &Tree, owner: Owner, wanted: u64) -> Result<(), Refusal>
        requires { AreLimitsOf self.now.limited tree.now.rows }
        ensures { result ≡ checked (fitting (pool_of tree.now) owner wanted) }
    {
        if self.is_empty() {
            return Ok(());
        }
        let mut at = owner;
        let mut steps = tree.len();
        while steps > 0 {
            let Owner::Of(x) = at else {
                return Ok(());
            };
            let Some(row) = tree.row(x) else {
                return Ok(());
            };
            self.check_one(x, row.limit, wanted, tree)?;
            let Some(next) = row.owner else {
                return Ok(());
            };
            at = next;
            steps -= 1;
        }
        Ok(())
    }
}
