//! `Refs`: which object refers to which. The target of a reference, the newest reference to an object and the number of
//! references to it are found in the same time however many references there are; the newest one that an owner has is
//! searched for.
//!
//! Contracts see the list of pairs of a reference and its target, the newest reference first, and for how many more
//! there is memory (`spare`). `AreRefsOf` in `specs/Rows` says that these are the references among the rows of a tree.
//!
//! Read on in `head.rt` and `node.rt`, which keep the references to one object as a lane, and in `referring.rt`.
ghost use Rattle.std.specs.Prelude.{◌≡◌};
ghost use Rattle.std.specs.Option.{option_map};
ghost use Rattle.tree_specs.specs.Tree.Targets.{newer as newer_of};
ghost use Rattle.references.specs.Linked.{numbered, with_ref};

use crate::head::{Head, count, join, leave, newest};
use crate::node::{Node, set_link};
use linked_lanes::{Link, Sides};
use pool_arena::Arena;
use std::alloc::Global;
use std::marker::Model;
use tree_links::Tree;
use tree_specs::{Memory, Obj, Owner};

/// A reference, and the object that it refers to.
#[derive(Clone, Copy, PartialEq, Eq)]
pub struct Pair {
    /// The reference, which is an object of its own.
    pub reference: Obj,
    /// The object that it refers to.
    pub target: Obj,
}

/// The references that there are. Contracts see the list of pairs, the one with the greatest reference first, and
/// spare: so many can be added without taking memory. There are at most 4,294,967,295. Only `reserve` takes memory.
#[derive(Drop)]
pub struct Refs {
    /// Under the numbers of the references.
    nodes: Arena<Node>,
    /// Under the numbers of the objects that have references.
    heads: Arena<Head>,
}

impl Model for Refs {
    ghost use Rattle.references.specs.Pairs.{Pairs};

    ghost Value = { Pairs };

    ghost use Rattle.std.specs.Prelude.{min};
    ghost use Rattle.references.specs.Linked.{pairs_in, IsLinked};

    ghost view = { λ r. record { pairs = pairs_in r.nodes.pairs; spare = min r.nodes.spare r.heads.spare } };

    ghost invariant = { λ r. IsLinked r.nodes.pairs r.heads.pairs };
}

/// The object of this number, where there is one.
fn obj(number: Option<u64>) -> Option<Obj>
    ensures { result ≡ option_map numbered number }
{
    match number {
        None => None,
        Some(n) => Some(Obj(n)),
    }
}

/// The newer of a reference and another one, where there is one.
fn newer(reference: Obj, other: Option<Obj>) -> Option<Obj>
    ensures { result ≡ newer_of reference other }
{
    match other {
        Some(x) if reference.0 < x.0 => Some(x),
        _ => Some(reference),
    }
}

impl Refs {
    ghost use Rattle.std.specs.Prelude.{◌+◌, ◌-◌, ◌^◌, ◌<◌, ◌≤◌, [], ◌∷◌, OnOk, MatchOption, length, Some};
    ghost use Rattle.std.specs.List.{find, position};
    ghost use Rattle.std.specs.Option.{option_copied};
    ghost use Rattle.tree_specs.specs.declared.object.Obj.{Obj as ObjData};
    ghost use Rattle.tree_specs.specs.Tree.Reports.{count_refs};
    ghost use Rattle.tree_specs.specs.Tree.Targets.{newest_ref};
    ghost use Rattle.tree_specs.specs.Tree.Pool.{newest_ref_of};
    ghost use Rattle.tree_specs.specs.Tree.Forest.{Distinct};
    ghost use Rattle.references.specs.Rows.{AreRefsOf, RefersTo};
    ghost use Rattle.references.specs.Pairs.{pair, ArePairs, IsAbove, count_to, first_to, first_below, next_to, target_of, without, most};

    /// No references.
    pub fn new(alloc: Global) -> Refs
        ensures { result.pairs ≡ [] }
    {
        Refs {
            nodes: Arena::new(alloc),
            heads: Arena::new(alloc),
        }
    }

    /// Takes memory for so many more references. If memory runs out, they are as they were.
    pub fn reserve(&mut self, more: usize) -> Result<(), Memory>
        ensures pairs { self.new.pairs ≡ self.old.pairs }
        ensures spare { OnOk result (more ≤ self.new.spare) }
        ensures kept { self.old.spare ≤ self.new.spare }
    {
        self.nodes.reserve(more)?;
        self.heads.reserve(more)?;
        Ok(())
    }

    /// Adds a reference, whose number is above those of all others.
    pub fn add_ref(&mut self, reference: Obj, target: Obj)
        requires room { 0 < self.old.spare }
        requires newest { IsAbove reference self.old.pairs }
        requires few { length self.old.pairs < most }
        ensures pairs { self.new.pairs ≡ pair reference target ∷ self.old.pairs }
        ensures spare { self.old.spare ≤ self.new.spare + 1 }
    {
        let older = join(&mut self.heads, target.0, reference.0);
        set_link(&mut self.nodes, older, Link::Newer(Some(reference.0)));
        let sides = Sides { newer: None, older };
        self.nodes.add(
            reference.0,
            Node {
                target: target.0,
                sides,
            },
        );
    }

    /// Drops a reference, and gives its target. None exactly where there is no such reference.
    pub fn drop_ref(&mut self, reference: Obj) -> Option<Obj>
        ensures target { result ≡ target_of self.old.pairs reference }
        ensures pairs { self.new.pairs ≡ without self.old.pairs reference }
        ensures spare { self.old.spare ≤ self.new.spare }
    {
        let Node { target, sides } = self.nodes.take(reference.0)?;
        leave(&mut self.heads, target, sides);
        set_link(&mut self.nodes, sides.newer, Link::Older(sides.older));
        set_link(&mut self.nodes, sides.older, Link::Newer(sides.newer));
        Some(Obj(target))
    }

    /// The target of a reference. None exactly where there is no such reference.
    pub fn target(&self, reference: Obj) -> Option<Obj>
        ensures { result ≡ target_of self.now.pairs reference }
    {
        match self.nodes.get(reference.0) {
            None => None,
            Some(node) => Some(Obj(node.target)),
        }
    }

    /// The newest reference to an object. None exactly where there is none.
    pub fn first_ref(&self, target: Obj) -> Option<Obj>
        ensures first { result ≡ first_to self.now.pairs target }
        ensures sound { ArePairs self.now.pairs }
    {
        self.refs_to(target).0
    }

    /// The newest reference to an object, and how many there are.
    fn refs_to(&self, target: Obj) -> (Option<Obj>, u32)
        ensures first { result.0 ≡ first_to self.now.pairs target }
        ensures count { result.1 ≡ count_to self.now.pairs target }
        ensures sound { ArePairs self.now.pairs }
    {
        let head = self.heads.get(target.0).copied();
        (obj(newest(head)), count(head))
    }

    /// The newest reference to an object. None exactly where there is none. The references are those among the rows.
    pub fn newest(&self, tree: &Tree, target: Obj) -> Option<Obj>
        requires { AreRefsOf self.now.pairs tree.now.rows }
        ensures newest { result ≡ newest_ref tree.now.rows target }
        ensures is { RefersTo tree.now.rows result target }
    {
        // Read for the prover: the contract of `len` says that each number stands once.
        let _rows = tree.len();
        self.first_ref(target)
    }

    /// The newer of a child and those before it, where the child refers to the object.
    fn with_child(&self, child: Obj, newest: Option<Obj>, target: Obj) -> Option<Obj>
        ensures { result ≡ with_ref self.now.pairs target child newest }
    {
        match self.target(child) {
            Some(x) if x.0 == target.0 => newer(child, newest),
            _ => newest,
        }
    }

    /// The newest reference to an object that an owner has. An object may have very many references, and an owner very
    /// many children: so both are gone through, one of each in turn, until either ends.
    fn first_owned(&self, tree: &Tree, owner: Owner, target: Obj) -> Option<Obj>
        requires refs { AreRefsOf self.now.pairs tree.now.rows }
        requires distinct { Distinct tree.now.rows }
        ensures { result ≡ newest_ref_of tree.now.rows owner target }
    {
        let (mut at, mut left) = self.refs_to(target);
        // Nothing refers to most objects.
        if left == 0 {
            return None;
        }
        let mut child = tree.first_kid(owner);
        let mut newest = None;
        while left > 0 {
            left -= 1;
            let Some(reference) = at else {
                return None;
            };
            if tree.owns(owner, reference) {
                return Some(reference);
            }
            at = self.next_ref(reference);
            let Some(kid) = child else {
                return newest;
            };
            newest = self.with_child(kid, newest, target);
            child = tree.next_kid(kid);
        }
        None
    }

    /// The newest reference to an object that an owner has. None exactly where it has none. The references are those
    /// among the rows. It goes through the references to the object and the children of the owner side by side, and
    /// ends with whichever ends first.
    pub fn newest_of(&self, tree: &Tree, owner: Owner, target: Obj) -> Option<Obj>
        requires { AreRefsOf self.now.pairs tree.now.rows }
        ensures newest { result ≡ newest_ref_of tree.now.rows owner target }
        ensures is { RefersTo tree.now.rows result target }
    {
        // Read for the prover: the contract of `len` says that each number stands once.
        let _rows = tree.len();
        self.first_owned(tree, owner, target)
    }

    /// The newest reference to the same object that is older than this one. None exactly where there is none, or no
    /// such reference as this one.
    pub fn next_ref(&self, reference: Obj) -> Option<Obj>
        ensures { result ≡ next_to self.now.pairs reference }
    {
        match self.nodes.get(reference.0) {
            None => None,
            Some(node) => obj(node.sides.older),
        }
    }

    /// How many references there are to an object.
    pub fn count_refs(&self, target: Obj) -> u32
        ensures count { result ≡ count_to self.now.pairs target }
        ensures sound { ArePairs self.now.pairs }
    {
        self.refs_to(target).1
    }

    /// How many references there are to an object. The references are those among the rows.
    pub fn count(&self, tree: &Tree, target: Obj) -> u32
        requires { AreRefsOf self.now.pairs tree.now.rows }
        ensures { result ≡ count_refs tree.now.rows target }
    {
        // Read for the prover: the contract of `len` says that each number stands once.
        let _rows = tree.len();
        self.count_refs(target)
    }
}
