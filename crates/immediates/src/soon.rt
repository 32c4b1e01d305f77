//! `Soon`: the objects that come soon, in their order, each in a context. One can leave this order wherever it stands.
ghost use Rattle.std.specs.Prelude.{◌≡◌};
ghost use Rattle.std.specs.Option.{option_map};
ghost use Rattle.immediates.specs.Linked.{numbered};

use crate::change::Change;
use crate::node::{Node, set_link};
use http_server::Log;
use lane_ends::LaneEnds;
use linked_lanes::{Extent, Link, Sides};
use pool_arena::Arena;
use std::alloc::Global;
use std::marker::Model;
use tree_specs::{Coming, Memory, Obj};

/// The objects that come soon, first in first out in each context: immediates that are scheduled, requests whose callback
/// is posted, and queues that are to look at their first entry. Contracts see the list of them with their contexts, each
/// object once; the contexts that were added beside the first one, which always is there and has the number 0; and for how
/// many more objects and contexts there is memory (`spare`, `contexts_spare`). Only `reserve` and `reserve_context` take
/// memory. Each call but `clear` and `drop_context` takes the same time however many wait.
#[derive(Drop)]
pub struct Soon {
    /// The place of each, under its number.
    nodes: Arena<Node>,
    /// The ends of each context, under its number.
    ends: LaneEnds,
    /// What has become of them. The order between contexts can be read nowhere else. Only proofs read it, and it takes no
    /// memory.
    changes: Log<Change, ()>,
}

impl Model for Soon {
    ghost use Rattle.immediates.specs.Waiting.{Waiting};

    ghost Value = { Waiting };

    ghost use Rattle.immediates.specs.Changes.{coming_of, contexts_of};
    ghost use Rattle.immediates.specs.Linked.{IsKept};

    ghost view = { λ s. record { coming = coming_of s.changes.items; contexts = contexts_of s.changes.items; spare = s.nodes.spare; contexts_spare = s.ends.spare } };

    ghost invariant = { λ s. IsKept s.nodes.pairs s.ends.lanes (coming_of s.changes.items) (contexts_of s.changes.items) };
}

/// The object of this number, where there is one.
fn obj(number: Option<u64>) -> Option<Obj>
    ensures { result ≡ option_map numbered number }
{
    match number {
        None => None,
        Some(n) => Some(Obj(n)),
    }
}

impl Soon {
    ghost use Rattle.std.specs.Prelude.{◌+◌, ◌<◌, ◌≤◌, ◌↔◌, [], ◌∷◌, ◌++◌, IsTrue, OnOk, OnErr, length, drop, false, true};
    ghost use Rattle.tree_specs.specs.Events.Pending.{is_scheduled, scheduled, unscheduled, soon_in, soon_without};
    ghost use Rattle.tree_specs.specs.Events.Contexts.{has_context, with_context, without_context};
    ghost use Rattle.immediates.specs.Waiting.{AreOnce, next_in, left_after};

    /// Nothing comes soon, and the first context is the only one.
    pub fn new(alloc: Global) -> Soon
        ensures coming { result.coming ≡ [] }
        ensures contexts { result.contexts ≡ [] }
    {
        Soon {
            nodes: Arena::new(alloc),
            ends: LaneEnds::new(alloc),
            changes: Log::new(),
        }
    }

    /// Takes memory for so many more objects. If memory runs out, they are as they were.
    pub fn reserve(&mut self, more: usize) -> Result<(), Memory>
        ensures coming { self.new.coming ≡ self.old.coming }
        ensures contexts { self.new.contexts ≡ self.old.contexts }
        ensures spare { OnOk result (more ≤ self.new.spare) }
        ensures kept { self.old.spare ≤ self.new.spare }
        ensures contexts_spare { self.new.contexts_spare ≡ self.old.contexts_spare }
    {
        Ok(self.nodes.reserve(more)?)
    }

    /// Takes memory for one more context. If memory runs out, all is as it was.
    pub fn reserve_context(&mut self) -> Result<(), Memory>
        ensures coming { self.new.coming ≡ self.old.coming }
        ensures contexts { self.new.contexts ≡ self.old.contexts }
        ensures spare { self.new.spare ≡ self.old.spare }
        ensures contexts_spare { OnOk result (0 < self.new.contexts_spare) }
        ensures kept { self.old.contexts_spare ≤ self.new.contexts_spare }
    {
        Ok(self.ends.reserve(1)?)
    }

    /// Adds a context, in which none waits. One that is there stays as it is.
    pub fn add_context(&mut self, c: Obj)
        requires { 0 < self.old.contexts_spare }
        ensures coming { self.new.coming ≡ self.old.coming }
        ensures contexts { self.new.contexts ≡ with_context self.old.contexts c }
        ensures spare { self.new.spare ≡ self.old.spare }
    {
        if self.ends.get(c.0).is_some() {
            return;
        }
        self.ends.add_lane(c.0);
        self.changes = self.changes.and(&Change::Opens(c), &());
    }

    /// Puts one that doesn't wait behind all others of a context.
    fn join(&mut self, x: Obj, c: Obj)
        requires room { 0 < self.old.spare }
        requires absent { is_scheduled self.old.coming x ≡ false }
        requires known { has_context self.old.contexts c ≡ true }
        ensures coming { self.new.coming ≡ self.old.coming ++ record { object = x; context = c } ∷ [] }
        ensures contexts { self.new.contexts ≡ self.old.contexts }
        ensures spare { self.old.spare ≤ self.new.spare + 1 }
        ensures contexts_spare { self.old.contexts_spare ≤ self.new.contexts_spare }
    {
        let ends = self.ends.get(c.0).unwrap();
        set_link(&mut self.nodes, ends.newest, Link::Newer(Some(x.0)));
        let sides = Sides {
            newer: None,
            older: ends.newest,
        };
        self.nodes.add(
            x.0,
            Node {
                context: c.0,
                sides,
            },
        );
        prove!(ends.count < self.nodes.len());
        self.ends.set(c.0, ends.joined(x.0));
        self.changes = self.changes.and(
            &Change::Joins(Coming {
                object: x,
                context: c,
            }),
            &(),
        );
    }

    /// Puts an object behind all others that come soon in a context. One that waits already, in whatever context, goes to
    /// the end of this one.
    pub fn push(&mut self, x: Obj, c: Obj)
        requires room { 0 < self.old.spare }
        requires known { has_context self.old.contexts c ≡ true }
        ensures coming { self.new.coming ≡ scheduled self.old.coming x c }
        ensures contexts { self.new.contexts ≡ self.old.contexts }
        ensures spare { self.old.spare ≤ self.new.spare + 1 }
        ensures contexts_spare { self.old.contexts_spare ≤ self.new.contexts_spare }
    {
        self.remove(x);
        self.join(x, c);
    }

    /// Removes an object, which doesn't come any more. Answers whether it waited.
    pub fn remove(&mut self, x: Obj) -> bool
        ensures result { result ≡ is_scheduled self.old.coming x }
        ensures coming { self.new.coming ≡ unscheduled self.old.coming x }
        ensures contexts { self.new.contexts ≡ self.old.contexts }
        ensures spare { self.old.spare ≤ self.new.spare }
        ensures contexts_spare { self.old.contexts_spare ≤ self.new.contexts_spare }
    {
        let Some(node) = self.nodes.take(x.0) else {
            return false;
        };
        let ends = self.ends.get(node.context).unwrap();
        self.ends.set(node.context, ends.left(node.sides));
        let Sides { newer, older } = node.sides;
        set_link(&mut self.nodes, newer, Link::Older(older));
        set_link(&mut self.nodes, older, Link::Newer(newer));
        self.changes = self.changes.and(&Change::Leaves(x), &());
        true
    }

    /// The one whose turn it is in a context. None exactly where none waits there.
    #[inline(always)]
    fn next(&self, c: Obj) -> Option<Obj>
        ensures next { result ≡ next_in self.now.coming c }
        ensures once { AreOnce self.now.coming }
    {
        match self.ends.get(c.0) {
            None => None,
            Some(ends) => obj(ends.oldest),
        }
    }

    /// Takes out the object whose turn it is in a context. None exactly where none waits there.
    pub fn pop(&mut self, c: Obj) -> Option<Obj>
        ensures next { result ≡ next_in self.old.coming c }
        ensures coming { self.new.coming ≡ left_after result self.old.coming }
        ensures here { soon_in self.new.coming c ≡ drop 1 (soon_in self.old.coming c) }
        ensures elsewhere { soon_without self.new.coming c ≡ soon_without self.old.coming c }
        ensures contexts { self.new.contexts ≡ self.old.contexts }
        ensures spare { self.old.spare ≤ self.new.spare }
        ensures contexts_spare { self.old.contexts_spare ≤ self.new.contexts_spare }
    {
        let next = self.next(c);
        if let Some(x) = next {
            self.remove(x);
        }
        next
    }

    /// Takes out all that wait in a context, which stays. It takes the time of those that wait there.
    #[inline(always)]
    pub fn clear(&mut self, c: Obj)
        ensures coming { self.new.coming ≡ soon_without self.old.coming c }
        ensures none { soon_in self.new.coming c ≡ [] }
        ensures contexts { self.new.contexts ≡ self.old.contexts }
        ensures spare { self.old.spare ≤ self.new.spare }
        ensures contexts_spare { self.old.contexts_spare ≤ self.new.contexts_spare }
    {
        while !self.is_empty(c) {
            self.pop(c);
        }
    }

    /// Drops a context in which none waits.
    fn close(&mut self, c: Obj)
        requires { soon_in self.old.coming c ≡ [] }
        ensures coming { self.new.coming ≡ self.old.coming }
        ensures contexts { self.new.contexts ≡ without_context self.old.contexts c }
        ensures spare { self.new.spare ≡ self.old.spare }
        ensures contexts_spare { self.old.contexts_spare ≤ self.new.contexts_spare }
    {
        self.ends.drop_lane(c.0);
        self.changes = self.changes.and(&Change::Closes(c), &());
    }

    /// Drops a context, and all that wait in it. The first context stays, and none waits in it.
    pub fn drop_context(&mut self, c: Obj)
        ensures coming { self.new.coming ≡ soon_without self.old.coming c }
        ensures contexts { self.new.contexts ≡ without_context self.old.contexts c }
        ensures spare { self.old.spare ≤ self.new.spare }
        ensures contexts_spare { self.old.contexts_spare ≤ self.new.contexts_spare }
    {
        self.clear(c);
        self.close(c);
    }

    /// How many wait in a context.
    pub fn len(&self, c: Obj) -> usize
        ensures { result ≡ length (soon_in self.now.coming c) }
    {
        match self.ends.get(c.0) {
            None => 0,
            Some(ends) => ends.count,
        }
    }

    /// Whether none waits in a context.
    pub fn is_empty(&self, c: Obj) -> bool
        ensures { IsTrue result ↔ (soon_in self.now.coming c ≡ []) }
    {
        self.next(c).is_none()
    }

    /// How many wait in all contexts.
    pub fn total(&self) -> usize
        ensures count { result ≡ length self.now.coming }
        ensures once { AreOnce self.now.coming }
    {
        self.nodes.len()
    }
}
