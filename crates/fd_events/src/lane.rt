//! The order in which events on descriptors are looked at, one for each context. An event joins that of its context at
//! the end, and leaves it wherever it stands.
ghost use Rattle.std.specs.Prelude.{◌≡◌, ◌↔◌, ℕ, List, Option, Some, None, IsTrue, true};
ghost use Rattle.std.specs.Option.{option_map};
ghost use Rattle.std.specs.FinMap as map;
ghost use Rattle.fd_events.specs.Linked.{number_of, sides_at, watch_at, is_there, placed, lanes_joined, lanes_left, CanLeave, HasFewer, HasStampsLeft, IsLane, OnContext};

use crate::node::{Node, set_link, set_place};
use lane_ends::LaneEnds;
use linked_lanes::{Link, Sides};
use pool_arena::Arena;
use tree_specs::Obj;

/// The events in the rotation of each context, the one that joined last first.
#[derive(Drop)]
pub(crate) struct Lane {
    /// Under the numbers of the events.
    pub nodes: Arena<Node>,
    /// The ends of each context, under its number: the event that joined last, and the one that is looked at first.
    pub ends: LaneEnds,
    /// The stamp of the one that joins next. Each has a greater stamp than those before it. Once this is the greatest
    /// number that there is, no stamps are left to give, and they tell nothing any more.
    pub next_stamp: u64,
}

impl Lane {
    ghost use Rattle.std.specs.Prelude.{is_some};

    /// What is noted under a number. None exactly where nothing is.
    pub(crate) fn node(&self, x: u64) -> Option<Node>
        ensures { result ≡ map.get self.now.nodes.pairs x }
    {
        self.nodes.get(x).copied()
    }

    /// Takes one with these neighbours out of its place in a context.
    fn leave_lane(&mut self, c: Obj, sides: Sides)
        requires { CanLeave self.old.ends.lanes sides c.0 }
        ensures lane { (K : ℕ → Option ℕ) (F : ℕ → List ℕ) (x : ℕ) → IsLane self.old K F → K x ≡ Some c.0 → sides_at self.old.nodes.pairs x ≡ Some sides → IsLane self.new (placed K x None) (lanes_left F x) }
        ensures watches { (q : ℕ) → watch_at self.new.nodes.pairs q ≡ watch_at self.old.nodes.pairs q }
        ensures len { map.len self.new.nodes.pairs ≡ map.len self.old.nodes.pairs }
        ensures spare { self.new.nodes.spare ≡ self.old.nodes.spare }
        ensures ends_spare { self.new.ends.spare ≡ self.old.ends.spare }
        ensures open_ones { (d : ℕ) → is_some (map.get self.new.ends.lanes d) ≡ is_some (map.get self.old.ends.lanes d) }
    {
        let ends = self.ends.get(c.0).unwrap();
        self.ends.set(c.0, ends.left(sides));
        set_link(&mut self.nodes, sides.newer, Link::Older(sides.older));
        set_link(&mut self.nodes, sides.older, Link::Newer(sides.newer));
    }

    /// Takes one that is noted so out of its place, where it has one. What is noted under its number stays.
    pub(crate) fn leave(&mut self, node: Node)
        requires { OnContext (CanLeave self.old.ends.lanes node.sides) node.context }
        ensures lane { (K : ℕ → Option ℕ) (F : ℕ → List ℕ) (x : ℕ) → IsLane self.old K F → K x ≡ option_map number_of node.context → sides_at self.old.nodes.pairs x ≡ Some node.sides → IsLane self.new (placed K x None) (lanes_left F x) }
        ensures watches { (q : ℕ) → watch_at self.new.nodes.pairs q ≡ watch_at self.old.nodes.pairs q }
        ensures len { map.len self.new.nodes.pairs ≡ map.len self.old.nodes.pairs }
        ensures spare { self.new.nodes.spare ≡ self.old.nodes.spare }
        ensures ends_spare { self.new.ends.spare ≡ self.old.ends.spare }
        ensures open_ones { (d : ℕ) → is_some (map.get self.new.ends.lanes d) ≡ is_some (map.get self.old.ends.lanes d) }
    {
        match node.context {
            None => {}
            Some(c) => self.leave_lane(c, node.sides),
        }
    }

    /// Puts one that is noted under its number, and has no place, behind all others of a context.
    fn join_lane(&mut self, x: u64, c: Obj)
        requires { HasFewer self.old.ends.lanes (map.len self.old.nodes.pairs) c.0 }
        ensures lane { (K : ℕ → Option ℕ) (F : ℕ → List ℕ) → IsLane self.old K F → K x ≡ None → is_there self.old x ≡ true → IsLane self.new (placed K x (Some c.0)) (lanes_joined F x (Some c.0)) }
        ensures watches { (q : ℕ) → watch_at self.new.nodes.pairs q ≡ watch_at self.old.nodes.pairs q }
        ensures len { map.len self.new.nodes.pairs ≡ map.len self.old.nodes.pairs }
        ensures spare { self.new.nodes.spare ≡ self.old.nodes.spare }
        ensures ends_spare { self.new.ends.spare ≡ self.old.ends.spare }
        ensures open_ones { (d : ℕ) → is_some (map.get self.new.ends.lanes d) ≡ is_some (map.get self.old.ends.lanes d) }
    {
        let ends = self.ends.get(c.0).unwrap();
        prove!(ends.count < self.nodes.len());
        self.ends.set(c.0, ends.joined(x));
        set_link(&mut self.nodes, ends.newest, Link::Newer(Some(x)));
        let stamp = self.next_stamp;
        self.next_stamp = stamp.saturating_add(1);
        let sides = Sides {
            newer: None,
            older: ends.newest,
        };
        set_place(&mut self.nodes, x, sides, stamp);
    }

    /// Puts one that is noted under its number, and has no place, behind all others of its context, if it has one.
    pub(crate) fn join(&mut self, x: u64, context: Option<Obj>)
        requires { OnContext (HasFewer self.old.ends.lanes (map.len self.old.nodes.pairs)) context }
        ensures lane { (K : ℕ → Option ℕ) (F : ℕ → List ℕ) → IsLane self.old K F → K x ≡ None → is_there self.old x ≡ true → IsLane self.new (placed K x (option_map number_of context)) (lanes_joined F x (option_map number_of context)) }
        ensures watches { (q : ℕ) → watch_at self.new.nodes.pairs q ≡ watch_at self.old.nodes.pairs q }
        ensures len { map.len self.new.nodes.pairs ≡ map.len self.old.nodes.pairs }
        ensures spare { self.new.nodes.spare ≡ self.old.nodes.spare }
        ensures ends_spare { self.new.ends.spare ≡ self.old.ends.spare }
        ensures open_ones { (d : ℕ) → is_some (map.get self.new.ends.lanes d) ≡ is_some (map.get self.old.ends.lanes d) }
    {
        match context {
            None => {}
            Some(c) => self.join_lane(x, c),
        }
    }

    /// Whether there are stamps left to give. As long as there are, the stamps tell the order.
    pub(crate) fn has_stamps_left(&self) -> bool
        ensures { IsTrue result ↔ HasStampsLeft self.now }
    {
        self.next_stamp != u64::MAX
    }
}
