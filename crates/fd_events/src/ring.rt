//! `Ring`: the events on descriptors, in the order in which the turns of the event loop look at them, each in a context.
//! An event is found by its number, and by its descriptor, in the same time however many there are, and the first one of
//! a context that comes in the time of the descriptors that are ready.
//!
//! Contracts see the list of how each event watches, those of all contexts, so that the one of each context that is looked
//! at first stands before the others of it; the contexts that were added beside the first one; and for how many more
//! events there is memory (`spare`).
//!
//! Read on in `lane.rt` and `node.rt`, which keep the order, and in `ring/picking.rt`, which finds the first event that
//! comes.
ghost use Rattle.std.specs.Prelude.{◌≡◌, ◌++◌, ◌∷◌, [], OnOk};
ghost use Rattle.std.specs.Option.{option_map};
ghost use Rattle.tree_specs.specs.Events.Rotation.{wanted_of};
ghost use Rattle.fd_events.specs.Linked.{numbered};

use crate::change::Change;
use crate::lane::Lane;
use crate::node::{Node, set_closing, set_flags, set_lost};
use http_server::Log;
use lane_ends::LaneEnds;
use linked_lanes::Sides;
use pool_arena::Arena;
use std::alloc::Global;
use std::marker::Model;
use tree_specs::{Memory, Obj, Want, Watch};

mod picking;

/// The events on descriptors (`tevent_add_fd`), in the order in which the loop of each context looks at them: one that
/// has come goes to the end. Contracts see the list of how each watches; the contexts that were added beside the first
/// one, which always is there and has the number 0; and for how many more events and contexts there is memory (`spare`,
/// `contexts_spare`). Each call but `first_ready`, `wants`, `clear` and `drop_context` takes the same time however many
/// there are. Only `reserve`, `reserve_context` and `wants` take memory.
#[derive(Drop)]
pub struct Ring {
    /// The events, in their order.
    lane: Lane,
    /// The event that watches each descriptor, under the descriptor.
    holders: Arena<u64>,
    /// What has become of them. The order between contexts can be read nowhere else. Only proofs read it, and it takes no
    /// memory.
    changes: Log<Change, ()>,
}

impl Model for Ring {
    ghost use Rattle.fd_events.specs.Rotation.{Rotation};

    ghost Value = { Rotation };

    ghost use Rattle.std.specs.Prelude.{min};
    ghost use Rattle.fd_events.specs.Changes.{watches_of, contexts_of};
    ghost use Rattle.fd_events.specs.Linked.{IsKept};

    ghost view = { λ r. record { watches = watches_of r.changes.items; contexts = contexts_of r.changes.items; spare = min r.lane.nodes.spare r.holders.spare; contexts_spare = r.lane.ends.spare } };

    ghost invariant = { λ r. IsKept r.lane r.holders.pairs (watches_of r.changes.items) (contexts_of r.changes.items) };
}

/// How an event watches, and the event that is looked at next.
#[derive(Clone, Copy)]
struct Place {
    watch: Watch,
    next: Option<Obj>,
}

/// The object of this number, where there is one.
fn obj(number: Option<u64>) -> Option<Obj>
    ensures { result ≡ option_map numbered number }
{
    match number {
        None => None,
        Some(n) => Some(Obj(n)),
    }
}

/// Adds what an event is watched for, if there is something.
fn push_want(out: &mut Vec<Want>, watch: Watch) -> Result<(), Memory>
    ensures { OnOk result (out.new.items ≡ out.old.items ++ wanted_of (watch ∷ [])) }
{
    let Watch { fd, flags, .. } = watch;
    if flags != 0 {
        out.push(Want { fd, flags })?;
    }
    Ok(())
}

impl Ring {
    ghost use Rattle.std.specs.Prelude.{◌+◌, ◌<◌, ◌≤◌, ◌↔◌, IsTrue, OnErr, length, slice_get, true, false};
    ghost use Rattle.tree_specs.specs.Events.Rotation.{watch_of, is_watching, flags_of, holder_of, is_watched, watched, unwatched, rewatched, flagged, closing, turned_back, ring_in, ring_without};
    ghost use Rattle.tree_specs.specs.Events.Contexts.{has_context, with_context, without_context};
    ghost use Rattle.fd_events.specs.Rotation.{AreEventsOnce, AreDescriptorsOnce, object_of, lost_one};
    ghost use Rattle.fd_events.specs.Linked.{from_on, IsPlace};

    /// No events, and the first context is the only one.
    pub fn new(alloc: Global) -> Ring
        ensures watches { result.watches ≡ [] }
        ensures contexts { result.contexts ≡ [] }
    {
        Ring {
            lane: Lane {
                nodes: Arena::new(alloc),
                ends: LaneEnds::new(alloc),
                next_stamp: 0,
            },
            holders: Arena::new(alloc),
            changes: Log::new(),
        }
    }

    /// Takes memory for so many more events. If memory runs out, they are as they were.
    pub fn reserve(&mut self, more: usize) -> Result<(), Memory>
        ensures watches { self.new.watches ≡ self.old.watches }
        ensures contexts { self.new.contexts ≡ self.old.contexts }
        ensures spare { OnOk result (more ≤ self.new.spare) }
        ensures kept { self.old.spare ≤ self.new.spare }
        ensures contexts_spare { self.new.contexts_spare ≡ self.old.contexts_spare }
    {
        self.lane.nodes.reserve(more)?;
        self.holders.reserve(more)?;
        Ok(())
    }

    /// Takes memory for one more context. If memory runs out, all is as it was.
    pub fn reserve_context(&mut self) -> Result<(), Memory>
        ensures watches { self.new.watches ≡ self.old.watches }
        ensures contexts { self.new.contexts ≡ self.old.contexts }
        ensures spare { self.new.spare ≡ self.old.spare }
        ensures contexts_spare { OnOk result (0 < self.new.contexts_spare) }
        ensures kept { self.old.contexts_spare ≤ self.new.contexts_spare }
    {
        Ok(self.lane.ends.reserve(1)?)
    }

    /// Adds a context, in which nothing is watched. One that is there stays as it is.
    pub fn add_context(&mut self, c: Obj)
        requires { 0 < self.old.contexts_spare }
        ensures watches { self.new.watches ≡ self.old.watches }
        ensures contexts { self.new.contexts ≡ with_context self.old.contexts c }
        ensures spare { self.new.spare ≡ self.old.spare }
    {
        if self.lane.ends.get(c.0).is_some() {
            return;
        }
        self.lane.ends.add_lane(c.0);
        self.changes = self.changes.and(&Change::Opens(c), &());
    }

    /// Adds an event that watches a descriptor in a context (`tevent_add_fd`), behind all others. What it watches for is
    /// 1 for reading (`TEVENT_FD_READ`), 2 for writing (`TEVENT_FD_WRITE`), 3 for both, 0 for neither. The descriptor
    /// isn't closed with it.
    pub fn add(&mut self, x: Obj, fd: u32, flags: u32, c: Obj)
        requires room { 0 < self.old.spare }
        requires absent { is_watching self.old.watches x ≡ false }
        requires free { is_watched self.old.watches fd ≡ false }
        requires known { has_context self.old.contexts c ≡ true }
        ensures watches { self.new.watches ≡ watched self.old.watches x fd flags c }
        ensures contexts { self.new.contexts ≡ self.old.contexts }
        ensures spare { self.old.spare ≤ self.new.spare + 1 }
        ensures contexts_spare { self.old.contexts_spare ≤ self.new.contexts_spare }
    {
        let sides = Sides {
            newer: None,
            older: None,
        };
        let context = Some(c);
        let node = Node {
            fd,
            flags,
            closes: false,
            context,
            sides,
            stamp: 0,
        };
        self.holders.add(u64::from(fd), x.0);
        self.lane.nodes.add(x.0, node);
        self.lane.join(x.0, context);
        self.changes = self.changes.and(&Change::Joins(node.watch(x)), &());
    }

    /// Removes an event, which watches no longer. Gives how it watched, and None exactly where it watched nothing.
    pub fn remove(&mut self, x: Obj) -> Option<Watch>
        ensures watch { result ≡ watch_of self.old.watches x }
        ensures watches { self.new.watches ≡ unwatched self.old.watches x }
        ensures contexts { self.new.contexts ≡ self.old.contexts }
        ensures spare { self.old.spare ≤ self.new.spare }
        ensures contexts_spare { self.old.contexts_spare ≤ self.new.contexts_spare }
    {
        let node = self.lane.node(x.0)?;
        self.lane.leave(node);
        let _node = self.lane.nodes.take(x.0);
        let _holder = self.holders.take(u64::from(node.fd));
        self.changes = self.changes.and(&Change::Leaves(x), &());
        Some(node.watch(x))
    }

    /// Sets what an event is watched for (`tevent_fd_set_flags`). It keeps its place. Nothing changes where it watches
    /// nothing.
    pub fn set_flags(&mut self, x: Obj, flags: u32)
        ensures watches { self.new.watches ≡ rewatched (flagged flags) self.old.watches x }
        ensures contexts { self.new.contexts ≡ self.old.contexts }
        ensures spare { self.old.spare ≤ self.new.spare }
        ensures contexts_spare { self.old.contexts_spare ≤ self.new.contexts_spare }
    {
        set_flags(&mut self.lane.nodes, x.0, flags);
        self.changes = self.changes.and(&Change::SetsFlags(x, flags), &());
    }

    /// Marks the descriptor of an event to be closed when the event goes (`tevent_fd_set_auto_close`). Nothing changes
    /// where it watches nothing.
    pub fn set_closing(&mut self, x: Obj)
        ensures watches { self.new.watches ≡ rewatched closing self.old.watches x }
        ensures contexts { self.new.contexts ≡ self.old.contexts }
        ensures spare { self.old.spare ≤ self.new.spare }
        ensures contexts_spare { self.old.contexts_spare ≤ self.new.contexts_spare }
    {
        set_closing(&mut self.lane.nodes, x.0);
        self.changes = self.changes.and(&Change::SetsClosing(x), &());
    }

    /// What an event is watched for (`tevent_fd_get_flags`). None exactly where it watches nothing.
    pub fn flags(&self, x: Obj) -> Option<u32>
        ensures { result ≡ flags_of self.now.watches x }
    {
        let watch = self.watch(x)?;
        Some(watch.flags)
    }

    /// How an event watches. None exactly where it watches nothing.
    pub fn watch(&self, x: Obj) -> Option<Watch>
        ensures { result ≡ watch_of self.now.watches x }
    {
        let node = self.lane.node(x.0)?;
        Some(node.watch(x))
    }

    /// The event that watches a descriptor. None exactly where none does.
    pub fn holder(&self, fd: u32) -> Option<Obj>
        ensures { result ≡ holder_of self.now.watches fd }
    {
        obj(self.holders.get(u64::from(fd)).copied())
    }

    /// Puts an event that has come behind all others. Nothing changes where it watches nothing.
    pub fn turn_back(&mut self, x: Obj)
        ensures watches { self.new.watches ≡ turned_back self.old.watches x }
        ensures contexts { self.new.contexts ≡ self.old.contexts }
        ensures spare { self.old.spare ≤ self.new.spare }
        ensures contexts_spare { self.old.contexts_spare ≤ self.new.contexts_spare }
    {
        if let Some(node) = self.lane.node(x.0) {
            self.lane.leave(node);
            self.lane.join(x.0, node.context);
            self.changes = self.changes.and(&Change::Turns(x), &());
        }
    }

    /// An event is lost: it stays, but nobody looks at it any more. Nothing changes where it watches nothing.
    fn lose(&mut self, x: Obj)
        ensures watches { self.new.watches ≡ lost_one self.old.watches x }
        ensures contexts { self.new.contexts ≡ self.old.contexts }
        ensures spare { self.old.spare ≤ self.new.spare }
        ensures contexts_spare { self.old.contexts_spare ≤ self.new.contexts_spare }
    {
        if let Some(node) = self.lane.node(x.0) {
            self.lane.leave(node);
            set_lost(&mut self.lane.nodes, x.0);
            self.changes = self.changes.and(&Change::Loses(x), &());
        }
    }

    /// Loses all events of a context, which stays. It takes the time of its events.
    #[inline(always)]
    pub fn clear(&mut self, c: Obj)
        ensures watches { self.new.watches ≡ ring_without self.old.watches c }
        ensures none { ring_in self.new.watches c ≡ [] }
        ensures contexts { self.new.contexts ≡ self.old.contexts }
        ensures spare { self.old.spare ≤ self.new.spare }
        ensures contexts_spare { self.old.contexts_spare ≤ self.new.contexts_spare }
    {
        while let Some(x) = self.oldest(c) {
            self.lose(x);
        }
    }

    /// Drops a context in which nothing is watched.
    fn close(&mut self, c: Obj)
        requires { ring_in self.old.watches c ≡ [] }
        ensures watches { self.new.watches ≡ self.old.watches }
        ensures contexts { self.new.contexts ≡ without_context self.old.contexts c }
        ensures spare { self.new.spare ≡ self.old.spare }
        ensures contexts_spare { self.old.contexts_spare ≤ self.new.contexts_spare }
    {
        self.lane.ends.drop_lane(c.0);
        self.changes = self.changes.and(&Change::Closes(c), &());
    }

    /// Drops a context. All events that are watched in it are lost: they stay, but nobody looks at them any more. The
    /// first context stays, and nothing is watched in it. It takes the time of the events of this context.
    pub fn drop_context(&mut self, c: Obj)
        ensures watches { self.new.watches ≡ ring_without self.old.watches c }
        ensures contexts { self.new.contexts ≡ without_context self.old.contexts c }
        ensures spare { self.old.spare ≤ self.new.spare }
        ensures contexts_spare { self.old.contexts_spare ≤ self.new.contexts_spare }
    {
        self.clear(c);
        self.close(c);
    }

    /// The event of a context that is looked at first. None exactly where there is none.
    #[inline(always)]
    fn oldest(&self, c: Obj) -> Option<Obj>
        ensures all { from_on (ring_in self.now.watches c) result ≡ ring_in self.now.watches c }
        ensures next { result ≡ option_map object_of (slice_get (ring_in self.now.watches c) 0) }
        ensures events { AreEventsOnce self.now.watches }
    {
        match self.lane.ends.get(c.0) {
            None => None,
            Some(ends) => obj(ends.oldest),
        }
    }

    /// How an event of a context watches, and the one behind it. None exactly where it isn't one of this context.
    fn place(&self, c: Obj, x: Obj) -> Option<Place>
        ensures { IsPlace (ring_in self.now.watches c) x result }
    {
        let node = self.lane.node(x.0)?;
        if !node.is_in(c) {
            return None;
        }
        Some(Place {
            watch: node.watch(x),
            next: obj(node.sides.newer),
        })
    }

    /// How the event of a context watches that is looked at first. None exactly where there is none.
    pub fn first(&self, c: Obj) -> Option<Watch>
        ensures { result ≡ slice_get (ring_in self.now.watches c) 0 }
    {
        let oldest = self.oldest(c)?;
        self.watch(oldest)
    }

    /// Adds the descriptors that are watched for something in a context, and what for, in the order of its rotation.
    fn push_wants(&self, c: Obj, out: &mut Vec<Want>) -> Result<(), Memory>
        ensures { OnOk result (out.new.items ≡ out.old.items ++ wanted_of (ring_in self.now.watches c)) }
    {
        let mut at = self.oldest(c);
        while let Some(x) = at {
            let Some(Place { watch, next }) = self.place(c, x) else {
                return Ok(());
            };
            push_want(out, watch)?;
            at = next;
        }
        Ok(())
    }

    /// Gives the descriptors that are watched for something in a context, and what for, in the order of its rotation, in
    /// place of what was in `out`. It takes the time of all events of the context. If memory runs out, nothing is given.
    pub fn wants(&self, c: Obj, out: &mut Vec<Want>) -> Result<(), Memory>
        ensures wants { OnOk result (out.new.items ≡ wanted_of (ring_in self.now.watches c)) }
        ensures nothing { OnErr result (out.new.items ≡ []) }
    {
        out.clear();
        let pushed = self.push_wants(c, out);
        if pushed.is_err() {
            out.clear();
        }
        pushed
    }

    /// How many events watch in a context.
    pub fn len(&self, c: Obj) -> usize
        ensures { result ≡ length (ring_in self.now.watches c) }
    {
        match self.lane.ends.get(c.0) {
            None => 0,
            Some(ends) => ends.count,
        }
    }

    /// Whether none watches in a context.
    pub fn is_empty(&self, c: Obj) -> bool
        ensures { IsTrue result ↔ (ring_in self.now.watches c ≡ []) }
    {
        self.oldest(c).is_none()
    }

    /// How many events watch in all contexts, with those that are lost.
    pub fn total(&self) -> usize
        ensures count { result ≡ length self.now.watches }
        ensures events { AreEventsOnce self.now.watches }
        ensures descriptors { AreDescriptorsOnce self.now.watches }
    {
        self.lane.nodes.len()
    }
}
