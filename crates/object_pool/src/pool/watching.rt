//! Events on descriptors, and the descriptors that are open.
ghost use Rattle.std.specs.Prelude.{◌≡◌, ◌-◌, ◌^◌, ◌<◌, true, false, [], OnOk, OnErr, length};
ghost use Rattle.tree_specs.specs.Tree.Pool.{is_owner, is_usable, ring_here, rewatch, open_descriptor, close_descriptor};
ghost use Rattle.tree_specs.specs.Events.Rotation.{is_watched, flags_of, flagged, closing, wanted_of};
ghost use Rattle.tree_specs.specs.Calls.Refusals.{is_open, row_limit};
ghost use Rattle.tree_specs.specs.Calls.Plans.{adds_descriptor, changed_by};

use crate::counting::add_row;
use crate::pool::ObjectPool;
use tree_specs::{Handler, Kind, Memory, Name, Obj, Owner, Want};

impl ObjectPool {
    /// Adds an event on a descriptor as the newest child of an owner, and gives its number. It waits for these flags (1
    /// for reading, 2 for writing), and the handler is to run when the descriptor is ready for one of them. It is looked
    /// at in the handler's context, after all others.
    pub fn add_descriptor(&mut self, owner: Owner, fd: u32, flags: u32, handler: Handler) -> Obj
        requires ready { self.old.ready ≡ true }
        requires few { length self.old.pool.rows < row_limit }
        requires numbered { self.old.pool.next < 2 ^ 64 - 1 }
        requires owner { is_owner self.old.pool.rows owner ≡ true }
        requires context { is_usable self.old.pool.rows handler.context ≡ true }
        requires unwatched { is_watched self.old.pool.ring fd ≡ false }
        ensures serial { result ≡ record { 0 = self.old.pool.next } }
        ensures added { self.new ≡ record self.old { pool = changed_by (adds_descriptor self.old.pool owner fd flags handler) self.old.pool; ready = false } }
    {
        self.ready = false;
        self.event = false;
        let name = Name::fixed(b"fd");
        let event = add_row(
            Kind::Descriptor,
            name,
            0,
            owner,
            &mut self.tree,
            &mut self.sums,
        );
        self.events.watch(event, fd, flags, handler);
        event
    }

    /// What an event on a descriptor waits for. None exactly where it watches nothing.
    pub fn flags(&self, x: Obj) -> Option<u32>
        ensures { result ≡ flags_of self.now.pool.ring x }
    {
        self.events.flags(x)
    }

    /// Sets the flags that an event on a descriptor waits for. Nothing changes where it watches nothing.
    pub fn set_flags(&mut self, x: Obj, flags: u32)
        ensures { self.new ≡ record self.old { pool = rewatch self.old.pool x (flagged flags) } }
    {
        self.events.set_flags(x, flags);
    }

    /// Marks the descriptor of an event to be closed with it. Nothing changes where it watches nothing.
    pub fn set_closing(&mut self, x: Obj)
        ensures { self.new ≡ record self.old { pool = rewatch self.old.pool x closing } }
    {
        self.events.set_closing(x);
    }

    /// Whether an event watches a descriptor.
    pub fn is_watched(&self, fd: u32) -> bool
        ensures { result ≡ is_watched self.now.pool.ring fd }
    {
        self.events.is_watched(fd)
    }

    /// Gives the descriptors that are watched for something in the context whose turn is under way, and what for, in the
    /// order in which they are looked at, in place of what was in `out`. If memory runs out, nothing is given.
    pub fn wants(&self, out: &mut Vec<Want>) -> Result<(), Memory>
        ensures wants { OnOk result (out.new.items ≡ wanted_of (ring_here self.now.pool)) }
        ensures nothing { OnErr result (out.new.items ≡ []) }
    {
        self.events.wants(out)
    }

    /// Whether a descriptor is open.
    pub fn is_open(&self, fd: u32) -> bool
        ensures { result ≡ is_open self.now.pool fd }
    {
        self.events.is_open(fd)
    }

    /// Marks a descriptor as open.
    pub fn open(&mut self, fd: u32)
        requires { self.old.ready ≡ true }
        ensures { self.new ≡ record self.old { pool = open_descriptor self.old.pool fd; ready = false } }
    {
        self.ready = false;
        self.event = false;
        self.events.open(fd);
    }

    /// Marks a descriptor as closed.
    pub fn close(&mut self, fd: u32)
        ensures { self.new ≡ record self.old { pool = close_descriptor self.old.pool fd } }
    {
        self.events.close(fd);
    }
}
